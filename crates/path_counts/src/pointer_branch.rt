//! Which branches have the place that they go to in a register: BR and BLR, and their forms with pointer authentication (Arm DDI
//! 0487, "Unconditional branch (register)").
ghost use Rattle.std.specs.Prelude.{◌≡◌};
ghost use Rattle.path_counts.specs.Targets.{is_pointer_branch};

/// BR: 1101 0110 0001 1111 000000 Rn 00000.
const BRANCH: u32 = 0xd61f_0000;

/// BLR: 1101 0110 0011 1111 000000 Rn 00000.
const BRANCH_WITH_LINK: u32 = 0xd63f_0000;

/// All bits of these but those of Rn.
const BRANCH_BITS: u32 = 0xffff_fc1f;

/// BRAAZ, and BRABZ where M is set: 1101 0110 0001 1111 00001M Rn 11111.
const BRANCH_WITH_KEY: u32 = 0xd61f_081f;

/// BLRAAZ, and BLRABZ where M is set: 1101 0110 0011 1111 00001M Rn 11111.
const BRANCH_WITH_LINK_WITH_KEY: u32 = 0xd63f_081f;

/// All bits of these but M and those of Rn.
const KEY_BITS: u32 = 0xffff_f81f;

/// BRAA, and BRAB where M is set: 1101 0111 0001 1111 00001M Rn Rm.
const BRANCH_WITH_KEY_AND_MODIFIER: u32 = 0xd71f_0800;

/// BLRAA, and BLRAB where M is set: 1101 0111 0011 1111 00001M Rn Rm.
const BRANCH_WITH_LINK_WITH_KEY_AND_MODIFIER: u32 = 0xd73f_0800;

/// All bits of these but M and those of Rn and Rm.
const MODIFIER_BITS: u32 = 0xffff_f800;

/// Whether an instruction word is one of these; RET and ERET are none.
pub fn is_pointer_branch(word: u32) -> bool
    ensures { result ≡ is_pointer_branch word }
{
    word & BRANCH_BITS == BRANCH
        || word & BRANCH_BITS == BRANCH_WITH_LINK
        || word & KEY_BITS == BRANCH_WITH_KEY
        || word & KEY_BITS == BRANCH_WITH_LINK_WITH_KEY
        || word & MODIFIER_BITS == BRANCH_WITH_KEY_AND_MODIFIER
        || word & MODIFIER_BITS == BRANCH_WITH_LINK_WITH_KEY_AND_MODIFIER
}
