//! The encodings of the branches and of ISB, in the order of the standard's tables (Arm DDI 0487,
//! "Branches, Exception Generating and System instructions").
ghost use Rattle.std.specs.Prelude.{◌≡◌, ◌==◌, bit_and};

/// A mask and a value: the words whose bits under the mask are those of the value.
#[derive(Clone, Copy)]
pub struct Encoding(u32, u32);

impl Encoding {
    /// Whether a word has this encoding.
    pub fn fits(self, word: u32) -> bool
        ensures { result ≡ (bit_and word self.0 == self.1) }
    {
        let Encoding(mask, value) = self;
        word & mask == value
    }
}

/// The group that has all these encodings, and others: bits 28 to 26 are 101.
pub const BRANCHES_AND_SYSTEM: Encoding = Encoding(0x1c00_0000, 0x1400_0000);

/// B.cond: 0101 0100 imm19 0 cond.
pub const BRANCH_CONDITIONALLY: Encoding = Encoding(0xff00_0010, 0x5400_0000);

/// BC.cond, of a later extension: 0101 0100 imm19 1 cond.
pub const BRANCH_CONSISTENT: Encoding = Encoding(0xff00_0010, 0x5400_0010);

/// ISB: 1101 0101 0000 0011 0011 CRm 110 11111.
pub const SYNCHRONIZATION_BARRIER: Encoding = Encoding(0xffff_f0ff, 0xd503_30df);

/// BR: 1101 0110 0001 1111 000000 Rn 00000.
pub const BRANCH_TO_REGISTER: Encoding = Encoding(0xffff_fc1f, 0xd61f_0000);

/// BLR: 1101 0110 0011 1111 000000 Rn 00000.
pub const BRANCH_WITH_LINK_TO_REGISTER: Encoding = Encoding(0xffff_fc1f, 0xd63f_0000);

/// RET: 1101 0110 0101 1111 000000 Rn 00000.
pub const RETURN: Encoding = Encoding(0xffff_fc1f, 0xd65f_0000);

/// ERET: 1101 0110 1001 1111 000000 11111 00000.
pub const EXCEPTION_RETURN: Encoding = Encoding(0xffff_ffff, 0xd69f_03e0);

/// BRAAZ, and BRABZ where M is set: 1101 0110 0001 1111 00001M Rn 11111.
pub const BRANCH_WITH_KEY: Encoding = Encoding(0xffff_f81f, 0xd61f_081f);

/// BLRAAZ, and BLRABZ where M is set: 1101 0110 0011 1111 00001M Rn 11111.
pub const BRANCH_WITH_LINK_WITH_KEY: Encoding = Encoding(0xffff_f81f, 0xd63f_081f);

/// RETAA, and RETAB where M is set: 1101 0110 0101 1111 00001M 11111 11111.
pub const RETURN_WITH_KEY: Encoding = Encoding(0xffff_fbff, 0xd65f_0bff);

/// ERETAA, and ERETAB where M is set: 1101 0110 1001 1111 00001M 11111 11111.
pub const EXCEPTION_RETURN_WITH_KEY: Encoding = Encoding(0xffff_fbff, 0xd69f_0bff);

/// BRAA, and BRAB where M is set: 1101 0111 0001 1111 00001M Rn Rm.
pub const BRANCH_WITH_KEY_AND_MODIFIER: Encoding = Encoding(0xffff_f800, 0xd71f_0800);

/// BLRAA, and BLRAB where M is set: 1101 0111 0011 1111 00001M Rn Rm.
pub const BRANCH_WITH_LINK_WITH_KEY_AND_MODIFIER: Encoding = Encoding(0xffff_f800, 0xd73f_0800);

/// Whatever begins as the ten encodings before: 1101 011.
pub const ANY_BRANCH_TO_REGISTER: Encoding = Encoding(0xfe00_0000, 0xd600_0000);

/// B: 000101 imm26.
pub const BRANCH: Encoding = Encoding(0xfc00_0000, 0x1400_0000);

/// BL: 100101 imm26.
pub const BRANCH_WITH_LINK: Encoding = Encoding(0xfc00_0000, 0x9400_0000);

/// CBZ and CBNZ: sf 011010 op imm19 Rt.
pub const COMPARE_AND_BRANCH: Encoding = Encoding(0x7e00_0000, 0x3400_0000);

/// TBZ and TBNZ: b5 011011 op b40 imm14 Rt.
pub const TEST_BIT_AND_BRANCH: Encoding = Encoding(0x7e00_0000, 0x3600_0000);
