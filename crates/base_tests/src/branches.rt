//! Two words of each row of the table, as a disassembler reads them, and targets.
use a64_branches::*;

/// Words, each with its class.
const WORDS: [(u32, Class); 36] = [
    // B.cond
    (0x547f_ffe0, Class::Cond { off: 0xf_fffc }),
    (0x54ff_ffef, Class::Cond { off: -4 }),
    // BC.cond
    (0x5400_0010, Class::Odd),
    (0x54ff_ffff, Class::Odd),
    // ISB
    (0xd503_30df, Class::Isb),
    (0xd503_3fdf, Class::Isb),
    // BR
    (0xd61f_0000, Class::Ind { link: false }),
    (0xd61f_03e0, Class::Ind { link: false }),
    // BLR
    (0xd63f_0000, Class::Ind { link: true }),
    (0xd63f_03e0, Class::Ind { link: true }),
    // RET
    (0xd65f_0000, Class::Ind { link: false }),
    (0xd65f_03c0, Class::Ind { link: false }),
    // ERET has one word alone.
    (0xd69f_03e0, Class::Eret),
    // BRAAZ, BRABZ
    (0xd61f_081f, Class::Ind { link: false }),
    (0xd61f_0fff, Class::Ind { link: false }),
    // BLRAAZ, BLRABZ
    (0xd63f_081f, Class::Ind { link: true }),
    (0xd63f_0fff, Class::Ind { link: true }),
    // RETAA, RETAB
    (0xd65f_0bff, Class::Ind { link: false }),
    (0xd65f_0fff, Class::Ind { link: false }),
    // ERETAA, ERETAB
    (0xd69f_0bff, Class::Eret),
    (0xd69f_0fff, Class::Eret),
    // BRAA, BRAB
    (0xd71f_0800, Class::Ind { link: false }),
    (0xd71f_0fff, Class::Ind { link: false }),
    // BLRAA, BLRAB
    (0xd73f_0800, Class::Ind { link: true }),
    (0xd73f_0fff, Class::Ind { link: true }),
    // DRPS and words that are not allocated
    (0xd6bf_03e0, Class::Odd),
    (0xd600_1824, Class::Odd),
    (0xd7ff_eff1, Class::Odd),
    // CBZ, CBNZ
    (0x347f_c555, Class::Cond { off: 1_046_696 }),
    (0x3580_56c8, Class::Cond { off: -1_045_800 }),
    // TBZ, TBNZ
    (0x361c_00f0, Class::Cond { off: -32_740 }),
    (0x37b3_fff7, Class::Cond { off: 32_764 }),
    // NOP, ADD, SVC and DSB
    (0xd503_201f, Class::Plain),
    (0x9100_0421, Class::Plain),
    (0xd400_0001, Class::Plain),
    (0xd503_3f9f, Class::Plain),
];

#[test]
fn a_word_has_its_class(rt: HostRuntime) {
    for (word, class) in WORDS {
        assert_eq!(rt; class_of(word), class, "at {word:08x}");
    }
}

#[test]
fn a_branch_links_or_does_not(rt: HostRuntime) {
    for (word, off, link) in [
        // B
        (0x15ff_ffff, 134_217_724, false),
        (0x1600_0000, -134_217_728, false),
        // BL
        (0x9401_5b59, 355_684, true),
        (0x97ff_ffff, -4, true),
    ] {
        assert_eq!(rt; class_of(word), Class::Jump { off, link }, "at {word:08x}");
    }
}

#[test]
fn a_target_goes_past_both_ends(rt: HostRuntime) {
    for (addr, off, goes_to) in [
        (0x1000, 0, 0x1000),
        (0x1000, 8, 0x1008),
        (0x1000, -8, 0xff8),
        (u64::MAX - 3, 4, 0),
        (u64::MAX - 3, 0x7ff_fffc, 0x7ff_fff8),
        (0, -4, u64::MAX - 3),
        (4, -0x800_0000, u64::MAX - 0x7ff_fffb),
        (0, i32::MIN, u64::MAX - 0x7fff_ffff),
        (u64::MAX, i32::MAX, 0x7fff_fffe),
    ] {
        assert_eq!(rt; target(addr, off), goes_to, "at {addr:x}");
    }
}
