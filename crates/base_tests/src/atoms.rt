//! Each call once, with the bytes of the architecture's tables, and then each byte.
use atom_formats::*;
use etm_types::AtomRun;

#[test]
fn a_byte_tells_its_run(rt: HostRuntime) {
    for (byte, count, bits) in [
        (0xf7, 1, 0b1),
        (0xda, 2, 0b10),
        (0xfb, 3, 0b011),
        (0xdc, 4, 0b1110),
        (0xd6, 5, 0b0_1010),
        (0xc0, 4, 0b1111),
        (0xf4, 24, 0x7f_ffff),
    ] {
        assert_eq!(rt; atoms_of(byte), Some(AtomRun { count, bits }), "at {byte}");
    }
    assert_eq!(rt; atoms_of(0xbf), None);
    each_byte_has_its_run();
    runs_differ_in_their_atoms();
}

/// The run of so many atoms that these bits are.
fn run(count: u8, bits: u32) -> Option<AtomRun> {
    Some(AtomRun { count, bits })
}

#[test]
fn bits_of_formats_1_to_3_are_atoms(rt: HostRuntime) {
    for (first, count, last) in [(0xf6u8, 1, 0b1u8), (0xd8, 2, 0b11), (0xf8, 3, 0b111)] {
        for bits in 0..=last {
            assert_eq!(rt;
                atoms_of(first | bits),
                run(count, u32::from(bits)),
                "at {first} {bits}"
            );
        }
    }
}

#[test]
fn formats_4_and_5_have_runs_of_their_own(rt: HostRuntime) {
    for (byte, count, bits) in [
        (0xdc, 4, 0b1110),
        (0xdd, 4, 0b0000),
        (0xde, 4, 0b1010),
        (0xdf, 4, 0b0101),
        (0xf5, 5, 0b1_1110),
        (0xd5, 5, 0b0_0000),
        (0xd6, 5, 0b0_1010),
        (0xd7, 5, 0b1_0101),
    ] {
        assert_eq!(rt; atoms_of(byte), run(count, bits), "at {byte}");
    }
}

#[test]
fn format_6_counts_e_before_its_last_atom(rt: HostRuntime) {
    for count in 0..=20u8 {
        let taken = count + 3;
        let bits = (1u32 << taken) - 1;
        assert_eq!(rt;
            atoms_of(0xe0 + count),
            run(taken + 1, bits),
            "{taken} E, then N"
        );
        assert_eq!(rt;
            atoms_of(0xc0 + count),
            run(taken + 1, bits + (1 << taken)),
            "{taken} E, then E"
        );
    }
}
