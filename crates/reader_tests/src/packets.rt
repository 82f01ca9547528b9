//! The packet reader: each method once, and the bytes at which readers go wrong.
use etm_types::{AddrForm, AtomRun, CtxBits, Settings};
use packet_grammar::{End, Packet, PacketFault};
use packet_reader::*;

/// The answer to the last of the bytes behind an A-sync, in a reader of a VMID of one byte and a context
/// ID of four.
fn last_answer(bytes: &[u8]) -> Option<Step> {
    let settings = Settings::new(16, 1, 4).ok()?;
    let mut reader = PacketReader::new(&settings);
    for byte in [0, 0, 0, 0, 0, 0, 0, 0, 0, 0, 0, 0x80] {
        if reader.offset() < 100 {
            reader.take(byte);
        }
    }
    let mut last = None;
    for byte in bytes {
        if reader.offset() < 1000 {
            last = Some(reader.take(*byte));
        }
    }
    last
}

#[test]
fn more_zeros_than_an_a_sync_has_are_skipped(rt: HostRuntime) {
    let settings = Settings::new(16, 0, 0).expect(&rt, "settings");
    let mut reader = PacketReader::new(&settings);
    assert_eq!(rt; reader.end_without_fault(), End::NoSync);
    for _ in 0..12 {
        assert!(rt; reader.offset() < 100);
        assert_eq!(rt; reader.take(0), Step::Skipped);
    }
    assert!(rt; reader.offset() < 100);
    let packet = Packet::Async;
    assert_eq!(rt; reader.take(0x80), Step::Whole { at: 1, packet });
    assert!(rt; reader.synced());
    assert_eq!(rt; reader.rest(), 0);
}

#[test]
fn packets_end_with_their_last_byte(rt: HostRuntime) {
    for (bytes, packet) in [
        (
            &[0x2d, 0xff, 0xff, 0xff, 0xff, 0x0f][..],
            Packet::Commit(0xffff_ffff),
        ),
        (
            &[0x02, 0xff, 0xff, 0xff, 0xff, 0xff, 0xff, 0xff, 0xff, 0xff][..],
            Packet::Time {
                bits: 64,
                low: 0xffff_ffff_ffff_ffff,
            },
        ),
        (
            &[0x06, 0x5c][..],
            Packet::Exc {
                kind: 14,
                target: true,
            },
        ),
        (&[0xf7][..], Packet::Atoms(AtomRun { count: 1, bits: 1 })),
    ] {
        assert_eq!(rt; last_answer(bytes), Some(Step::Whole { at: 12, packet }));
    }
    assert_eq!(rt; last_answer(&[0x9d, 0x00]), Some(Step::More));
}

#[test]
fn faults_come_with_the_byte_that_shows_them(rt: HostRuntime) {
    for (bytes, fault) in [
        (
            &[0x2d, 0xff, 0xff, 0xff, 0xff, 0x10][..],
            PacketFault::NumberTooLong,
        ),
        (&[0x01, 0x01, 0x85, 0x01][..], PacketFault::InfoMode(133)),
        (&[0x00, 0x00, 0x01][..], PacketFault::BrokenSync),
        (&[0x06, 0x5d][..], PacketFault::ExceptionForm(0x5d)),
    ] {
        assert_eq!(rt; last_answer(bytes), Some(Step::Bad { at: 12, fault }));
    }
    assert_eq!(rt; last_answer(&[0x08, 0x04]), Some(Step::Stopped));
}

/// The address that is taken as a whole behind an A-sync, with its offset and how many bytes are left.
fn address_taken(bytes: &[u8]) -> Option<(u64, Address, usize)> {
    let settings = Settings::new(16, 1, 4).ok()?;
    let mut reader = PacketReader::new(&settings);
    for byte in [0, 0, 0, 0, 0, 0, 0, 0, 0, 0, 0, 0x80] {
        if reader.offset() < 100 {
            reader.take(byte);
        }
    }
    if reader.offset() > 100 || bytes.len() > 100 {
        return None;
    }
    let (at, address, behind) = reader.take_address(bytes)?;
    Some((at, address, behind.len()))
}

#[test]
fn addresses_that_are_all_there_are_taken_together(rt: HostRuntime) {
    for (bytes, form, left) in [
        (&[0x95, 0x7f][..], AddrForm::Short1(0x1fc), 0),
        (&[0x95, 0x81, 0x02, 0xf7][..], AddrForm::Short2(0x404), 1),
        (&[0x92][..], AddrForm::Match(2), 0),
        (
            &[0x9a, 0x01, 0x02, 0x03, 0x04][..],
            AddrForm::Long32(0x0403_0404),
            0,
        ),
        (
            &[0x9d, 0x01, 0x02, 0x03, 0x04, 0x05, 0x06, 0x07, 0x08][..],
            AddrForm::Long64(0x0807_0605_0403_0404),
            0,
        ),
    ] {
        let ctx = None;
        assert_eq!(rt;
            address_taken(bytes),
            Some((12, Address { form, ctx }, left))
        );
    }
}

#[test]
fn an_address_is_taken_together_with_its_context(rt: HostRuntime) {
    let bytes = &[
        0x85, 0, 0, 0, 0, 0, 0, 0, 0, 0xf1, 7, 1, 2, 3, 4, 0xf7, 0xf7,
    ];
    let form = AddrForm::Long64(0);
    let ctx = Some(CtxBits {
        el: 1,
        ns: true,
        vmid: Some(7),
        cid: Some(0x0403_0201),
    });
    assert_eq!(rt; address_taken(bytes), Some((12, Address { form, ctx }, 2)));
}

#[test]
fn what_is_no_whole_address_is_not_taken_together(rt: HostRuntime) {
    assert_eq!(rt; address_taken(&[0x95, 0x81]), None);
    assert_eq!(rt; address_taken(&[0x93]), None);
}

#[test]
fn atoms_are_taken_together_between_packets(rt: HostRuntime) {
    let settings = Settings::new(16, 1, 4).expect(&rt, "settings");
    let mut reader = PacketReader::new(&settings);
    for byte in [0, 0, 0, 0, 0, 0, 0, 0, 0, 0, 0, 0x80] {
        assert!(rt; reader.offset() < 100);
        assert_eq!(rt; reader.take_atoms(0xf7), None);
        reader.take(byte);
    }
    assert!(rt; reader.offset() < 100);
    let run = AtomRun { count: 1, bits: 1 };
    assert_eq!(rt; reader.take_atoms(0xf7), Some((12, run)));
    assert_eq!(rt; reader.take_atoms(0x04), None);
    assert_eq!(rt; reader.offset(), 13);
}

#[test]
fn a_commit_is_taken_together_or_by_its_last_byte(rt: HostRuntime) {
    let settings = Settings::new(16, 1, 4).expect(&rt, "settings");
    let mut reader = PacketReader::new(&settings);
    for byte in [0, 0, 0, 0, 0, 0, 0, 0, 0, 0, 0, 0x80] {
        assert!(rt; reader.offset() < 100);
        reader.take(byte);
    }
    assert!(rt; reader.offset() < 100);
    match reader.take_commit(&[0x2d, 0x05, 0xf7]) {
        Some((at, count, behind)) => assert_eq!(rt; (at, count, behind.len()), (12, 5, 1)),
        None => assert!(rt; false),
    }
    assert!(rt; reader.offset() < 100);
    assert_eq!(rt; reader.take(0x2d), Step::More);
    assert!(rt; reader.offset() < 100);
    assert_eq!(rt; reader.take_commit_end(0x07), Some((14, 7)));
}
