//! Each call once, with bytes that were worked out by the standard's tables.
ghost use Rattle.packet_writer.specs.Fitting.{Fits};

use atom_formats::atoms_of;
use etm_types::{AddrForm, CtxBits, FewAtoms, Settings};
use packet_grammar::Packet;
use packet_writer::{
    each_packet_has_its_bytes, longest_front, write_packet, written_packets_are_read,
};

/// Whether these bytes are written for a packet, with a VMID of one byte and a context ID of four.
fn are_written(packet: Packet, bytes: &[u8]) -> bool
    requires { Fits (record { depth = 16; vmid_bytes = 1; cid_bytes = 4 }) packet }
{
    let mut out = [0xee; 24];
    match Settings::new(16, 1, 4) {
        Ok(settings) => {
            let count = write_packet(&packet, &settings, &mut out);
            &out[..count] == bytes
        }
        Err(_) => false,
    }
}

#[test]
fn a_packet_is_written_in_its_fewest_bytes(rt: HostRuntime) {
    assert!(rt; are_written(Packet::Commit(128), &[0x2d, 0x80, 0x01]));
    assert!(rt; are_written(Packet::Cancel { n: 3, flip: true }, &[0x2f, 0x03]));
    let irq = Packet::Exc {
        kind: 14,
        target: false,
    };
    let irq_at_its_target = Packet::Exc {
        kind: 14,
        target: true,
    };
    assert!(rt; are_written(irq, &[0x06, 0x1d]));
    assert!(rt; are_written(irq_at_its_target, &[0x06, 0x5c]));
    assert!(rt;
        are_written(
            Packet::Mispredict(FewAtoms {
                count: 2,
                first: true
            }),
            &[0x32]
        )
    );
    each_packet_has_its_bytes();
    written_packets_are_read();
}

#[test]
fn a_time_and_an_address_are_written_in_full(rt: HostRuntime) {
    let ctx = CtxBits {
        el: 1,
        ns: true,
        vmid: Some(7),
        cid: Some(0x0102_0304),
    };
    let form = AddrForm::Long64(0xffff_8000_1234_5678);
    let time = Packet::Time {
        bits: 64,
        low: 0x0123_4567_89ab_cdef,
    };
    assert!(rt;
        are_written(
            time,
            &[0x02, 0xef, 0x9b, 0xaf, 0xcd, 0xf8, 0xac, 0xd1, 0x91, 0x01]
        )
    );
    assert!(rt;
        are_written(
            Packet::Addr {
                form,
                ctx: Some(ctx)
            },
            &[
                0x85, 0x1e, 0x2b, 0x34, 0x12, 0x00, 0x80, 0xff, 0xff, 0xf1, 0x07, 0x04, 0x03, 0x02,
                0x01
            ]
        )
    );
}

/// Atoms, the byte that spells the longest front of them, and how many that are.
struct Front {
    atoms: &'static [bool],
    byte: u8,
    count: usize,
}

const LAST_NOT_TAKEN: [bool; 24] = [
    true, true, true, true, true, true, true, true, true, true, true, true, true, true, true, true,
    true, true, true, true, true, true, true, false,
];

const FRONTS: [Front; 7] = [
    Front {
        atoms: &[true; 24],
        byte: 0xd4,
        count: 24,
    },
    Front {
        atoms: &LAST_NOT_TAKEN,
        byte: 0xf4,
        count: 24,
    },
    Front {
        atoms: &[true; 25],
        byte: 0xd4,
        count: 24,
    },
    Front {
        atoms: &[true; 3],
        byte: 0xff,
        count: 3,
    },
    Front {
        atoms: &[true, true, true, false],
        byte: 0xe0,
        count: 4,
    },
    Front {
        atoms: &[false; 5],
        byte: 0xd5,
        count: 5,
    },
    Front {
        atoms: &[false, true],
        byte: 0xda,
        count: 2,
    },
];

#[test]
fn the_longest_front_is_told(rt: HostRuntime) {
    for front in &FRONTS {
        assert!(rt; !front.atoms.is_empty());
        assert_eq!(rt; longest_front(front.atoms), (front.byte, front.count));
    }
}

#[test]
fn the_atoms_of_each_byte_are_told_by_it(rt: HostRuntime) {
    for byte in 0xc0..=0xffu8 {
        let mut atoms = [false; 24];
        let mut count = 0;
        if let Some(run) = atoms_of(byte) {
            for (i, atom) in atoms.iter_mut().enumerate() {
                *atom = run.bits >> i & 1 == 1;
            }
            count = usize::from(run.count);
        }
        assert!(rt; count >= 1 && count <= atoms.len());
        assert_eq!(rt; longest_front(&atoms[..count]), (byte, count));
    }
}
