//! Lines: each public call but the law once, with the largest numbers, and that a line is one write. Which text a value has is
//! shown by `proofs/Examples.antt` of `path_text` and the files beside it.
use etm_types::{AddrForm, AtomRun, Ctx, CtxBits, ExcMark, Id, WalkFault, Walked};
use packet_grammar::{Fault, Packet};
use path_text::*;
use std::test::Fail;
use trace_io::{Failed, MemSink};

/// EL0 in Non-secure state.
const USER: Ctx = Ctx {
    el: 0,
    ns: true,
    vmid: 0,
    cid: 0,
};

/// Three instructions from 1000 on, and nothing else.
const BLOCK: Walked = Walked {
    on: false,
    unknown: false,
    ctx: USER,
    start: 0x1000,
    count: 3,
    took: false,
    exc: None,
};

const INTERRUPT: Option<ExcMark> = Some(ExcMark {
    kind: 14,
    ret: 0x1_0004,
});

const UNKNOWN: Walked = Walked {
    unknown: true,
    start: 0,
    count: 0,
    ..BLOCK
};

fn id_of(n: u8) -> Result<Id, Failed> {
    Id::new(n).ok_or(Failed)
}

/// Packets with large numbers.
fn write_packets(sink: &mut MemSink) -> Result<(), Failed> {
    let id = id_of(111)?;
    let time = Packet::Time {
        bits: 64,
        low: 18_374_686_479_671_623_680,
    };
    let atoms = AtomRun {
        count: 24,
        bits: 0x7f_ffff,
    };
    let address = Packet::Addr {
        form: AddrForm::Long64(0xfedc_ba98_7654_3210),
        ctx: Some(CtxBits {
            el: 3,
            ns: true,
            vmid: Some(0xff),
            cid: Some(0x1234_5678),
        }),
    };
    PacketLine::new(id).write(9_999, &Packet::Commit(u32::MAX), sink)?;
    PacketLine::new(id).write(10_000, &time, sink)?;
    PacketLine::new(id).write(123_456_789, &Packet::Atoms(atoms), sink)?;
    PacketLine::new(id).write(u64::MAX, &address, sink)?;
    PacketLine::new(id).write(7, &Packet::On, sink)
}

#[test]
fn packets_with_large_numbers_have_their_lines(rt: HostRuntime) {
    let mut sink = MemSink::new(rt.alloc(), Vec::new(rt.alloc()));
    assert_eq!(rt; write_packets(&mut sink), Ok(()));
    let lines = b"6f 9999 commit 4294967295\n6f 10000 time 64 18374686479671623680\n\
        6f 123456789 atoms EEEEEEEEEEEEEEEEEEEEEEEN\n\
        6f 18446744073709551615 addr long64 fedcba9876543210 ctx el3 ns ff 12345678\n6f 7 on\n";
    assert_eq!(rt; sink.written(), lines.as_slice());
}

/// A path with an exception, a gap, the last address, a stop and a fault.
fn write_path(sink: &mut MemSink) -> Result<(), Failed> {
    let id = id_of(1)?;
    let mut line = AddressLine::new(id);
    let mut shown = None;
    let first = Walked {
        on: true,
        start: 0xffec,
        count: 6,
        exc: INTERRUPT,
        ..BLOCK
    };
    let last = Walked {
        start: 0xffff_ffff_ffff_fff8,
        ..BLOCK
    };
    let fault = Fault::Walk(WalkFault::ReturnMissed {
        addr: 0x1004,
        ret: 0x1008,
    });
    write_walked_on(&mut line, &first, &mut shown, sink)?;
    write_gap(id, sink)?;
    write_walked_on(&mut line, &last, &mut shown, sink)?;
    write_stop(id, sink)?;
    write_end(id, &End::Fault { at: 28, fault }, sink)
}

#[test]
fn a_path_has_its_lines(rt: HostRuntime) {
    let mut sink = MemSink::new(rt.alloc(), Vec::new(rt.alloc()));
    assert_eq!(rt; write_path(&mut sink), Ok(()));
    let lines = b"01 on\n01 ctx el0 ns 0 0\n01 ffec\n01 fff0\n01 fff4\n01 fff8\n01 fffc\n01 10000\n\
        01 exc irq 10004\n01 gap\n01 fffffffffffffff8\n01 fffffffffffffffc\n01 0\n01 stop\n\
        01 fault 28 return-missed 1004 1008\n";
    assert_eq!(rt; sink.written(), lines.as_slice());
}

#[test]
fn a_line_is_written_by_one_call(rt: HostRuntime) -> Result<(), Fail> {
    let id = id_of(1)?;
    let mut sink = MemSink::new(rt.alloc(), vec![in rt.alloc(); false, true]?);
    let mut line = PacketLine::new(id);
    assert_eq!(rt; line.write(1 << 63, &Packet::CtxSame, &mut sink), Ok(()));
    assert_eq!(rt; write_end(id, &End::Clean, &mut sink), Err(Failed));
    let line = b"01 9223372036854775808 ctx same\n";
    assert_eq!(rt; sink.written(), line.as_slice());
    Ok(())
}

/// Six lines of no instruction.
fn write_no_instruction(id: Id, sink: &mut MemSink) -> Result<(), Failed> {
    let interrupted = Walked {
        exc: INTERRUPT,
        ..UNKNOWN
    };
    write_walked(id, &interrupted, &mut None, sink)?;
    write_gap(id, sink)?;
    write_stop(id, sink)?;
    write_frame_cut(15, sink)?;
    write_walked(id, &UNKNOWN, &mut None, sink)
}

#[test]
fn lines_of_no_instruction_are_one_write_each(rt: HostRuntime) -> Result<(), Fail> {
    let id = id_of(1)?;
    let script = vec![in rt.alloc(); false, false, false, false, false, false, true]?;
    let mut sink = MemSink::new(rt.alloc(), script);
    assert_eq!(rt; write_no_instruction(id, &mut sink), Ok(()));
    assert_eq!(rt; write_gap(id, &mut sink), Err(Failed));
    let lines = b"01 ?\n01 exc irq 10004\n01 gap\n01 stop\nframe cut 15\n01 ?\n";
    assert_eq!(rt; sink.written(), lines.as_slice());
    Ok(())
}

#[test]
fn a_path_ends_where_a_write_fails(rt: HostRuntime) -> Result<(), Fail> {
    let id = id_of(1)?;
    let mut sink = MemSink::new(rt.alloc(), vec![in rt.alloc(); false, false, true]?);
    assert_eq!(rt; write_walked(id, &BLOCK, &mut None, &mut sink), Err(Failed));
    assert_eq!(rt; sink.written(), b"01 ctx el0 ns 0 0\n01 1000\n".as_slice());
    Ok(())
}

/// The lines of these addresses.
fn write_addresses(addresses: &[u64], sink: &mut MemSink) -> Result<(), Failed> {
    let mut line = AddressLine::new(id_of(111)?);
    for address in addresses {
        line.move_to(*address);
        line.write(sink)?;
    }
    Ok(())
}

#[test]
fn an_address_has_its_line(rt: HostRuntime) {
    let mut sink = MemSink::new(rt.alloc(), Vec::new(rt.alloc()));
    let addresses = [0xffff, 0x1_0000, 0x1_0004, u64::MAX];
    assert_eq!(rt; write_addresses(&addresses, &mut sink), Ok(()));
    let lines = b"6f ffff\n6f 10000\n6f 10004\n6f ffffffffffffffff\n";
    assert_eq!(rt; sink.written(), lines.as_slice());
}

#[test]
fn an_address_line_has_its_id(rt: HostRuntime) -> Result<(), Fail> {
    let id = id_of(111)?;
    assert_eq!(rt; AddressLine::new(id).id(), id);
    Ok(())
}

/// A stretch behind its context, one near it, one over the end of a page, what a walk shows, a gap and a stop. Says whether the second was near.
fn put_path(lines: &mut LineBlock, sink: &mut MemSink) -> Result<bool, Failed> {
    lines.resume(id_of(1)?, &None);
    lines.put_far(&USER, 0x1000, 2, sink)?;
    lines.begin(&USER);
    let near = lines.put_near(0x1008, 2);
    lines.put_far(&USER, 0xfffc, 2, sink)?;
    lines.put_walked(&BLOCK, sink)?;
    lines.put_gap(sink)?;
    lines.put_stop(sink)?;
    lines.flush(sink)?;
    Ok(near)
}

#[test]
fn a_block_has_its_lines(rt: HostRuntime) {
    let mut sink = MemSink::new(rt.alloc(), Vec::new(rt.alloc()));
    let mut lines = LineBlock::new();
    assert_eq!(rt; put_path(&mut lines, &mut sink), Ok(true));
    assert_eq!(rt; lines.shown(), Some(USER));
    let text = b"01 ctx el0 ns 0 0\n01 1000\n01 1004\n01 1008\n01 100c\n01 fffc\n01 10000\n\
        01 1000\n01 1004\n01 1008\n01 gap\n01 stop\n";
    assert_eq!(rt; sink.written(), text.as_slice());
}

/// Two lines of numbers with all their digits.
fn write_numbers(sink: &mut MemSink) -> Result<(), Failed> {
    let mut line = Line::begin(id_of(111)?);
    line.byte(0x0a);
    line.hex(0xfedc_ba98_7654_3210);
    line.text(b" ");
    line.hex_u32(u32::MAX);
    line.text(b" ");
    line.decimal_u8(u8::MAX);
    line.write(sink)?;
    let mut line = Line::new();
    line.decimal(u64::MAX);
    line.text(b" ");
    line.decimal_u32(u32::MAX);
    line.write(sink)
}

#[test]
fn a_line_is_put_together(rt: HostRuntime) {
    let mut sink = MemSink::new(rt.alloc(), Vec::new(rt.alloc()));
    assert_eq!(rt; write_numbers(&mut sink), Ok(()));
    let lines = b"6f 0afedcba9876543210 ffffffff 255\n18446744073709551615 4294967295\n";
    assert_eq!(rt; sink.written(), lines.as_slice());
}

/// Atoms, an address and trace on, by one line that goes on.
fn write_on(sink: &mut MemSink) -> Result<(), Failed> {
    let mut line = PacketLine::new(id_of(1)?);
    let run = AtomRun {
        count: 3,
        bits: 0b011,
    };
    for at in [7, 98, 101, 199, 200] {
        line.write_atoms(at, &run, sink)?;
    }
    line.write_address(1 << 63, &AddrForm::Short1(0x1fc), &None, sink)?;
    line.write(7, &Packet::On, sink)
}

#[test]
fn a_line_goes_on_from_packet_to_packet(rt: HostRuntime) {
    let mut sink = MemSink::new(rt.alloc(), Vec::new(rt.alloc()));
    assert_eq!(rt; write_on(&mut sink), Ok(()));
    let lines =
        b"01 7 atoms EEN\n01 98 atoms EEN\n01 101 atoms EEN\n01 199 atoms EEN\n01 200 atoms EEN\n\
        01 9223372036854775808 addr short1 1fc\n01 7 on\n";
    assert_eq!(rt; sink.written(), lines.as_slice());
}
