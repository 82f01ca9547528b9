//! The lines of a path.
ghost use Rattle.std.specs.Prelude.{◌≡◌, ◌+◌, ◌-◌, ◌*◌, ◌%◌, ◌++◌, ◌≤◌, ◌<◌, length, codes, IfOk, Some, None};
ghost use Rattle.etm_types.specs.Walked.{exception, items_of};
ghost use Rattle.path_text.specs.Lines.{HasRoom, AddsAtMost, line_of, hex, address_line};
ghost use Rattle.path_text.specs.PathLines.{whole_context_text, exception_names, name_among, exception_text, context_line};
ghost use Rattle.path_text.specs.PathLines.{instruction_lines, lines_of, shown_after_all, on_line, block_items, run_lines, run_shown};
ghost use Rattle.path_text.specs.Near.{AreNear, IsNearLine};
ghost use Rattle.path_text.specs.Writing.{Writes};

use crate::address_line::{AddressLine, near_lines};
use crate::digits::put_last_four_hex;
use crate::line::Line;
use a64_branches::INSTRUCTION_BYTES;
use etm_types::{Ctx, ExcMark, Id, Walked};
use trace_io::{Failed, Sink, write_all};

/// Writes the line of one text.
fn write_text<K: Sink>(id: Id, text: &[u8], sink: &mut K) -> Result<(), Failed>
    requires { length text.now ≤ 8 }
    ensures { Writes (K.state sink.old) (K.state sink.new) result (line_of id text.now) }
{
    let mut line = Line::begin(id);
    line.text(text);
    line.write(sink)
}

/// Writes the line of a context.
#[inline(never)]
pub(crate) fn write_context<K: Sink>(id: Id, ctx: &Ctx, sink: &mut K) -> Result<(), Failed>
    ensures { Writes (K.state sink.old) (K.state sink.new) result (line_of id (whole_context_text ctx.now)) }
{
    let mut line = Line::begin(id);
    line.text(b"ctx el");
    line.decimal_u8(ctx.el);
    if ctx.ns {
        line.text(b" ns ");
    } else {
        line.text(b" s ");
    }
    line.hex_u32(ctx.vmid);
    line.text(b" ");
    line.hex_u32(ctx.cid);
    line.write(sink)
}

/// Writes the line of a context, unless it was printed last.
#[inline(always)]
fn write_context_once<K: Sink>(
    id: Id,
    ctx: &Ctx,
    shown: &mut Option<Ctx>,
    sink: &mut K,
) -> Result<(), Failed>
    ensures lines { Writes (K.state sink.old) (K.state sink.new) result (context_line id shown.old ctx.now) }
    ensures shown { IfOk result (λ _. shown.new ≡ Some ctx.now) }
{
    match shown {
        Some(last) if *last == *ctx => Ok(()),
        _ => {
            *shown = Some(*ctx);
            write_context(id, ctx, sink)
        }
    }
}

/// Writes the lines of so many instructions, one after the other: together as many as differ in no digit but the last four.
#[inline(always)]
pub(crate) fn write_instructions<K: Sink>(
    line: &mut AddressLine,
    start: u64,
    count: u64,
    sink: &mut K,
) -> Result<(), Failed>
    ensures id { line.new.id ≡ line.old.id }
    ensures lines { Writes (K.state sink.old) (K.state sink.new) result (instruction_lines line.old.id start count) }
{
    let mut address = start;
    let mut left = count;
    while left > 0 {
        line.move_to(address);
        let near = left.min(near_lines(address));
        write_near(line, near, sink)?;
        address = address.wrapping_add(near * INSTRUCTION_BYTES);
        left -= near;
    }
    Ok(())
}

/// Writes the lines of instructions of which only the last four digits differ, from that of the line's address on.
#[inline(always)]
fn write_near<K: Sink>(line: &AddressLine, count: u64, sink: &mut K) -> Result<(), Failed>
    requires some { 0 < count }
    requires near { (1 < count) → (4096 ≤ line.now.address) × (line.now.address % 65536 + 4 * (count - 1) < 65536) }
    ensures { Writes (K.state sink.old) (K.state sink.new) result (instruction_lines line.now.id line.now.address count) }
{
    match line.len() {
        8 => write_lines_of::<8, K>(line, count, sink),
        9 => write_lines_of::<9, K>(line, count, sink),
        10 => write_lines_of::<10, K>(line, count, sink),
        11 => write_lines_of::<11, K>(line, count, sink),
        12 => write_lines_of::<12, K>(line, count, sink),
        13 => write_lines_of::<13, K>(line, count, sink),
        14 => write_lines_of::<14, K>(line, count, sink),
        15 => write_lines_of::<15, K>(line, count, sink),
        16 => write_lines_of::<16, K>(line, count, sink),
        17 => write_lines_of::<17, K>(line, count, sink),
        18 => write_lines_of::<18, K>(line, count, sink),
        19 => write_lines_of::<19, K>(line, count, sink),
        20 => write_lines_of::<20, K>(line, count, sink),
        _ => line.write(sink),
    }
}

/// Writes the bytes of a line by one call.
#[inline(always)]
pub(crate) fn write_bytes<K: Sink>(bytes: &[u8], sink: &mut K) -> Result<(), Failed>
    ensures { Writes (K.state sink.old) (K.state sink.new) result bytes.now }
{
    write_all(sink, bytes)
}

/// The same of lines of `L` bytes.
#[inline(always)]
fn write_lines_of<const L: usize, K: Sink>(
    first: &AddressLine,
    count: u64,
    sink: &mut K,
) -> Result<(), Failed>
    requires near { (1 < count) → (4096 ≤ first.now.address) × (first.now.address % 65536 + 4 * (count - 1) < 65536) }
    requires sizes { (8 ≤ L) × (L ≤ 20) }
    requires len { L ≡ length (address_line first.now.id first.now.address) }
    ensures { Writes (K.state sink.old) (K.state sink.new) result (instruction_lines first.now.id first.now.address count) }
{
    let mut bytes = [0; L];
    bytes.copy_from_slice(first.bytes());
    write_near_lines(first, first.address(), count, &mut bytes, sink)
}

/// Writes the lines of so many instructions from an address on, which differ from a line in no digit but the last four. `bytes` are a
/// line of that kind, here and behind.
///
/// Since their number is known where this is compiled, a line is copied by a store or two, and not by a call.
#[inline(always)]
fn write_near_lines<const L: usize, K: Sink>(
    line: &AddressLine,
    start: u64,
    count: u64,
    bytes: &mut [u8; L],
    sink: &mut K,
) -> Result<(), Failed>
    requires near { AreNear line.now.address start count }
    requires line { IsNearLine line.now bytes.old }
    requires short { L ≤ 20 }
    ensures lines { Writes (K.state sink.old) (K.state sink.new) result (instruction_lines line.now.id start count) }
    ensures line { IsNearLine line.now bytes.new }
{
    let mut address = start;
    for _done in 0..count {
        put_last_four_hex(address, bytes, L - 1);
        write_bytes(bytes, sink)?;
        address = address.wrapping_add(INSTRUCTION_BYTES);
    }
    Ok(())
}

/// Writes the lines of the instructions of a walk, after that of their context.
#[inline(always)]
fn write_run<K: Sink>(
    line: &mut AddressLine,
    walked: &Walked,
    shown: &mut Option<Ctx>,
    sink: &mut K,
) -> Result<(), Failed>
    ensures id { line.new.id ≡ line.old.id }
    ensures lines { Writes (K.state sink.old) (K.state sink.new) result (run_lines line.old.id shown.old walked.now) }
    ensures shown { IfOk result (λ _. shown.new ≡ run_shown shown.old walked.now) }
{
    if walked.count == 0 {
        return Ok(());
    }
    write_context_once(line.id(), &walked.ctx, shown, sink)?;
    write_instructions(line, walked.start, walked.count, sink)
}

/// Writes the lines of what a walk shows between trace on and the exception.
#[inline(always)]
fn write_block<K: Sink>(
    line: &mut AddressLine,
    walked: &Walked,
    shown: &mut Option<Ctx>,
    sink: &mut K,
) -> Result<(), Failed>
    ensures id { line.new.id ≡ line.old.id }
    ensures lines { Writes (K.state sink.old) (K.state sink.new) result (lines_of line.old.id shown.old (block_items walked.now)) }
    ensures shown { IfOk result (λ _. shown.new ≡ shown_after_all shown.old (block_items walked.now)) }
{
    if walked.unknown {
        write_text(line.id(), b"?", sink)
    } else {
        write_run(line, walked, shown, sink)
    }
}

/// Writes the line of trace on, where it is shown.
fn write_on<K: Sink>(id: Id, on: bool, sink: &mut K) -> Result<(), Failed>
    ensures { Writes (K.state sink.old) (K.state sink.new) result (on_line id on) }
{
    if on {
        write_text(id, b"on", sink)
    } else {
        Ok(())
    }
}

/// Adds the name of an exception's type, or its number where it has none (Arm IHI 0064, exception types).
pub fn add_exception_name(line: &mut Line, kind: u8)
    requires { HasRoom 12 line.old }
    ensures value { line.new ≡ line.old ++ name_among exception_names kind }
    ensures short { AddsAtMost 12 line.old line.new }
{
    match kind {
        0 => line.text(b"reset"),
        1 => line.text(b"debug-halt"),
        2 => line.text(b"call"),
        3 => line.text(b"trap"),
        4 => line.text(b"system-error"),
        6 => line.text(b"inst-debug"),
        7 => line.text(b"data-debug"),
        10 => line.text(b"alignment"),
        11 => line.text(b"inst-fault"),
        12 => line.text(b"data-fault"),
        14 => line.text(b"irq"),
        15 => line.text(b"fiq"),
        _ => line.decimal_u8(kind),
    }
}

/// Writes the line of an exception.
fn write_mark<K: Sink>(id: Id, mark: &ExcMark, sink: &mut K) -> Result<(), Failed>
    ensures { Writes (K.state sink.old) (K.state sink.new) result (line_of id (exception_text mark.now.kind mark.now.ret)) }
{
    let mut line = Line::begin(id);
    line.text(b"exc ");
    add_exception_name(&mut line, mark.kind);
    line.text(b" ");
    line.hex(mark.ret);
    line.write(sink)
}

/// Writes the line of an exception, where there is one.
#[inline(always)]
fn write_exception<K: Sink>(id: Id, exc: &Option<ExcMark>, sink: &mut K) -> Result<(), Failed>
    ensures { Writes (K.state sink.old) (K.state sink.new) result (lines_of id None (exception exc.now)) }
{
    match exc {
        Some(mark) => write_mark(id, mark, sink),
        None => Ok(()),
    }
}

/// Writes the lines of what the walk of one P0 element shows: `on`, then `?` or the instructions, then
/// the exception. `shown` is the context that was printed last, here and before.
#[inline(always)]
pub fn write_walked<K: Sink>(
    id: Id,
    walked: &Walked,
    shown: &mut Option<Ctx>,
    sink: &mut K,
) -> Result<(), Failed>
    ensures lines { Writes (K.state sink.old) (K.state sink.new) result (lines_of id shown.old (items_of walked.now)) }
    ensures shown { IfOk result (λ _. shown.new ≡ shown_after_all shown.old (items_of walked.now)) }
{
    write_walked_on(&mut AddressLine::new(id), walked, shown, sink)
}

/// The same, by a line of an instruction that goes on from walk to walk.
#[inline(always)]
pub fn write_walked_on<K: Sink>(
    line: &mut AddressLine,
    walked: &Walked,
    shown: &mut Option<Ctx>,
    sink: &mut K,
) -> Result<(), Failed>
    ensures id { line.new.id ≡ line.old.id }
    ensures lines { Writes (K.state sink.old) (K.state sink.new) result (lines_of line.old.id shown.old (items_of walked.now)) }
    ensures shown { IfOk result (λ _. shown.new ≡ shown_after_all shown.old (items_of walked.now)) }
{
    let id = line.id();
    write_on(id, walked.on, sink)?;
    write_block(line, walked, shown, sink)?;
    write_exception(id, &walked.exc, sink)
}

/// Writes the line of trace that was lost by an overflow.
pub fn write_gap<K: Sink>(id: Id, sink: &mut K) -> Result<(), Failed>
    ensures { Writes (K.state sink.old) (K.state sink.new) result (line_of id (codes "gap")) }
{
    write_text(id, b"gap", sink)
}

/// Writes the line of a stop of tracing.
pub fn write_stop<K: Sink>(id: Id, sink: &mut K) -> Result<(), Failed>
    ensures { Writes (K.state sink.old) (K.state sink.new) result (line_of id (codes "stop")) }
{
    write_text(id, b"stop", sink)
}
