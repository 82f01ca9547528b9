//! The command `trace`: the streams of a run file are traced, one after the other, and then their traces are woven into frames.
//!
//! Nothing is written before the last stream is traced, so that a run file that is bad, or want of memory, leaves no frame. Where only
//! the last frames are wanted, or synchronisation packets among them, all frames are woven in memory first.
ghost use Rattle.std.specs.Prelude.{◌≡◌, ◌⊎◌, ℕ, ◌+◌, ◌%◌, ◌≤◌, ◌<◌, List, [], length, None, Some, Ok, Err, IsOk, IfOk, IfSome, slice_get};
ghost use Rattle.formatter_frames.specs.Framed.{framed};
ghost use Rattle.formatter_frames.specs.Sizes.{frame_bytes};
ghost use Rattle.path_text.specs.Writing.{Writes};
ghost use Rattle.run_file.specs.Parts.{BenchStream, IsBench, events_of};
ghost use Rattle.run_file.specs.Refusals.{most_text, refusal_among, stream_refusal};
ghost use Rattle.spec_run.specs.RunAfter.{IsEvent};
ghost use Rattle.spec_run.specs.declared.run_fault.RunFault.{RunFault as Refusal};
ghost use Rattle.retired_paths.specs.Retiring.{RefusesLine, events_with};
ghost use Rattle.traced_runs.specs.Traced.{TracesSo, WritesTraces, kept_frames, traces, with_syncs};
ghost use Rattle.traced_runs.specs.Tracing.{IsTracing, refused_at};
ghost use Rattle.woven_traces.specs.Weaving.{all_left};
ghost use Rattle.woven_traces.specs.Woven.{woven};
ghost use Rattle.trace_io.specs.Bytes.{TakesAtMost};
ghost use Rattle.trace_io.specs.Causes.{KeepsFaults};
ghost use Rattle.trace_io.specs.Calls.{Serves, Lasts};
ghost use Rattle.trace_unit.specs.Written.{settled};

use answer_lines::Status;
use formatter_frames::FRAME_BYTES;
use program_image::Image;
use retired_paths::{Unread, read_bench, refuse};
use ring_capture::last_frames;
use run_file::{Bench, BenchLine, BenchWhy};
use spec_run::{Event, RunFault};
use std::alloc::{AllocError, Global};
use sync_frames::write_synced;
use trace_io::{Failed, MemSink, Sink, Source, write_all};
use trace_unit::{Unit, UnitFault};
use woven_traces::{Trace, write_woven};

/// Why streams were not traced.
#[derive(Clone, Copy, Debug)]
pub enum Untraced {
    /// The event of this line is refused.
    Refused { line: u64, fault: RunFault },
    /// Memory is wanting.
    Memory,
}

/// Traces the events of a line.
fn trace_line(
    unit: &mut Unit,
    image: &Image,
    line: &BenchLine,
    bytes: &mut Vec<u8>,
) -> Result<(), UnitFault>
    requires { IsEvent unit.old.settings line.now.event }
    ensures traces { (events : List Event) → IsTracing image.now unit.old bytes.old.items events → IsOk result
        → IsTracing image.now unit.new bytes.new.items (events_with events line.now.times line.now.event) }
    ensures refused { (events : List Event) → IsTracing image.now unit.old bytes.old.items events
        → (fault : Refusal) → result ≡ Err (UnitFault.Run fault) → RefusesLine image.now unit.old.settings events line.now fault }
    ensures settings { (unit.new.settings ≡ unit.old.settings) × (unit.new.stack_depth ≡ unit.old.stack_depth) }
{
    let done = trace_plain(unit, image, line);
    for _ in done..line.times {
        unit.accept(image, &line.event, bytes)?;
    }
    Ok(())
}

/// Traces the plain steps at the front of a line's events together, and says how many there are. The trace says nothing of them.
fn trace_plain(unit: &mut Unit, image: &Image, line: &BenchLine) -> u32
    ensures traces { (bytes : List ℕ) (events : List Event) → IsTracing image.now unit.old bytes events
        → IsTracing image.now unit.new bytes (events_with events result line.now.event) }
    ensures few { result ≤ line.now.times }
    ensures settings { (unit.new.settings ≡ unit.old.settings) × (unit.new.stack_depth ≡ unit.old.stack_depth) }
{
    match line.event {
        Event::Step => unit.step_many(image, line.times),
        _ => 0,
    }
}

/// Traces the events of a stream.
fn trace_lines(
    unit: &mut Unit,
    image: &Image,
    bench: &Bench,
    s: usize,
    bytes: &mut Vec<u8>,
) -> Result<(), Untraced>
    requires parts { IsBench bench.now }
    requires settings { (stream : BenchStream) → slice_get bench.now.streams s ≡ Some stream → unit.old.settings ≡ stream.settings }
    ensures traces { (stream : BenchStream) → slice_get bench.now.streams s ≡ Some stream
        → IsTracing image.now unit.old bytes.old.items [] → IsOk result
        → IsTracing image.now unit.new bytes.new.items (events_of stream.lines)
        × (stream_refusal image.now stream ≡ None) }
    ensures refused { (stream : BenchStream) → slice_get bench.now.streams s ≡ Some stream
        → IsTracing image.now unit.old bytes.old.items []
        → (line : ℕ) (fault : Refusal) → result ≡ Err (Untraced.Refused line fault)
        → stream_refusal image.now stream ≡ refused_at line fault }
    ensures settings { (unit.new.settings ≡ unit.old.settings) × (unit.new.stack_depth ≡ unit.old.stack_depth) }
{
    let mut k = 0;
    while let Some(line) = bench.line_at(s, k) {
        match trace_line(unit, image, &line, bytes) {
            Ok(()) => k += 1,
            Err(UnitFault::Run(fault)) => {
                return Err(Untraced::Refused {
                    line: line.line,
                    fault,
                });
            }
            Err(UnitFault::Memory) => return Err(Untraced::Memory),
        }
    }
    Ok(())
}

/// The trace of a stream.
fn traced_stream(alloc: Global, image: &Image, bench: &Bench, s: usize) -> Result<Vec<u8>, Untraced>
    requires parts { IsBench bench.now }
    requires place { s < length bench.now.streams }
    ensures bytes { (stream : BenchStream) → slice_get bench.now.streams s ≡ Some stream
        → IfOk result (λ bytes. (bytes.items ≡ settled image.now stream.settings stream.stack (events_of stream.lines))
        × (stream_refusal image.now stream ≡ None)) }
    ensures refused { (stream : BenchStream) → slice_get bench.now.streams s ≡ Some stream
        → (line : ℕ) (fault : Refusal) → result ≡ Err (Untraced.Refused line fault)
        → stream_refusal image.now stream ≡ refused_at line fault }
{
    let (Some(settings), Some(stack)) = (bench.settings_of(s), bench.stack_of(s)) else {
        unreachable!()
    };
    let Ok(mut unit) = Unit::new(alloc, &settings, stack) else {
        return Err(Untraced::Memory);
    };
    let mut bytes = Vec::new(alloc);
    match trace_lines(&mut unit, image, bench, s, &mut bytes) {
        Ok(()) => match unit.end(&mut bytes) {
            Ok(_) => Ok(bytes),
            Err(_) => Err(Untraced::Memory),
        },
        Err(untraced) => {
            unit.abandon();
            Err(untraced)
        }
    }
}

/// The traces of all streams, in the order of their declaration.
pub fn traced_streams(alloc: Global, image: &Image, bench: &Bench) -> Result<Vec<Trace>, Untraced>
    requires { IsBench bench.now }
    ensures traces { IfOk result (λ made. (all_left made.items ≡ traces image.now bench.now)
        × (refusal_among image.now bench.now.streams ≡ None)) }
    ensures refused { (line : ℕ) (fault : Refusal) → result ≡ Err (Untraced.Refused line fault)
        → refusal_among image.now bench.now.streams ≡ refused_at line fault }
{
    let mut made = Vec::new(alloc);
    for s in 0..bench.streams() {
        let Some(id) = bench.id_at(s) else {
            unreachable!()
        };
        let bytes = traced_stream(alloc, image, bench, s)?;
        let trace = Trace {
            id,
            bytes,
            woven: 0,
        };
        made.push(trace).map_err(|_| Untraced::Memory)?;
    }
    Ok(made)
}

/// The frames of traces in memory, woven as a run file says. The error means want of memory.
pub fn woven_frames(
    alloc: Global,
    bench: &Bench,
    traces: &mut [Trace],
) -> Result<MemSink, AllocError>
    ensures { IfOk result (λ frames. frames.taken ≡ framed (woven bench.now.weaves (all_left traces.old))) }
{
    let mut frames = MemSink::new(alloc, Vec::new(alloc));
    match write_woven(bench, traces, &mut frames) {
        Ok(()) => Ok(frames),
        Err(Failed) => Err(AllocError),
    }
}

/// Writes whole frames, each of them at once.
fn write_whole<K: Sink>(frames: &[u8], out: &mut K) -> Result<(), Failed>
    requires { length frames.now % frame_bytes ≡ 0 }
    ensures { Writes (K.state out.old) (K.state out.new) result frames.now }
{
    let mut at = 0;
    while at < frames.len() {
        let end = at + FRAME_BYTES;
        write_all(out, &frames[at..end])?;
        at = end;
    }
    Ok(())
}

/// Writes whole frames, each of them at once, and a synchronisation packet before the first of them and before each so-many-th
/// behind it, or none.
fn write_frames<K: Sink>(frames: &[u8], every: Option<u32>, out: &mut K) -> Result<(), Failed>
    requires whole { length frames.now % frame_bytes ≡ 0 }
    requires some { IfSome every (λ n. 0 < n) }
    ensures { Writes (K.state out.old) (K.state out.new) result (with_syncs every frames.now) }
{
    match every {
        Some(every) => write_synced(frames, every, out),
        None => write_whole(frames, out),
    }
}

/// The last ones of whole frames, or all of them.
fn kept_frames(frames: &[u8], last: Option<u32>) -> &[u8]
    requires { length frames.now % frame_bytes ≡ 0 }
    ensures value { result.now ≡ kept_frames last frames.now }
    ensures whole { length result.now % frame_bytes ≡ 0 }
{
    match last {
        Some(count) => last_frames(frames, count),
        None => frames,
    }
}

/// Weaves traces into frames in memory, and then writes these. Where memory is wanting, nothing is written.
fn write_kept<K: Sink>(
    alloc: Global,
    bench: &Bench,
    traces: &mut [Trace],
    last: Option<u32>,
    every: Option<u32>,
    out: &mut K,
) -> Result<Status, Failed>
    requires { IfSome every (λ n. 0 < n) }
    ensures written { WritesTraces bench.now.weaves (all_left traces.old) last every (K.state out.old) (K.state out.new) result }
    ensures memory { result ≡ Ok Status.NoMemory → out.new ≡ out.old }
{
    let Ok(frames) = woven_frames(alloc, bench, traces) else {
        return Ok(Status::NoMemory);
    };
    write_frames(kept_frames(frames.written(), last), every, out)?;
    Ok(Status::Done)
}

/// Writes the frames of traces, woven as a run file says: all of them together, or the last ones, or with synchronisation packets
/// among them.
fn write_traces<K: Sink>(
    alloc: Global,
    bench: &Bench,
    traces: &mut [Trace],
    last: Option<u32>,
    every: Option<u32>,
    out: &mut K,
) -> Result<Status, Failed>
    requires { IfSome every (λ n. 0 < n) }
    ensures written { WritesTraces bench.now.weaves (all_left traces.old) last every (K.state out.old) (K.state out.new) result }
    ensures memory { result ≡ Ok Status.NoMemory → out.new ≡ out.old }
{
    if last.is_some() || every.is_some() {
        return write_kept(alloc, bench, traces, last, every, out);
    }
    write_woven(bench, traces, out)?;
    Ok(Status::Done)
}

/// Reads a run file and traces all of it, then writes the frames of its traces: all of them, or the last ones of them; and among
/// these, where that is asked for, synchronisation packets. For both all frames stand in memory first, and nothing is written where
/// it is wanting.
pub fn trace_input<J: Source, K: Sink>(
    alloc: Global,
    image: &Image,
    last: Option<u32>,
    every: Option<u32>,
    input: &mut J,
    out: &mut K,
) -> Result<Status, Failed>
    requires { IfSome every (λ n. 0 < n) }
    ensures answer { TracesSo image.now last every (J.state input.old) (J.state input.new) (K.state out.old) (K.state out.new) result }
    ensures few { TakesAtMost (J.state input.old) (J.state input.new) (most_text + 1) }
    ensures kept { (result ≡ Ok Status.ReadFault) ⊎ KeepsFaults (J.state input.old) (J.state input.new) }
    ensures input_lasts { Lasts (J.state input.old) (J.state input.new) }
    ensures serves { Serves (K.state out.old) (K.state out.new) result }
{
    let mut text = Vec::new(alloc);
    let bench = match read_bench(alloc, input, &mut text) {
        Ok(bench) => bench,
        Err(Unread::Bad { line, why }) => return refuse(line, why, out),
        Err(Unread::ReadFault) => return Ok(Status::ReadFault),
        Err(Unread::Memory) => return Ok(Status::NoMemory),
    };
    match traced_streams(alloc, image, &bench) {
        Ok(mut traces) => {
            // No two parts of an image overlap, as the contract of this call tells.
            let _word = image.word_at(0);
            write_traces(alloc, &bench, &mut traces, last, every, out)
        }
        Err(Untraced::Refused { line, fault }) => refuse(line, BenchWhy::Run(fault), out),
        Err(Untraced::Memory) => Ok(Status::NoMemory),
    }
}
