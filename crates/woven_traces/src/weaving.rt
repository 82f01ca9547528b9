//! The traces of streams woven into frames, in the order that a run file says.
ghost use Rattle.std.specs.Prelude.{◌≡◌, ◌++◌, ℕ, List, drop, false, is_err, position, take, OnOk};
ghost use Rattle.formatter_frames.specs.Framed.{framed};
ghost use Rattle.path_text.specs.Writing.{Writes};
ghost use Rattle.woven_traces.specs.Weaving.{IsWeaving, Weaves, all_left, is_of, left_of};
ghost use Rattle.woven_traces.specs.Woven.{in_a_row, left_behind, next_of, under, woven};
ghost use Rattle.trace_io.specs.State.{IoState};

use etm_types::Id;
use formatter_frames::FrameWriter;
use run_file::{Bench, Weave};
use trace_io::{Failed, Sink};

/// The trace of a stream, and how many of its bytes are woven.
#[derive(Drop)]
pub struct Trace {
    pub id: Id,
    pub bytes: Vec<u8>,
    pub woven: usize,
}

impl Trace {
    /// Pushes its next bytes, so many or what is left, one by one.
    fn push_next<K: Sink>(
        &mut self,
        count: usize,
        frames: &mut FrameWriter,
        out: &mut K,
    ) -> Result<(), Failed>
        requires { frames.old.failed ≡ false }
        ensures weaves { (start : IoState) (pairs : List (ℕ × ℕ)) → IsWeaving frames.old pairs start (K.state out.old)
            → Weaves frames.new (pairs ++ under self.old.id (take count (left_of self.old).1)) start (K.state out.new) result }
        ensures failed { frames.new.failed ≡ is_err result }
        ensures left { OnOk result (left_of self.new ≡ (self.old.id, drop count (left_of self.old).1)) }
    {
        for _ in 0..count {
            let Some(byte) = self.bytes.get(self.woven) else {
                return Ok(());
            };
            frames.push(self.id, *byte, out)?;
            self.woven += 1;
        }
        Ok(())
    }
}

/// The place of the trace with this ID. A run file has no more than 111 streams, and each weave asks once.
fn place_of(traces: &[Trace], id: Id) -> Option<usize>
    ensures { result ≡ position (is_of id) traces.now }
{
    traces.iter().position(|trace| trace.id == id)
}

/// Pushes the bytes that a weave takes.
fn push_weave<K: Sink>(
    traces: &mut [Trace],
    weave: Weave,
    frames: &mut FrameWriter,
    out: &mut K,
) -> Result<(), Failed>
    requires { frames.old.failed ≡ false }
    ensures weaves { (start : IoState) (pairs : List (ℕ × ℕ)) → IsWeaving frames.old pairs start (K.state out.old)
        → Weaves frames.new (pairs ++ under weave.id (next_of weave.id weave.count (all_left traces.old))) start
        (K.state out.new) result }
    ensures failed { frames.new.failed ≡ is_err result }
    ensures left { OnOk result (all_left traces.new ≡ left_behind weave.id weave.count (all_left traces.old)) }
{
    match place_of(traces, weave.id) {
        Some(k) => traces[k].push_next(weave.count as usize, frames, out),
        None => Ok(()),
    }
}

/// Pushes what no weave took, trace by trace.
fn push_rest<K: Sink>(
    traces: &mut [Trace],
    frames: &mut FrameWriter,
    out: &mut K,
) -> Result<(), Failed>
    requires { frames.old.failed ≡ false }
    ensures weaves { (start : IoState) (pairs : List (ℕ × ℕ)) → IsWeaving frames.old pairs start (K.state out.old)
        → Weaves frames.new (pairs ++ in_a_row (all_left traces.old)) start (K.state out.new) result }
    ensures failed { frames.new.failed ≡ is_err result }
{
    for trace in traces.iter_mut() {
        let left = trace.bytes.len();
        trace.push_next(left, frames, out)?;
    }
    Ok(())
}

/// Pushes what the weaves of a run file take, and then what is left.
fn push_woven<K: Sink>(
    bench: &Bench,
    traces: &mut [Trace],
    frames: &mut FrameWriter,
    out: &mut K,
) -> Result<(), Failed>
    requires { frames.old.failed ≡ false }
    ensures weaves { (start : IoState) (pairs : List (ℕ × ℕ)) → IsWeaving frames.old pairs start (K.state out.old)
        → Weaves frames.new (pairs ++ woven bench.now.weaves (all_left traces.old)) start (K.state out.new) result }
    ensures failed { frames.new.failed ≡ is_err result }
{
    let mut k = 0;
    while let Some(weave) = bench.weave_at(k) {
        push_weave(traces, weave, frames, out)?;
        k += 1;
    }
    push_rest(traces, frames, out)
}

/// Writes the frames of traces, woven as a run file says, or a front of them where a write fails. It takes no memory.
pub fn write_woven<K: Sink>(bench: &Bench, traces: &mut [Trace], out: &mut K) -> Result<(), Failed>
    ensures { Writes (K.state out.old) (K.state out.new) result (framed (woven bench.now.weaves (all_left traces.old))) }
{
    let mut frames = FrameWriter::new();
    push_woven(bench, traces, &mut frames, out)?;
    frames.finish(out)
}
