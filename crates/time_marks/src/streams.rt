//! The times of a stream among others.

use crate::decoder::TimedDecoder;
use capture_streams::{Demux, Stream};
use element_queue::{Counts, Ledger};
use etm_types::{Id, Settings};
use std::alloc::{AllocError, Global};
use trace_io::{Failed, Sink};

/// The streams of frames, each with its times.
pub type TimesDemux = Demux<TimedDecoder>;

/// Streams share nothing.
impl Stream for TimedDecoder {
    ghost use Rattle.element_queue.specs.Counting.{counts_after};
    ghost use Rattle.element_queue.specs.Pending.{losing};
    ghost use Rattle.std.specs.Prelude.{length};
    ghost use Rattle.time_marks.specs.Timed.{StandsAt};
    ghost use Rattle.time_marks.specs.TimeList.{TimesTallies, times};

    type Shared = ();

    type Sum = ();

    ghost sizes = { λ d. d.reader.settings };

    ghost broken = { λ d. d.broken };

    ghost offset = { λ d. d.reader.offset };

    ghost held = { λ d. length d.timing.line.queue.pending.held };

    ghost counts = { λ d. d.timing.line.queue.counts };

    ghost counts_left = { λ d. counts_after d.timing.line.queue.counts 0 (losing d.timing.line.queue.pending.held) };

    ghost stands = { λ shared. StandsAt };

    ghost tallies = { λ shared. TimesTallies };

    ghost listing = { λ shared. times };

    ghost sums = { λ shared sum items. Unit {0} };

    fn new_sum(_alloc: Global, _shared: &()) -> Result<(), AllocError> {
        Ok(())
    }

    fn new(alloc: Global, settings: &Settings) -> Result<TimedDecoder, AllocError> {
        TimedDecoder::new(alloc, settings)
    }

    fn take_run<K: Sink>(
        &mut self,
        _shared: &(),
        _sum: &mut (),
        id: Id,
        run: &[u8],
        sink: &mut K,
    ) -> Result<(), Failed> {
        for byte in run {
            self.take(id, *byte, sink)?;
        }
        Ok(())
    }

    fn ledger(&self) -> Counts {
        TimedDecoder::ledger(self)
    }

    fn finish<K: Sink>(self, id: Id, sink: &mut K) -> Result<bool, Failed> {
        TimedDecoder::finish(self, id, sink)
    }

    fn write_sum<K: Sink>(_sum: (), _shared: &(), _sink: &mut K) -> Result<(), Failed> {
        Ok(())
    }

    fn abandon(self) -> Ledger {
        TimedDecoder::abandon(self)
    }
}
