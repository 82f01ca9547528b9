//! The path of a stream among others.

use crate::stream::Stream;
use element_queue::{Counts, Ledger};
use etm_types::{Id, Settings};
use path_text::LineBlock;
use program_image::Image;
use std::alloc::{AllocError, Global};
use stream_decoder::StreamDecoder;
use trace_io::{Failed, Sink};

/// What all streams share is the image of the program, and what they add to is the block in which their lines are put together: nothing is
/// kept in it from run to run.
impl Stream for StreamDecoder {
    ghost use Rattle.capture_streams.specs.Paths.{PathTallies, paths};
    ghost use Rattle.element_queue.specs.Counting.{counts_after};
    ghost use Rattle.element_queue.specs.Pending.{losing};
    ghost use Rattle.std.specs.Prelude.{◌++◌, length};
    ghost use Rattle.stream_decoder.specs.Stands.{StandsAt};

    type Shared = Image;

    type Sum = LineBlock;

    ghost sizes = { λ d. d.decoding.reader.settings };

    ghost broken = { λ d. d.broken };

    ghost offset = { λ d. d.decoding.reader.offset };

    ghost held = { λ d. length (d.decoding.due ++ d.decoding.pending.held) };

    ghost counts = { λ d. d.decoding.counts };

    ghost counts_left = { λ d. counts_after d.decoding.counts 0 (losing (d.decoding.due ++ d.decoding.pending.held)) };

    ghost stands = { StandsAt };

    ghost tallies = { PathTallies };

    ghost listing = { paths };

    ghost sums = { λ shared sum items. Unit {0} };

    fn new_sum(_alloc: Global, _image: &Image) -> Result<LineBlock, AllocError> {
        Ok(LineBlock::new())
    }

    fn new(alloc: Global, settings: &Settings) -> Result<StreamDecoder, AllocError> {
        StreamDecoder::new(alloc, settings)
    }

    fn take_run<K: Sink>(
        &mut self,
        image: &Image,
        lines: &mut LineBlock,
        id: Id,
        run: &[u8],
        sink: &mut K,
    ) -> Result<(), Failed> {
        StreamDecoder::take_run(self, image, lines, id, run, sink)
    }

    fn ledger(&self) -> Counts {
        StreamDecoder::ledger(self)
    }

    fn finish<K: Sink>(self, id: Id, sink: &mut K) -> Result<bool, Failed> {
        StreamDecoder::finish(self, id, sink)
    }

    fn write_sum<K: Sink>(_lines: LineBlock, _image: &Image, _sink: &mut K) -> Result<(), Failed> {
        Ok(())
    }

    fn abandon(self) -> Ledger {
        StreamDecoder::abandon(self)
    }
}
