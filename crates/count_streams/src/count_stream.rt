//! A stream whose path is counted, among others.

use crate::counts::PathCounts;
use capture_streams::Stream;
use element_queue::{Counts, Ledger};
use etm_types::{Id, Settings};
use program_image::Image;
use std::alloc::{AllocError, Global};
use std::marker::Model;
use stream_decoder::FollowedStream;
use trace_io::{Failed, Sink};

/// A stream that adds the items of its path to the counts of all streams. It has no drop: it ends by `finish` or `abandon`.
#[must_use]
pub struct CountStream {
    stream: FollowedStream,
}

impl Model for CountStream {
    ghost use Rattle.stream_decoder.specs.Decoding.{Decoding};

    ghost Value = { Decoding };

    ghost view = { λ s. s.stream };
}

/// What all streams share is the image of the program, and their sum are the counts of all paths.
impl Stream for CountStream {
    ghost use Rattle.capture_streams.specs.Paths.{PathTallies};
    ghost use Rattle.count_streams.specs.Counted.{CountsAre, counted};
    ghost use Rattle.element_queue.specs.Counting.{counts_after};
    ghost use Rattle.element_queue.specs.Pending.{losing};
    ghost use Rattle.std.specs.Prelude.{◌++◌, false, length};
    ghost use Rattle.stream_decoder.specs.Follows.{CameTo};

    type Shared = Image;

    type Sum = PathCounts;

    ghost sizes = { λ d. d.reader.settings };

    ghost broken = { λ d. false };

    ghost offset = { λ d. d.reader.offset };

    ghost held = { λ d. length (d.due ++ d.pending.held) };

    ghost counts = { λ d. d.counts };

    ghost counts_left = { λ d. counts_after d.counts 0 (losing (d.due ++ d.pending.held)) };

    ghost stands = { CameTo };

    ghost tallies = { PathTallies };

    ghost listing = { counted };

    ghost sums = { CountsAre };

    fn new_sum(alloc: Global, image: &Image) -> Result<PathCounts, AllocError> {
        PathCounts::new(alloc, image)
    }

    fn new(alloc: Global, settings: &Settings) -> Result<CountStream, AllocError> {
        Ok(CountStream {
            stream: FollowedStream::new(alloc, settings)?,
        })
    }

    fn take_run<K: Sink>(
        &mut self,
        image: &Image,
        counts: &mut PathCounts,
        id: Id,
        run: &[u8],
        _sink: &mut K,
    ) -> Result<(), Failed> {
        self.stream.take_run(image, id, run, counts);
        Ok(())
    }

    fn ledger(&self) -> Counts {
        self.stream.ledger()
    }

    fn finish<K: Sink>(self, id: Id, sink: &mut K) -> Result<bool, Failed> {
        let CountStream { stream } = self;
        stream.finish(id, sink)
    }

    fn abandon(self) -> Ledger {
        let CountStream { stream } = self;
        stream.abandon()
    }

    fn write_sum<K: Sink>(counts: PathCounts, image: &Image, sink: &mut K) -> Result<(), Failed> {
        counts.write(image, sink)
    }
}
