//! The counts of the paths of all streams, and where their branches went.
ghost use Rattle.std.specs.Prelude.{[], IfOk, List, ℕ};
ghost use Rattle.etm_types.specs.declared.item.Item.{Item};
ghost use Rattle.count_streams.specs.Counted.{CountsAre, items_alone};
ghost use Rattle.count_streams.specs.Pairs.{pairs_of};
ghost use Rattle.path_counts.specs.CountLines.{items_text};
ghost use Rattle.path_text.specs.Writing.{Writes};
ghost use Rattle.program_image.specs.declared.image.Image.{Image};
ghost use Rattle.trace_io.specs.Calls.{Serves};

use crate::branches::Branches;
use etm_types::{Ctx, Id, MOST_ATOMS, Walked};
use path_counts::Counter;
use path_walker::{Stretch, StretchTaker};
use program_image::Image;
use std::alloc::{AllocError, Global};
use std::marker::Model;
use stream_decoder::Follower;
use trace_io::{Failed, Sink};

/// How often the paths have what is counted, and where their branches to a register went. It follows each of them.
#[derive(Drop)]
pub struct PathCounts {
    counter: Counter,
    branches: Branches,
}

impl Model for PathCounts {
    ghost use Rattle.count_streams.specs.Counted.{PathCounting};

    ghost Value = { PathCounting };

    ghost view = { λ c. record { counts = c.counter; branches = c.branches } };
}

impl PathCounts {
    /// No item is counted. This is the one call that takes memory, and the error means want of it.
    pub fn new(alloc: Global, image: &Image) -> Result<PathCounts, AllocError>
        ensures { IfOk result (λ counts. CountsAre image.now counts []) }
    {
        Ok(PathCounts {
            counter: Counter::new(alloc, image)?,
            branches: Branches::new(alloc)?,
        })
    }

    /// Writes the lines of the counts.
    pub fn write<K: Sink>(self, image: &Image, sink: &mut K) -> Result<(), Failed>
        ensures text { (items : List (ℕ × Item)) → CountsAre image.now self items
            → Writes (K.state sink.old) (K.state sink.new) result (items_text image.now (items_alone items) (pairs_of image.now items)) }
        ensures serves { Serves (K.state sink.old) (K.state sink.new) result }
    {
        let PathCounts { counter, branches } = self;
        if counter.fits(image) {
            counter.write(image, branches.targets(), sink)
        } else {
            // It is made for this image: no items have these counts over another one.
            Ok(())
        }
    }
}

/// What it took are the items that are counted.
impl Follower for PathCounts {
    ghost use Rattle.stream_decoder.specs.Follows.{TakesMore, items_under};
    ghost use Rattle.count_streams.specs.Taking.{takes_nothing, takes_together};

    ghost takes = { λ image id old items new. TakesMore (CountsAre image) old new (items_under id items) };

    /// Counts are of the words of one image. Where they are of another, nothing is counted, and nothing is said of them.
    #[inline(always)]
    fn take_walked(&mut self, image: &Image, id: Id, walked: &Walked) {
        if self.counter.fits(image) {
            self.counter.add_walked(image, walked);
            self.branches.take_walked(image, id, walked);
        }
    }

    fn take_gap(&mut self, id: Id) {
        self.counter.add_gap();
        self.branches.take_mark(id);
    }

    fn take_stop(&mut self, id: Id) {
        self.counter.add_stop();
        self.branches.take_mark(id);
    }

    ghost takes_none = { λ image id counts. takes_nothing (CountsAre image) counts };

    ghost takes_joined = { λ image id a b c xs ys first rest. takes_together (CountsAre image) id a b c xs ys first rest };

    ghost shows = { λ image id ctx old new run adds. adds };
}

/// The stretches that it took are their items.
impl StretchTaker for PathCounts {
    ghost use Rattle.etm_types.specs.Atoms.{most_atoms};
    ghost use Rattle.path_walker.specs.Walk.{items_in};
    ghost use Rattle.stream_decoder.specs.Follows.{TakesMore, items_under};
    ghost use Rattle.count_streams.specs.Taking.{takes_nothing, takes_stretches};

    ghost adds = { λ image id ctx old run new. TakesMore (CountsAre image) old new (items_under id (items_in ctx run)) };

    ghost space = { λ counts. most_atoms };

    ghost begun = { λ ctx counts. Unit {0} };

    #[inline(always)]
    fn room(&self) -> usize {
        MOST_ATOMS
    }

    #[inline(always)]
    fn begin(&mut self, _ctx: &Ctx) {}

    /// As of what a walk shows, nothing is counted where the counts are of another image.
    #[inline(always)]
    fn take_stretch(&mut self, image: &Image, id: Id, _ctx: &Ctx, stretch: Stretch) {
        if self.counter.fits(image) {
            self.counter
                .add_words(stretch.place, stretch.count, stretch.took);
            self.branches.take_stretch(image, id, &stretch);
        }
    }

    ghost none = { λ image id ctx counts. takes_nothing (CountsAre image) counts };

    ghost joins = { λ image id ctx a b c xs ys first rest. takes_stretches (CountsAre image) id ctx a b c xs ys first rest };
}
