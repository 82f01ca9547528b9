//! What follows a path by writing its lines.
ghost use Rattle.std.specs.Prelude.{◌≡◌, [], Bool, IsOk, Ok};
ghost use Rattle.etm_types.specs.Walked.{instructions};
ghost use Rattle.stream_decoder.specs.LineFollowing.{following};
ghost use Rattle.stream_decoder.specs.LinesPut.{IsIn, TakesLines, WritesUnless};

use crate::follower::Follower;
use etm_types::{Ctx, Id, MOST_ATOMS, Walked};
use path_text::LineBlock;
use path_walker::{Stretch, StretchTaker};
use program_image::Image;
use trace_io::{Failed, Sink};

/// Puts the lines of the items that it is given into a block, which goes to a sink as it fills, as long as no write fails.
///
/// Behind a failed write it takes what comes and writes nothing: what decodes never hears of failures.
pub struct LineFollower<'a, K: Sink> {
    pub lines: &'a mut LineBlock,
    pub sink: &'a mut K,
    /// Whether a write failed.
    pub result: Result<(), Failed>,
}

impl<'a, K: Sink> LineFollower<'a, K> {
    /// Puts the lines of a stretch that are not near the last one, or for which there is no room. Most stretches are taken without it.
    #[inline(never)]
    fn put_far(&mut self, ctx: &Ctx, start: u64, count: u64)
        ensures same { (self.new.lines.ghost_name ≡ self.old.lines.ghost_name) × (self.new.sink.ghost_name ≡ self.old.sink.ghost_name) }
        ensures takes { (took : Bool) → TakesLines (following (K.state self.old.sink.now) self.old.lines.now self.old.result)
            (instructions ctx.now start count took) (following (K.state self.new.sink.now) self.new.lines.now self.new.result) }
        ensures begun { IsIn ctx.now (following (K.state self.new.sink.now) self.new.lines.now self.new.result) }
    {
        if self.result.is_ok() {
            self.result = self.lines.put_far(ctx, start, count, self.sink);
        }
    }

    /// Writes what was put, unless a write failed before.
    pub fn write_put(&mut self)
        ensures same { (self.new.lines.ghost_name ≡ self.old.lines.ghost_name) × (self.new.sink.ghost_name ≡ self.old.sink.ghost_name) }
        ensures writes { WritesUnless self.old.result (following (K.state self.old.sink.now) self.old.lines.now self.old.result)
            (following (K.state self.new.sink.now) self.new.lines.now self.new.result) }
        ensures nothing { IsOk self.old.result → self.old.lines.now.put ≡ [] → (self.new.sink.now ≡ self.old.sink.now) × (self.new.result ≡ Ok tt) }
    {
        if self.result.is_ok() {
            self.result = self.lines.flush(self.sink);
        }
    }
}

/// What it took are the items whose lines are put.
impl<'a, K: Sink> Follower for LineFollower<'a, K> {
    ghost use Rattle.std.proofs.Common.{◌≡◌, refl, ◌∙◌};
    ghost use Rattle.stream_decoder.specs.LinesPut.{TakesLines};
    ghost use Rattle.stream_decoder.specs.LineFollowing.{following, takes_lines-none, takes_lines-joined};

    ghost takes = { λ image id old items new. (new.lines.ghost_name ≡ old.lines.ghost_name) × (new.sink.ghost_name ≡ old.sink.ghost_name)
        × TakesLines (following (K.state old.sink.now) old.lines.now old.result) items (following (K.state new.sink.now) new.lines.now new.result) };

    #[inline(never)]
    fn take_walked(&mut self, _image: &Image, _id: Id, walked: &Walked) {
        if self.result.is_ok() {
            self.result = self.lines.put_walked(walked, self.sink);
        }
    }

    #[inline(never)]
    fn take_gap(&mut self, _id: Id) {
        if self.result.is_ok() {
            self.result = self.lines.put_gap(self.sink);
        }
    }

    #[inline(never)]
    fn take_stop(&mut self, _id: Id) {
        if self.result.is_ok() {
            self.result = self.lines.put_stop(self.sink);
        }
    }

    ghost takes_none = { λ image id f. (refl, refl, takes_lines-none (K.state f.sink.now) f.lines.now f.result) };

    ghost takes_joined = { λ image id a b c xs ys first more. (
      more.0 ∙ first.0,
      more.1 ∙ first.1,
      takes_lines-joined (K.state a.sink.now)
          (K.state b.sink.now) (K.state c.sink.now) a.lines.now b.lines.now c.lines.now xs ys a.result b.result c.result first.2 more.2,
    ) };

    ghost shows = { λ image id ctx old new run adds. adds };
}

/// The lines of a stretch are near the last one most often: then they are put without a look at anything else.
impl<'a, K: Sink> StretchTaker for LineFollower<'a, K> {
    ghost use Rattle.std.proofs.Common.{◌≡◌, refl, subst, ◌∙◌};
    ghost use Rattle.etm_types.specs.Atoms.{most_atoms};
    ghost use Rattle.path_walker.specs.Walk.{items_in};
    ghost use Rattle.stream_decoder.specs.LinesPut.{IsIn, TakesLines};
    ghost use Rattle.stream_decoder.specs.LineFollowing.{following, items_joined, takes_lines-none, takes_lines-joined};

    ghost adds = { λ image id ctx old run new. (new.lines.ghost_name ≡ old.lines.ghost_name) × (new.sink.ghost_name ≡ old.sink.ghost_name)
        × TakesLines (following (K.state old.sink.now) old.lines.now old.result) (items_in ctx run)
        (following (K.state new.sink.now) new.lines.now new.result) };

    ghost space = { λ follower. most_atoms };

    ghost begun = { λ ctx follower. IsIn ctx (following (K.state follower.sink.now) follower.lines.now follower.result) };

    #[inline(always)]
    fn room(&self) -> usize {
        MOST_ATOMS
    }

    #[inline(always)]
    fn begin(&mut self, ctx: &Ctx) {
        self.lines.begin(ctx);
    }

    #[inline(always)]
    fn take_stretch(&mut self, _image: &Image, _id: Id, ctx: &Ctx, stretch: Stretch) {
        if !self.lines.put_near(stretch.start, stretch.count) {
            self.put_far(ctx, stretch.start, stretch.count);
        }
    }

    ghost none = { λ image id ctx f. (refl, refl, takes_lines-none (K.state f.sink.now) f.lines.now f.result) };

    ghost joins = { λ image id ctx a b c xs ys first more. (
      more.0 ∙ first.0,
      more.1 ∙ first.1,
      subst (λ items. TakesLines (following (K.state a.sink.now) a.lines.now a.result) items (following (K.state c.sink.now) c.lines.now c.result))
          (items_joined ctx xs ys)
          (takes_lines-joined (K.state a.sink.now) (K.state b.sink.now) (K.state c.sink.now) a.lines.now b.lines.now c.lines.now (items_in ctx xs)
          (items_in ctx ys) a.result b.result c.result first.2 more.2),
    ) };
}
