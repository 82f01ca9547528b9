//! What follows paths as they grow, whatever it makes of them.
ghost use Rattle.std.specs.Prelude.{◌≡◌, ◌≤◌, ◌∷◌, ◌++◌, [], List, ℕ, None};
ghost use Rattle.etm_types.specs.Walked.{items_of};
ghost use Rattle.etm_types.specs.declared.item.Item.{Item};
ghost use Rattle.etm_types.specs.declared.item.Item.TheVariants as item;
ghost use Rattle.etm_types.specs.declared.context.Ctx.{Ctx};
ghost use Rattle.path_walker.specs.Walk.{ShowsWords, items_in};
ghost use Rattle.path_walker.specs.declared.stretch.Stretch.{Stretch};
ghost use Rattle.program_image.specs.declared.image.Image.{Image};
ghost use Rattle.stream_decoder.specs.Decoding.{AtRest, IsDecoding};
ghost use Rattle.stream_decoder.specs.Follows.{FindsWords, Follows};
ghost use Rattle.stream_decoder.specs.Yields.{Ends, items_of_found, left};

use crate::found::Found;
use crate::machine::Decoding;
use etm_types::{Id, Walked};
use path_walker::StretchTaker;
use program_image::Image;

/// What takes the items of the paths of streams over an image, one after the other. It can't fail.
///
/// The stretches of atoms are given to it one by one, as they are walked.
pub trait Follower: StretchTaker {
    /// From one value of it to another, it took these items of the stream of an ID, in the order in which they came, over this image.
    ghost takes: { Image → ℕ → Self → List Item → Self → Type 0 };

    /// Takes what the walk of one P0 element of a stream shows.
    fn take_walked(&mut self, image: &Image, id: Id, walked: &Walked)
        requires words { ShowsWords image.now walked.now }
        ensures takes { takes image.now id self.old (items_of walked.now) self.new };

    /// Takes trace of a stream that was lost by an overflow.
    fn take_gap(&mut self, id: Id)
        ensures takes { (image : Image) → takes image id self.old (item.Gap ∷ []) self.new };

    /// Takes a stop of tracing of a stream.
    fn take_stop(&mut self, id: Id)
        ensures takes { (image : Image) → takes image id self.old (item.Stop ∷ []) self.new };

    /// It took none where it stayed as it was.
    ghost takes_none: { (image : Image) (id : ℕ) (f : Self) → takes image id f [] f };

    /// It took some, and others behind them.
    ghost takes_joined: { (image : Image) (id : ℕ) (a b c : Self) (xs ys : List Item) → takes image id a xs b → takes image id b ys c
        → takes image id a (xs ++ ys) c };

    /// Where it took stretches, it took the items that they show.
    ghost shows: { (image : Image) (id : ℕ) (ctx : Ctx) (old new : Self) (run : List Stretch) → Self.adds image id ctx old run new
        → takes image id old (items_in ctx run) new };
}

/// Gives a follower what all that is left to do of a stream shows: as much as goes the fast way; where that ends, one thing that is found the
/// long way; and so on. Many bytes leave nothing to do, and most others nothing behind the fast way, which is asked before
/// [`next`](Decoding::next) is called.
#[inline(always)]
pub fn follow_rest<F: Follower>(decoding: &mut Decoding, image: &Image, id: Id, follower: &mut F)
    requires holds { IsDecoding decoding.old }
    ensures follows { decoding.old.fault ≡ None → (items : List Item) × Ends image.now decoding.old items decoding.new
        × F.takes image.now id follower.old items follower.new }
    ensures stopped { AtRest decoding.old → (decoding.new ≡ decoding.old) × (follower.new ≡ follower.old) }
    ensures rest { AtRest decoding.new }
    ensures reader { decoding.new.reader ≡ decoding.old.reader }
    ensures holds { IsDecoding decoding.new }
{
    while !decoding.is_at_rest() {
        follow_atoms(decoding, image, id, follower);
        if decoding.is_at_rest() {
            return;
        }
        let Some(found) = decoding.next(image) else {
            return;
        };
        follow_found(image, id, &found, follower);
    }
}

/// Gives a follower what goes the fast way: what is due, and what the next elements show, as long as these are atoms before which
/// nothing but an address was given.
#[inline(always)]
fn follow_atoms<F: Follower>(decoding: &mut Decoding, image: &Image, id: Id, follower: &mut F)
    requires holds { IsDecoding decoding.old }
    ensures follows { Follows (F.takes image.now id) image.now decoding.old decoding.new follower.old follower.new }
    ensures fewer { left decoding.new ≤ left decoding.old }
    ensures holds { IsDecoding decoding.new }
{
    decoding.next_run(image, id, follower);
}

/// Gives a follower what was found.
fn follow_found<F: Follower>(image: &Image, id: Id, found: &Found, follower: &mut F)
    requires words { FindsWords image.now found.now }
    ensures takes { F.takes image.now id follower.old (items_of_found found.now) follower.new }
{
    match found {
        Found::Walked(walked) => follower.take_walked(image, id, walked),
        Found::Gap => follower.take_gap(id),
        Found::Stop => follower.take_stop(id),
    }
}
