//! What takes the stretches of atoms as they are walked.
ghost use Rattle.std.specs.Prelude.{◌≡◌, ◌+◌, ◌<◌, ◌≤◌, ◌∷◌, ◌++◌, [], List, ℕ};
ghost use Rattle.etm_types.specs.Atoms.{most_atoms};
ghost use Rattle.etm_types.specs.declared.context.Ctx.{Ctx};
ghost use Rattle.path_walker.specs.Walk.{IsStretchOfWords};
ghost use Rattle.path_walker.specs.declared.stretch.Stretch.{Stretch};
ghost use Rattle.program_image.specs.declared.image.Image.{Image};

use crate::stretch::Stretch;
use etm_types::{Ctx, Id};
use program_image::Image;

/// What takes the stretches of the atoms of streams over an image, one after the other, whatever it makes of them. It can't fail.
pub trait StretchTaker {
    /// From one value of it to another, it took these stretches of the stream of an ID, over this image and in this context.
    ghost adds: { Image → ℕ → Ctx → Self → List Stretch → Self → Type 0 };

    /// How many more it can take before it is asked again.
    ghost space: { Self → ℕ };

    /// It was told that the stretches that come next are in this context.
    ghost begun: { Ctx → Self → Type 0 };

    /// How many more it can take before it is asked again: at most as many as a packet has atoms.
    fn room(&self) -> usize
        ensures space { result ≡ space self.now }
        ensures few { result ≤ most_atoms };

    /// The stretches that come next are in this context: it is told so once before them, so that it need not look at the context of each.
    fn begin(&mut self, ctx: &Ctx)
        ensures begun { begun ctx.now self.new }
        ensures adds { (image : Image) (id : ℕ) → adds image id ctx.now self.old [] self.new }
        ensures space { space self.new ≡ space self.old };

    /// Takes a stretch.
    fn take_stretch(&mut self, image: &Image, id: Id, ctx: &Ctx, stretch: Stretch)
        requires space { 0 < space self.old }
        requires begun { begun ctx.now self.old }
        requires words { IsStretchOfWords image.now stretch }
        ensures adds { adds image.now id ctx.now self.old (stretch ∷ []) self.new }
        ensures begun { begun ctx.now self.new }
        ensures space { space self.old ≤ space self.new + 1 };

    /// It took none where it stayed as it was.
    ghost none: { (image : Image) (id : ℕ) (ctx : Ctx) (t : Self) → adds image id ctx t [] t };

    /// It took some, and others behind them.
    ghost joins: { (image : Image) (id : ℕ) (ctx : Ctx) (a b c : Self) (xs ys : List Stretch) → adds image id ctx a xs b → adds image id ctx b ys c
        → adds image id ctx a (xs ++ ys) c };
}
