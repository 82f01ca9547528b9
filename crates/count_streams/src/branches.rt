//! Where the branches to a register of the paths of all streams went.
ghost use Rattle.std.specs.Prelude.{◌≡◌, ◌<◌, ◌-◌, ◌∷◌, [], ◌++◌, IfOk, List, Option, ℕ, None, Some, length, true};
ghost use Rattle.etm_types.specs.Walked.{instructions, items_of};
ghost use Rattle.etm_types.specs.declared.context.Ctx.{Ctx};
ghost use Rattle.etm_types.specs.declared.item.Item.{Item};
ghost use Rattle.path_counts.specs.Targets.{targets_of};
ghost use Rattle.path_walker.specs.Walk.{IsStretchOfWords, ShowsWords, is_cond, walked_in};
ghost use Rattle.program_image.specs.Blocks.{behind, class_at};
ghost use Rattle.program_image.specs.Part.{IsImage};
ghost use Rattle.stream_decoder.specs.Follows.{TakesMore, items_under};
ghost use Rattle.count_streams.specs.Pairs.{BranchesAre, entered_by, first_entered, left_after, left_by, own_pairs, pair_by};

use etm_types::{Id, Walked};
use path_counts::{Targets, is_pointer_branch};
use path_walker::Stretch;
use program_image::Image;
use std::alloc::{AllocError, Global};
use std::marker::Model;

/// More than any ID.
const IDS: usize = 112;

/// How many bytes an instruction has.
const INSTRUCTION_BYTES: u64 = 4;

/// How often each branch went where, and by the ID of each stream the address of the branch that its last item is.
#[derive(Drop)]
pub struct Branches {
    targets: Targets,
    left: [Option<u64>; IDS],
}

impl Model for Branches {
    ghost use Rattle.std.specs.Prelude.{◌≡◌, length};
    ghost use Rattle.count_streams.specs.Pairs.{Branching};

    ghost Value = { Branching };

    ghost view = { λ b. record { targets = b.targets; left = b.left } };

    ghost invariant = { λ b. length b.left ≡ 112 };
}

impl Branches {
    /// No item came. This is the one call that takes memory, and the error means want of it.
    pub fn new(alloc: Global) -> Result<Branches, AllocError>
        ensures { IfOk result (λ b. (image : Image) → BranchesAre image b []) }
    {
        Ok(Branches {
            targets: Targets::new(alloc)?,
            left: [None; IDS],
        })
    }

    /// Takes what the walk of one P0 element of a stream shows. Where the stream was left at a branch, the branch went to the first
    /// address of it. One word is looked up, where the last one may be a branch to a register.
    #[inline(always)]
    pub fn take_walked(&mut self, image: &Image, id: Id, walked: &Walked)
        requires words { ShowsWords image.now walked.now }
        requires image { IsImage image.now }
        ensures { TakesMore (BranchesAre image.now) self.old self.new (items_under id (items_of walked.now)) }
    {
        let place = usize::from(id.get());
        let left = self.left[place];
        add_pair(&mut self.targets, left, walked);
        self.left[place] = branch_behind(image, walked, left);
    }

    /// Takes the stretch of an atom of a stream. A word is looked up only where it is that of a branch to a register: a return is one too.
    #[inline(always)]
    pub fn take_stretch(&mut self, image: &Image, id: Id, stretch: &Stretch)
        requires words { IsStretchOfWords image.now stretch.now }
        requires image { IsImage image.now }
        ensures { (ctx : Ctx) → TakesMore (BranchesAre image.now) self.old self.new (items_under id (items_of (walked_in ctx stretch.now))) }
    {
        let place = usize::from(id.get());
        add_target(&mut self.targets, self.left[place], stretch.start);
        self.left[place] = last_of(image, stretch);
    }

    /// Takes an item of a stream that is at no address.
    pub fn take_mark(&mut self, id: Id)
        ensures { (image : Image) (i : Item) → entered_by i ≡ None → left_by image i ≡ None
            → TakesMore (BranchesAre image) self.old self.new (items_under id (i ∷ [])) }
    {
        self.left[usize::from(id.get())] = None;
    }

    /// How often each branch went where.
    pub fn targets(&self) -> &Targets
        ensures { result.now ≡ self.now.targets }
    {
        &self.targets
    }
}

/// Counts that a branch, where one was left, went to the first address of a walk.
#[inline(always)]
fn add_pair(targets: &mut Targets, left: Option<u64>, walked: &Walked)
    ensures { (pairs : List (ℕ × ℕ)) → targets.old ≡ targets_of pairs
        → targets.new ≡ targets_of (pairs ++ pair_by left (first_entered (items_of walked.now))) }
{
    let Some(from) = left else {
        return;
    };
    let Some(to) = first_address(walked) else {
        return;
    };
    targets.add(from, to);
}

/// Counts that a branch, where one was left, went to an address.
#[inline(always)]
fn add_target(targets: &mut Targets, left: Option<u64>, to: u64)
    ensures { (pairs : List (ℕ × ℕ)) → targets.old ≡ targets_of pairs → targets.new ≡ targets_of (pairs ++ pair_by left (Some to)) }
{
    if let Some(from) = left {
        targets.add(from, to);
    }
}

/// The address of the last instruction of a stretch, where it is a branch to a register and no return.
#[inline(always)]
fn last_of(image: &Image, stretch: &Stretch) -> Option<u64>
    requires words { IsStretchOfWords image.now stretch.now }
    requires image { IsImage image.now }
    ensures { (ctx : Ctx) (left : Option ℕ)
        → result ≡ left_after image.now left (instructions ctx stretch.now.start stretch.now.count stretch.now.took) }
{
    if !stretch.to_register {
        return None;
    }
    last_branch(image, stretch.start, stretch.count, stretch.took)
}

/// The address at which the items of a walk go on, where the first has one.
#[inline(always)]
fn first_address(walked: &Walked) -> Option<u64>
    ensures { result ≡ first_entered (items_of walked.now) }
{
    if walked.on || walked.unknown {
        return None;
    }
    if walked.count > 0 {
        return Some(walked.start);
    }
    let mark = walked.exc?;
    Some(mark.ret)
}

/// The address of the branch to a register that the last item of a walk is. Where it has no item, what was left before stays.
#[inline(always)]
fn branch_behind(image: &Image, walked: &Walked, left: Option<u64>) -> Option<u64>
    requires { ShowsWords image.now walked.now }
    ensures { result ≡ left_after image.now left (items_of walked.now) }
{
    if walked.unknown || walked.exc.is_some() {
        return None;
    }
    if walked.count == 0 {
        return if walked.on { None } else { left };
    }
    last_branch(image, walked.start, walked.count, walked.took)
}

/// The address of the last of so many instructions from an address on, where it is a branch to a register, and so no conditional branch
/// that was taken.
#[inline(always)]
fn last_branch(image: &Image, start: u64, count: u64, took: bool) -> Option<u64>
    requires some { 0 < count }
    requires cond { took ≡ true → is_cond (class_at image.now (behind start (count - 1))) ≡ true }
    ensures { (ctx : Ctx) (left : Option ℕ) → result ≡ left_after image.now left (instructions ctx start count took) }
{
    if took {
        return None;
    }
    let last = start.wrapping_add((count - 1).wrapping_mul(INSTRUCTION_BYTES));
    match image.word_at(last) {
        Some(word) if is_pointer_branch(word) => Some(last),
        _ => None,
    }
}
