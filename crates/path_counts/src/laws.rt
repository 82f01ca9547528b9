//! What counts are, as contracts of functions that do nothing.
ghost use Rattle.std.specs.Prelude.{◌≡◌, ◌+◌, ◌++◌, ◌≤◌, ℕ, Bool, List};
ghost use Rattle.etm_types.specs.declared.item.Item.{Item};
ghost use Rattle.path_counts.specs.Counts.{is_at, times, took_at};

/// Items that follow others add their own counts to those of the others: so no count falls as items come, and the counts of
/// several paths are the sums of the counts of each.
pub fn counts_never_fall()
    ensures { (test : Item → Bool) (items more : List Item) → times test (items ++ more) ≡ times test items + times test more }
{}

/// No branch was taken more often than it was executed.
pub fn branches_are_taken_when_executed()
    ensures { (address : ℕ) (items : List Item) → times (took_at address) items ≤ times (is_at address) items }
{}
