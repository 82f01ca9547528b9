//! The count of faults that the objects of this crate keep.
ghost use Rattle.std.specs.Prelude.{◌≡◌};
ghost use Rattle.trace_io.specs.Causes.{one_more};

use crate::Failed;

/// Counts one more fault, unless the count is at its last value, and gives the error to answer.
pub fn counted(faults: &mut u64) -> Failed
    ensures { faults.new ≡ one_more faults.old }
{
    *faults = faults.saturating_add(1);
    Failed
}
