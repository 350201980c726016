// The count of faults that inputs and sinks keep.
ghost use Rattle.std.specs.Prelude.{◌≡◌};
ghost use Rattle.outside.specs.Faults.{Rose, one_more};

use crate::Failed;

/// One more, standing still at the greatest value.
pub(crate) fn one_more(count: u64) -> u64
    ensures { result ≡ one_more count }
{
    count.saturating_add(1)
}

/// Counts a fault, and gives the error that tells of it.
pub(crate) fn fail(faults: &mut u64) -> Failed
    ensures { Rose faults.old faults.new }
{
    *faults = one_more(*faults);
    Failed
}
