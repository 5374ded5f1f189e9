// The faults of a calm object.
ghost use Rattle.std.specs.Prelude.{◌≤◌};
ghost use Rattle.disk_model.specs.Cause.{Rose};

use disk_model::Failed;

/// One failure more.
pub fn fail(faults: &mut u64) -> Failed
    ensures later { faults.old ≤ faults.new }
    ensures cause { Rose faults.old faults.new }
{
    *faults = faults.saturating_add(1);
    Failed
}
