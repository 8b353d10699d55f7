ghost use Rattle.std.specs.Prelude.{◌≡◌, ◌≤◌};
ghost use Rattle.sat_ports.specs.Causes.{one_more};

/// A read or a write failed.
#[derive(Clone, Copy, Debug, PartialEq, Eq)]
pub struct Failed;

/// Counts a failure.
pub(crate) fn count_failure(faults: &mut u64) -> Failed
    ensures later { faults.old ≤ faults.new }
    ensures counted { faults.new ≡ one_more faults.old }
{
    *faults = faults.saturating_add(1);
    Failed
}
