ghost use Rattle.std.specs.Prelude.{◌≤◌, length, OnOk};
ghost use Rattle.share_store.specs.Log.{CanBeShared, HasClause};
ghost use Rattle.data_sync.specs.Giving.{Gives};

use sat_lits::{Lit, NoMemory};
use share_store::Store;

/// Offers a clause to the store, whose log has it then. The only error is want of memory.
pub(crate) fn give(
    store: &mut Store,
    solver: u32,
    after: u64,
    clause: &[Lit],
) -> Result<(), NoMemory>
    requires form { CanBeShared clause.now }
    requires earlier { after ≤ length store.old }
    ensures has { OnOk result (HasClause store.new clause.now) }
    ensures gives { Gives store.old store.new solver after clause.now }
{
    store.offer(solver, after, clause)?;
    Ok(())
}
