ghost use Rattle.std.specs.Prelude.{◌≡◌, ◌==◌, if◌then◌else◌, true, IfOk, OnErr};
ghost use Rattle.sat_lits.specs.Formulas.{names_known};
ghost use Rattle.sat_lits.specs.declared.formula.Item.TheVariants.{Clause};
ghost use Rattle.state_laws.specs.State.{outer_count};
ghost use Rattle.state_laws.specs.Kernel.{state_of};
ghost use Rattle.data_sync.specs.Taking.{Attempt};

use private_state::{Import, PrivateState};
use sat_lits::{NoMemory, Shared};

/// Tries to take an entry of the log, whose variables are there. None comes where it waits. Else it
/// was taken, and the number is 1 where another solver gave it, and 0 where this one did. The only
/// error is want of memory, and nothing changes then.
pub(crate) fn try_import(
    state: &mut PrivateState,
    entry: &Shared,
    solver: u32,
) -> Result<Option<u64>, NoMemory>
    requires { names_known (outer_count state.old.definitions) (Clause entry.now.clause) ≡ true }
    ensures ok { IfOk result (λ answer. Attempt (state_of state.old) (state_of state.new) entry.now solver answer) }
    ensures err { OnErr result (state_of state.new ≡ state_of state.old) }
{
    match state.import(entry)? {
        Import::Waits { .. } => Ok(None),
        Import::Taken => Ok(Some(given_by_other(entry, solver))),
        Import::Trivial => Ok(Some(given_by_other(entry, solver))),
    }
}

/// 1 where another solver gave an entry, and 0 where this one did.
fn given_by_other(entry: &Shared, solver: u32) -> u64
    ensures { result ≡ (if entry.now.solver == solver then 0 else 1) }
{
    if entry.solver == solver { 0 } else { 1 }
}
