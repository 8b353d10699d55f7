ghost use Rattle.std.specs.Prelude.{◌≡◌, ◌≤◌, ◌^◌, ℕ, take, OnOk, IsTrue};
ghost use Rattle.std.specs.List.{list_all};
ghost use Rattle.sat_lits.specs.Conflicts.{own_count};
ghost use Rattle.sat_lits.specs.Formulas.{Extends, names_known};
ghost use Rattle.state_laws.specs.State.{outer_count, problem_of};
ghost use Rattle.state_laws.specs.Kernel.{state_of};
ghost use Rattle.sync_laws.specs.Met.{KeepsMet};
ghost use Rattle.one_solver.specs.Basic.{IsBasic};
ghost use Rattle.one_solver.specs.Roots.{is_free, all_lits};
ghost use Rattle.one_solver.specs.Taken.{HasTaken, with_items};

use crate::free::free_items;
use private_state::PrivateState;
use sat_lits::{Formula, Item, NoMemory};
use std::alloc::Global;

/// Grows a state to the variables of a formula, and takes those of its items that were not taken.
/// First the eliminated variables to which their literals come are brought back, all at once.
pub fn take_formula(
    alloc: Global,
    state: &mut PrivateState,
    formula: &Formula,
) -> Result<(), NoMemory>
    requires basic { IsBasic state.old }
    requires front { Extends (problem_of (state_of state.old)) formula.now.problem }
    ensures basic { IsBasic state.new }
    ensures ok { OnOk result (problem_of (state_of state.new) ≡ formula.now.problem) }
    ensures front { Extends (problem_of (state_of state.new)) formula.now.problem }
    ensures longer { Extends (problem_of (state_of state.old)) (problem_of (state_of state.new)) }
    ensures okay { state.new.okay ≡ state.old.okay }
    ensures met { KeepsMet (state_of state.old) (state_of state.new) }
{
    state.grow(formula.vars())?;
    let taken = state.taken();
    let items = &formula.items()[taken..];
    free_items(alloc, state, items)?;
    take_items(state, items)
}

/// Takes items over variables that are there, and none of whose literals comes to an eliminated one.
fn take_items(state: &mut PrivateState, items: &[Item]) -> Result<(), NoMemory>
    requires basic { IsBasic state.old }
    requires room { own_count (with_items state.old items.now) ≤ 2 ^ 31 }
    requires known { IsTrue (list_all (names_known (outer_count state.old.definitions)) items.now) }
    requires free { IsTrue (list_all (is_free state.old) (all_lits items.now)) }
    ensures basic { IsBasic state.new }
    ensures ok { OnOk result (HasTaken state.old state.new items.now) }
    ensures some { (n : ℕ) × HasTaken state.old state.new (take n items.now) }
{
    for item in items {
        state.take_input(item)?;
    }
    Ok(())
}
