ghost use Rattle.std.specs.Prelude.{◌≡◌, ◌⊎◌, ℕ, ◌<◌, true, false, All, length, slice_index_or};
ghost use Rattle.sat_lits.specs.Logs.{IsLegalLog};
ghost use Rattle.share_store.specs.Log.{StartsWith};
ghost use Rattle.one_solver.specs.Parts.{Parts, problem_in};
ghost use Rattle.one_solver.specs.InStep.{GoesOn};
ghost use Rattle.race.specs.Homes.{EachPlace, IsNew, IsHome, IsSettledHome, InRound};

use crate::task::Task;
use one_solver::OneSolver;
use sat_lits::{Formula, NoMemory};
use share_store::Store;
use std::alloc::Global;

/// Whether a solver took the whole formula. It did, or it is a new one.
#[tactic(auto, using(crate::proofs::Homing::is_no_problem))]
fn is_whole(solver: &OneSolver, formula: &Formula) -> bool
    requires { (problem_in solver.now ≡ formula.now.problem) ⊎ IsNew solver.now }
    ensures yes { result ≡ true → problem_in solver.now ≡ formula.now.problem }
    ensures no { result ≡ false → IsNew solver.now }
{
    solver.vars() == formula.vars() && solver.taken() == formula.items().len()
}

/// Lets a solver that took the whole formula catch up. Where it runs out of memory, a new one stands
/// in its place, and the answer is false.
fn attend<G>(alloc: Global, task: &Task<G>, solver: &mut OneSolver, store: &mut Store) -> bool
    requires home { IsHome task.now.limit task.now.formula.now.problem store.old solver.old.number solver.old }
    requires legal { IsLegalLog task.now.formula.now.problem store.old }
    ensures settled { IsSettledHome task.now.limit task.now.formula.now.problem store.new solver.old.number solver.new }
    ensures legal { IsLegalLog task.now.formula.now.problem store.new }
    ensures grows { GoesOn solver.old.number store.old store.new }
    ensures conflicts { result ≡ true → (solver.new.conflicts ≡ solver.old.conflicts) }
{
    if !is_whole(solver, task.formula) {
        return true;
    }
    if let Err(NoMemory) = solver.catch_up(store) {
        *solver = OneSolver::new(alloc, solver.number());
        return false;
    }
    true
}

/// One round: each solver that took the whole formula catches up. True where none ran out of memory.
fn round<G>(alloc: Global, task: &Task<G>, solvers: &mut [OneSolver], store: &mut Store) -> bool
    requires homes { EachPlace (IsHome task.now.limit task.now.formula.now.problem store.old) solvers.old }
    requires legal { IsLegalLog task.now.formula.now.problem store.old }
    requires known { All (λ e. e.solver < length solvers.old) store.old }
    ensures { InRound task.now.limit task.now.formula.now.problem store.old solvers.old (length solvers.old) result store.new solvers.new }
{
    let mut stay = true;
    'solvers: for place in 0..solvers.len() {
        let solver = &mut solvers[place];
        let stays = attend(alloc, task, solver, store);
        stay &= stays;
    }
    stay
}

/// The solvers that took the whole formula catch up in turn, until a whole round adds nothing. True
/// where none ran out of memory.
pub(crate) fn settle<G>(
    alloc: Global,
    task: &Task<G>,
    solvers: &mut [OneSolver],
    store: &mut Store,
) -> bool
    requires homes { EachPlace (IsHome task.now.limit task.now.formula.now.problem store.old) solvers.old }
    requires legal { IsLegalLog task.now.formula.now.problem store.old }
    requires known { All (λ e. e.solver < length solvers.old) store.old }
    ensures settled { EachPlace (IsSettledHome task.now.limit task.now.formula.now.problem store.new) solvers.new }
    ensures legal { IsLegalLog task.now.formula.now.problem store.new }
    ensures known { All (λ e. e.solver < length solvers.old) store.new }
    ensures starts { StartsWith store.new store.old }
    ensures kept { result ≡ true → (k : ℕ) (d : Parts) → k < length solvers.old → (slice_index_or solvers.new k d).conflicts ≡ (slice_index_or solvers.old k d).conflicts }
{
    let mut stay = true;
    'rounds: loop {
        let before = store.len();
        let stayed = round(alloc, task, solvers, store);
        stay &= stayed;
        if store.len() == before {
            return stay;
        }
    }
}
