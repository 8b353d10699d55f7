ghost use Rattle.std.specs.Prelude.{◌≡◌, ◌<◌, ◌≤◌, ◌^◌, List, length, map, not, sum_by, count_by, vec_len, IfOk};
ghost use Rattle.sat_lits.specs.Meaning.{Problem};
ghost use Rattle.sat_lits.specs.declared.shared.Shared.{Shared};
ghost use Rattle.analyze.specs.Counting.{saturated};
ghost use Rattle.race.specs.Homes.{EachPlace, IsEntrant};
ghost use Rattle.sat_api.specs.Answers.{has_taken, poured};

use analyze::Tally;
use one_solver::OneSolver;
use sat_lits::{Formula, NoMemory};
use std::alloc::Global;

/// New solvers, numbered from 0. The only error is want of memory.
pub fn new_solvers(alloc: Global, count: u32) -> Result<Vec<OneSolver>, NoMemory>
    ensures many { IfOk result (λ solvers. vec_len solvers ≡ count) }
    ensures entrants { IfOk result (λ solvers. (f : Problem) (log : List Shared) → EachPlace (IsEntrant f log) solvers.items) }
{
    let mut solvers = Vec::with_capacity(alloc, count as usize)?;
    'numbers: for number in 0..count {
        solvers.push_reserved(OneSolver::new(alloc, number));
    }
    Ok(solvers)
}

/// Adds the conflicts of all solvers to a tally, and leaves 0 in each.
pub fn pour_all(solvers: &mut [OneSolver], tally: &mut Tally)
    ensures sum { tally.new ≡ saturated tally.old (sum_by (λ s. s.conflicts) solvers.old) }
    ensures poured { solvers.new ≡ map poured solvers.old }
    ensures more { tally.old ≤ tally.new }
{
    // That the count has 64 bits is known from here on.
    let _count = tally.count();
    'solvers: for place in 0..solvers.len() {
        let solver = &mut solvers[place];
        solver.pour(tally);
    }
}

/// How many solvers did not take the whole formula.
pub fn count_lost(solvers: &[OneSolver], formula: &Formula) -> u32
    requires { length solvers.now < 2 ^ 32 }
    ensures { result ≡ count_by (λ s. not (has_taken formula.now.problem s)) solvers.now }
{
    solvers
        .iter()
        .filter(|solver| !has_taken(solver, formula))
        .count() as u32
}

fn has_taken(solver: &OneSolver, formula: &Formula) -> bool
    ensures { result ≡ has_taken formula.now.problem solver.now }
{
    solver.vars() == formula.vars() && solver.taken() == formula.items().len()
}
