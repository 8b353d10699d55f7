//! Laws on solvers that are in step with a log. Each is the contract of a function that does nothing.

ghost use Rattle.std.specs.Prelude.{List};
ghost use Rattle.sat_lits.specs.Logs.{IsLegalLog};
ghost use Rattle.sat_lits.specs.declared.shared.Shared.{Shared};
ghost use Rattle.share_store.specs.Log.{StartsWith};
ghost use Rattle.one_solver.specs.Parts.{Parts, problem_in};
ghost use Rattle.one_solver.specs.InStep.{IsInStep, EntriesFollow};

/// A solver stays in step when the log grows.
pub fn a_solver_stays_in_step_with_a_longer_log()
    ensures { (s : Parts) (log more : List Shared) → StartsWith more log → IsInStep s log → IsInStep s more }
{}

/// The shared clauses that a solver took follow from its items, where it is in step with a log that
/// is legal for them.
pub fn what_a_solver_in_step_took_follows()
    ensures { (s : Parts) (log : List Shared)
        → IsLegalLog (problem_in s) log → IsInStep s log → EntriesFollow s }
{}
