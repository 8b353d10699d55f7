ghost use Rattle.std.specs.Prelude.{◌≡◌, ◌≤◌, ℕ, List, IfOk};
ghost use Rattle.sat_lits.specs.declared.literal.Lit.{Lit};
ghost use Rattle.sat_api.specs.State.{SolverState};
ghost use Rattle.sat_api.specs.Answers.{Answers};
ghost use Rattle.sat_run.specs.Questions.{question};
ghost use Rattle.sat_run.specs.Reports.{IsReportOn, status_of};

use crate::status::{INDETERMINATE, SATISFIABLE, UNSATISFIABLE};
use sat_api::{Answer, Cause, SatSolver};
use sat_lits::{List, NoMemory, Verdict};
use std::alloc::Global;

/// What is told of a question.
#[derive(Debug, Drop)]
pub enum Report {
    /// The question is decided.
    Verdict(Verdict),
    /// The conflict limit was spent. There is a count for each solver.
    Limit(List<u64>),
    /// The alarm asked for a stop.
    Alarm,
}

impl Report {
    /// The status of the program where this is its last report.
    pub fn status(&self) -> u8
        ensures { result ≡ status_of self.now }
    {
        match self {
            Report::Verdict(Verdict::Sat(_)) => SATISFIABLE,
            Report::Verdict(Verdict::Unsat(_)) => UNSATISFIABLE,
            Report::Limit(_) | Report::Alarm => INDETERMINATE,
        }
    }
}

/// The report of this answer, which the solver gave last.
pub fn report_of(alloc: Global, answer: Answer, solver: &SatSolver) -> Result<Report, NoMemory>
    requires { (before : SolverState) × (assumptions : List Lit) × (raised_before : ℕ) × (raised_now : ℕ)
        × Answers before solver.now assumptions raised_before raised_now answer }
    ensures { (before : SolverState) (assumptions : List Lit) (raised_before raised_now : ℕ)
        → before.counted ≤ solver.now.counted
        → raised_before ≤ raised_now
        → Answers before solver.now assumptions raised_before raised_now answer
        → IfOk result (IsReportOn (question before.problem assumptions) before solver.now raised_before raised_now) }
{
    match answer {
        Answer::Sat => {
            let values = solver.get_model().unwrap();
            Ok(Report::Verdict(Verdict::Sat(List::from_slice(alloc, values)?)))
        }
        Answer::Unsat => {
            let conflict = solver.get_conflict().unwrap();
            let mut failed = List::from_slice(alloc, conflict)?;
            failed.negate();
            Ok(Report::Verdict(Verdict::Unsat(failed)))
        }
        Answer::Unknown(Cause::Limit { counts }) => Ok(Report::Limit(counts)),
        Answer::Unknown(Cause::Alarm) => Ok(Report::Alarm),
    }
}
