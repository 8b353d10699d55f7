ghost use Rattle.std.specs.Prelude.{◌≡◌, ◌≤◌, ◌^◌, [], ◌∷◌, length, drop, if◌then◌else◌, IfOk, IfErr, true};
ghost use Rattle.sat_lits.specs.Formulas.{names_known};
ghost use Rattle.sat_lits.specs.declared.formula.Item.TheVariants.{Clause};
ghost use Rattle.sat_api.specs.State.{Keeps};
ghost use Rattle.sat_api.specs.Answers.{Answers};
ghost use Rattle.sat_run.specs.Questions.{question};
ghost use Rattle.sat_run.specs.World.{world, AnswersOne, StopsAmong};

use crate::failures::Halt;
use crate::report::{Report, report_of};
use crate::write::write_block;
use sat_api::{Answer, ApiError, SatSolver};
use sat_lits::{Lit, NoMemory, Shared};
use sat_ports::{Alarm, Sink};
use std::alloc::Global;
use std::thread::Threads;

/// Asks the solver under assumptions whose variables are there.
fn ask<R: Threads + Sync, A: Alarm + Send>(
    rt: &R,
    alarm: &mut A,
    solver: &mut SatSolver,
    assumptions: &[Lit],
) -> Result<Answer, NoMemory>
    requires few { length assumptions.now ≤ 2 ^ 31 }
    requires known { names_known solver.old.problem.vars (Clause assumptions.now) ≡ true }
    ensures answers { IfOk result (Answers solver.old solver.new assumptions.now (A.raises alarm.old) (A.raises alarm.new)) }
    ensures keeps { Keeps solver.old solver.new }
    ensures later { A.raises alarm.old ≤ A.raises alarm.new }
{
    match solver.solve(rt, assumptions, alarm) {
        Ok(answer) => Ok(answer),
        Err(error) => {
            prove!(matches!(&error, ApiError::Memory));
            Err(NoMemory)
        }
    }
}

/// The shared clauses behind the first `before`, where they are to be listed, and else none.
fn entries_behind(solver: &SatSolver, shares: bool, before: usize) -> &[Shared]
    requires { before ≤ length solver.now.shared }
    ensures { result.now ≡ if shares then drop before solver.now.shared else [] }
{
    let all = solver.shared();
    let from = if shares { before } else { all.len() };
    &all[from..]
}

/// Asks a question, makes its block whole, and then writes it.
pub fn answer<R: Threads + Sync, K: Sink, A: Alarm + Send>(
    rt: &R,
    alloc: Global,
    shares: bool,
    sink: &mut K,
    alarm: &mut A,
    solver: &mut SatSolver,
    assumptions: &[Lit],
) -> Result<Report, Halt>
    requires few { length assumptions.now ≤ 2 ^ 31 }
    requires known { names_known solver.old.problem.vars (Clause assumptions.now) ≡ true }
    ensures ok { IfOk result (λ report. AnswersOne (question solver.old.problem assumptions.now) report
        (world shares solver.old (A.raises alarm.old) (K.written sink.old) (K.faults sink.old))
        (world shares solver.new (A.raises alarm.new) (K.written sink.new) (K.faults sink.new))) }
    ensures err { IfErr result (λ halt. StopsAmong halt (question solver.old.problem assumptions.now ∷ [])
        (world shares solver.old (A.raises alarm.old) (K.written sink.old) (K.faults sink.old))
        (world shares solver.new (A.raises alarm.new) (K.written sink.new) (K.faults sink.new))) }
{
    let before = solver.shared().len();
    let answer = ask(rt, alarm, solver, assumptions)?;
    let report = report_of(alloc, answer, solver)?;
    let entries = entries_behind(solver, shares, before);
    write_block(alloc, sink, &report, entries)?;
    Ok(report)
}
