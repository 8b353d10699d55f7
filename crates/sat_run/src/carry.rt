ghost use Rattle.std.specs.Prelude.{◌≡◌, ◌≤◌, ◌+◌, [], ◌∷◌, length, OnOk, IfErr, max, true};
ghost use Rattle.sat_lits.specs.Limits.{standard_limits};
ghost use Rattle.sat_lits.specs.Formulas.{names_known, lit_count, with_item};
ghost use Rattle.sat_lits.specs.declared.formula.Item.TheVariants.{Clause as ClauseItem, Parity as ParityItem};
ghost use Rattle.dimacs_text.specs.Commands.{named_by};
ghost use Rattle.dimacs_text.specs.declared.command.Command.TheVariants.{Clause, Parity, Solve};
ghost use Rattle.sat_run.specs.Questions.{after, questions_from};
ghost use Rattle.sat_run.specs.Progress.{HasRoomFor, settings_of};
ghost use Rattle.sat_run.specs.World.{world, Carries, StopsAmong};

use crate::answer::answer;
use crate::failures::Halt;
use dimacs_text::{Command, Commands};
use sat_api::{ApiError, SatSolver};
use sat_lits::{Lit, NoMemory, Var};
use sat_ports::{Alarm, Sink};
use std::alloc::Global;
use std::thread::Threads;

/// The number of variables that the literals name.
fn reach_of_lits(lits: &[Lit]) -> u32
    requires { named_by (Clause lits.now) ≤ standard_limits.vars }
    ensures { result ≡ named_by (Clause lits.now) }
{
    let mut reach: u32 = 0;
    for lit in lits {
        reach = reach.max(lit.var.0 + 1);
    }
    reach
}

/// The number of variables that these are of.
fn reach_of_vars(vars: &[Var]) -> u32
    requires { named_by (Parity vars.now true) ≤ standard_limits.vars }
    ensures { result ≡ named_by (Parity vars.now true) }
{
    let mut reach: u32 = 0;
    for var in vars {
        reach = reach.max(var.0 + 1);
    }
    reach
}

/// Adds variables up to this number.
fn make_room(solver: &mut SatSolver, vars: u32)
    requires { vars ≤ solver.old.limits.vars }
    ensures vars { solver.new.problem ≡ record {
      vars = max solver.old.problem.vars vars;
      items = solver.old.problem.items;
    } }
    ensures kept { settings_of solver.new ≡ settings_of solver.old }
{
    let known = solver.n_vars();
    if known < vars {
        solver.new_vars(vars - known).unwrap();
    }
}

/// Adds a clause over variables that are there, within the limit on literals.
fn add_clause(solver: &mut SatSolver, lits: &[Lit]) -> Result<(), NoMemory>
    requires known { names_known solver.old.problem.vars (ClauseItem lits.now) ≡ true }
    requires few { lit_count solver.old.problem.items + length lits.now ≤ solver.old.limits.lits }
    ensures ok { OnOk result (solver.new.problem ≡ with_item (ClauseItem lits.now) solver.old.problem) }
    ensures kept { settings_of solver.new ≡ settings_of solver.old }
{
    match solver.add_clause(lits) {
        Ok(()) => Ok(()),
        Err(error) => {
            prove!(matches!(&error, ApiError::Memory));
            Err(NoMemory)
        }
    }
}

/// Adds a parity over variables that are there, within the limit on literals.
fn add_parity(solver: &mut SatSolver, vars: &[Var], rhs: bool) -> Result<(), NoMemory>
    requires known { names_known solver.old.problem.vars (ParityItem vars.now rhs) ≡ true }
    requires few { lit_count solver.old.problem.items + length vars.now ≤ solver.old.limits.lits }
    ensures ok { OnOk result (solver.new.problem ≡ with_item (ParityItem vars.now rhs) solver.old.problem) }
    ensures kept { settings_of solver.new ≡ settings_of solver.old }
{
    match solver.add_xor_clause(vars, rhs) {
        Ok(()) => Ok(()),
        Err(error) => {
            prove!(matches!(&error, ApiError::Memory));
            Err(NoMemory)
        }
    }
}

/// Carries out that a clause comes, with its variables.
fn take_clause(solver: &mut SatSolver, lits: &[Lit]) -> Result<(), NoMemory>
    requires { HasRoomFor (Clause lits.now ∷ []) solver.old }
    ensures ok { OnOk result (solver.new.problem ≡ after solver.old.problem (Clause lits.now)) }
    ensures kept { settings_of solver.new ≡ settings_of solver.old }
{
    make_room(solver, reach_of_lits(lits));
    add_clause(solver, lits)
}

/// Carries out that a parity comes, with its variables.
fn take_parity(solver: &mut SatSolver, vars: &[Var], rhs: bool) -> Result<(), NoMemory>
    requires { HasRoomFor (Parity vars.now rhs ∷ []) solver.old }
    ensures ok { OnOk result (solver.new.problem ≡ after solver.old.problem (Parity vars.now rhs)) }
    ensures kept { settings_of solver.new ≡ settings_of solver.old }
{
    make_room(solver, reach_of_vars(vars));
    add_parity(solver, vars, rhs)
}

/// Carries out that a question comes, with its variables: it is answered by a block.
fn take_question<R: Threads + Sync, K: Sink, A: Alarm + Send>(
    rt: &R,
    alloc: Global,
    shares: bool,
    sink: &mut K,
    alarm: &mut A,
    solver: &mut SatSolver,
    assumptions: &[Lit],
) -> Result<(), Halt>
    requires { HasRoomFor (Solve assumptions.now ∷ []) solver.old }
    ensures ok { OnOk result (Carries (Solve assumptions.now ∷ [])
        (world shares solver.old (A.raises alarm.old) (K.written sink.old) (K.faults sink.old))
        (world shares solver.new (A.raises alarm.new) (K.written sink.new) (K.faults sink.new))) }
    ensures err { IfErr result (λ halt. StopsAmong halt (questions_from solver.old.problem (Solve assumptions.now ∷ []))
        (world shares solver.old (A.raises alarm.old) (K.written sink.old) (K.faults sink.old))
        (world shares solver.new (A.raises alarm.new) (K.written sink.new) (K.faults sink.new))) }
{
    make_room(solver, reach_of_lits(assumptions));
    answer(rt, alloc, shares, sink, alarm, solver, assumptions)?;
    Ok(())
}

/// Carries out a command.
fn carry_out<R: Threads + Sync, K: Sink, A: Alarm + Send>(
    rt: &R,
    alloc: Global,
    shares: bool,
    sink: &mut K,
    alarm: &mut A,
    solver: &mut SatSolver,
    command: Command,
) -> Result<(), Halt>
    requires { HasRoomFor (command ∷ []) solver.old }
    ensures ok { OnOk result (Carries (command ∷ [])
        (world shares solver.old (A.raises alarm.old) (K.written sink.old) (K.faults sink.old))
        (world shares solver.new (A.raises alarm.new) (K.written sink.new) (K.faults sink.new))) }
    ensures err { IfErr result (λ halt. StopsAmong halt (questions_from solver.old.problem (command ∷ []))
        (world shares solver.old (A.raises alarm.old) (K.written sink.old) (K.faults sink.old))
        (world shares solver.new (A.raises alarm.new) (K.written sink.new) (K.faults sink.new))) }
{
    match command {
        Command::Clause(lits) => {
            take_clause(solver, lits.as_slice())?;
            Ok(())
        }
        Command::Parity { vars, rhs } => {
            take_parity(solver, vars.as_slice(), rhs)?;
            Ok(())
        }
        Command::Grow { to } => {
            make_room(solver, to);
            Ok(())
        }
        Command::Solve(assumptions) => {
            take_question(
                rt,
                alloc,
                shares,
                sink,
                alarm,
                solver,
                assumptions.as_slice(),
            )
        }
    }
}

/// Carries out the commands in order.
pub fn carry_out_all<R: Threads + Sync, K: Sink, A: Alarm + Send>(
    rt: &R,
    alloc: Global,
    shares: bool,
    sink: &mut K,
    alarm: &mut A,
    solver: &mut SatSolver,
    commands: &mut Commands,
) -> Result<(), Halt>
    requires room { HasRoomFor commands.old solver.old }
    ensures ok { OnOk result (Carries commands.old
        (world shares solver.old (A.raises alarm.old) (K.written sink.old) (K.faults sink.old))
        (world shares solver.new (A.raises alarm.new) (K.written sink.new) (K.faults sink.new))) }
    ensures err { IfErr result (λ halt. StopsAmong halt (questions_from solver.old.problem commands.old)
        (world shares solver.old (A.raises alarm.old) (K.written sink.old) (K.faults sink.old))
        (world shares solver.new (A.raises alarm.new) (K.written sink.new) (K.faults sink.new))) }
{
    while let Some(command) = commands.take_first() {
        carry_out(rt, alloc, shares, sink, alarm, solver, command)?;
    }
    Ok(())
}
