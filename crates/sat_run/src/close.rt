ghost use Rattle.std.specs.Prelude.{◌≡◌, ◌++◌, [], IfOk, IfErr};
ghost use Rattle.dimacs_text.specs.Lists.{Ended, Refused};
ghost use Rattle.sat_run.specs.Progress.{HasRoomFor};
ghost use Rattle.sat_run.specs.World.{world, ForRun};
ghost use Rattle.sat_run.specs.Runs.{AnswersAll, StopsRight};

use crate::answer::answer;
use crate::carry::carry_out_all;
use crate::failures::Stop;
use crate::report::Report;
use crate::write::write_refusal;
use dimacs_text::{Commands, Refusal};
use sat_api::SatSolver;
use sat_ports::{Alarm, Sink};
use std::alloc::Global;
use std::thread::Threads;

/// The text is refused behind these commands: carries them out, and writes the refusal.
pub fn refuse<R: Threads + Sync, K: Sink, A: Alarm + Send>(
    rt: &R,
    alloc: Global,
    shares: bool,
    sink: &mut K,
    alarm: &mut A,
    solver: &mut SatSolver,
    commands: &mut Commands,
    why: Refusal,
) -> Stop
    requires room { HasRoomFor commands.old solver.old }
    ensures { ForRun (world shares solver.old (A.raises alarm.old) (K.written sink.old) (K.faults sink.old))
        (λ start given. StopsRight result (record { commands = given ++ commands.old; end = Refused why }) start
        (world shares solver.new (A.raises alarm.new) (K.written sink.new) (K.faults sink.new))) }
{
    match carry_out_all(rt, alloc, shares, sink, alarm, solver, commands) {
        Ok(()) => match write_refusal(alloc, sink, &why) {
            Ok(()) => Stop::Refused,
            Err(halt) => Stop::from(halt),
        },
        Err(halt) => Stop::from(halt),
    }
}

/// The text ends behind what was carried out: asks its last question, without assumptions.
pub fn close<R: Threads + Sync, K: Sink, A: Alarm + Send>(
    rt: &R,
    alloc: Global,
    shares: bool,
    sink: &mut K,
    alarm: &mut A,
    solver: &mut SatSolver,
) -> Result<Report, Stop>
    ensures ok { IfOk result (λ report. ForRun (world shares solver.old (A.raises alarm.old) (K.written sink.old) (K.faults sink.old))
        (λ start given. AnswersAll (record { commands = given; end = Ended }) report start
        (world shares solver.new (A.raises alarm.new) (K.written sink.new) (K.faults sink.new)))) }
    ensures err { IfErr result (λ stop. ForRun (world shares solver.old (A.raises alarm.old) (K.written sink.old) (K.faults sink.old))
        (λ start given. StopsRight stop (record { commands = given; end = Ended }) start
        (world shares solver.new (A.raises alarm.new) (K.written sink.new) (K.faults sink.new)))) }
{
    match answer(rt, alloc, shares, sink, alarm, solver, &[]) {
        Ok(report) => Ok(report),
        Err(halt) => Err(Stop::from(halt)),
    }
}

/// The text ends behind these commands: carries them out, and asks its last question.
pub fn carry_out_last<R: Threads + Sync, K: Sink, A: Alarm + Send>(
    rt: &R,
    alloc: Global,
    shares: bool,
    sink: &mut K,
    alarm: &mut A,
    solver: &mut SatSolver,
    commands: &mut Commands,
) -> Result<Report, Stop>
    requires room { HasRoomFor commands.old solver.old }
    ensures ok { IfOk result (λ report. ForRun (world shares solver.old (A.raises alarm.old) (K.written sink.old) (K.faults sink.old))
        (λ start given. AnswersAll (record { commands = given ++ commands.old; end = Ended }) report start
        (world shares solver.new (A.raises alarm.new) (K.written sink.new) (K.faults sink.new)))) }
    ensures err { IfErr result (λ stop. ForRun (world shares solver.old (A.raises alarm.old) (K.written sink.old) (K.faults sink.old))
        (λ start given. StopsRight stop (record { commands = given ++ commands.old; end = Ended }) start
        (world shares solver.new (A.raises alarm.new) (K.written sink.new) (K.faults sink.new)))) }
{
    match carry_out_all(rt, alloc, shares, sink, alarm, solver, commands) {
        Ok(()) => close(rt, alloc, shares, sink, alarm, solver),
        Err(halt) => Err(Stop::from(halt)),
    }
}
