ghost use Rattle.std.specs.Prelude.{◌≡◌, ◌++◌, ℕ, List, IfOk, IfErr, OnOk};
ghost use Rattle.dimacs_text.specs.Grammar.{reading_of};
ghost use Rattle.sat_run.specs.Progress.{HasCarried, ForText, limits_of};
ghost use Rattle.sat_run.specs.World.{World, world};
ghost use Rattle.sat_run.specs.Runs.{AnswersAll, StopsRight};

use crate::carry::carry_out_all;
use crate::close::{carry_out_last, refuse};
use crate::failures::Stop;
use crate::report::Report;
use dimacs_text::{Commands, ReadError, Reader};
use sat_api::SatSolver;
use sat_ports::{Alarm, Sink};
use std::alloc::Global;
use std::thread::Threads;

/// Takes one piece of the text, and carries out what it decides.
pub fn take_piece<R: Threads + Sync, K: Sink, A: Alarm + Send>(
    rt: &R,
    alloc: Global,
    shares: bool,
    reader: &mut Reader,
    piece: &[u8],
    sink: &mut K,
    alarm: &mut A,
    solver: &mut SatSolver,
) -> Result<(), Stop>
    requires carried { (input : ℕ) × (text : List ℕ) × (start : World) × HasCarried input text reader.old start
        (world shares solver.old (A.raises alarm.old) (K.written sink.old) (K.faults sink.old)) }
    ensures ok { OnOk result (ForText reader.old (world shares solver.old (A.raises alarm.old) (K.written sink.old) (K.faults sink.old))
        (λ input text start. HasCarried input (text ++ piece.now) reader.new start
        (world shares solver.new (A.raises alarm.new) (K.written sink.new) (K.faults sink.new)))) }
    ensures err { IfErr result (λ stop. ForText reader.old (world shares solver.old (A.raises alarm.old) (K.written sink.old) (K.faults sink.old))
        (λ input text start. (rest : List ℕ) → StopsRight stop (reading_of (limits_of input) ((text ++ piece.now) ++ rest)) start
        (world shares solver.new (A.raises alarm.new) (K.written sink.new) (K.faults sink.new)))) }
{
    let mut commands = Commands::new(alloc);
    match reader.feed(piece, &mut commands) {
        Ok(()) => match carry_out_all(rt, alloc, shares, sink, alarm, solver, &mut commands) {
            Ok(()) => Ok(()),
            Err(halt) => Err(Stop::from(halt)),
        },
        Err(ReadError::Refused(why)) => Err(refuse(
            rt,
            alloc,
            shares,
            sink,
            alarm,
            solver,
            &mut commands,
            why,
        )),
        Err(ReadError::Memory) => Err(Stop::Memory),
    }
}

/// The text ends here: carries out what its end decides, and asks its last question.
pub fn take_end<R: Threads + Sync, K: Sink, A: Alarm + Send>(
    rt: &R,
    alloc: Global,
    shares: bool,
    reader: &mut Reader,
    sink: &mut K,
    alarm: &mut A,
    solver: &mut SatSolver,
) -> Result<Report, Stop>
    requires carried { (input : ℕ) × (text : List ℕ) × (start : World) × HasCarried input text reader.old start
        (world shares solver.old (A.raises alarm.old) (K.written sink.old) (K.faults sink.old)) }
    ensures ok { IfOk result (λ report. ForText reader.old (world shares solver.old (A.raises alarm.old) (K.written sink.old) (K.faults sink.old))
        (λ input text start. AnswersAll (reading_of (limits_of input) text) report start
        (world shares solver.new (A.raises alarm.new) (K.written sink.new) (K.faults sink.new)))) }
    ensures err { IfErr result (λ stop. ForText reader.old (world shares solver.old (A.raises alarm.old) (K.written sink.old) (K.faults sink.old))
        (λ input text start. StopsRight stop (reading_of (limits_of input) text) start
        (world shares solver.new (A.raises alarm.new) (K.written sink.new) (K.faults sink.new)))) }
{
    let mut commands = Commands::new(alloc);
    match reader.finish(&mut commands) {
        Ok(()) => carry_out_last(rt, alloc, shares, sink, alarm, solver, &mut commands),
        Err(ReadError::Refused(why)) => Err(refuse(
            rt,
            alloc,
            shares,
            sink,
            alarm,
            solver,
            &mut commands,
            why,
        )),
        Err(ReadError::Memory) => Err(Stop::Memory),
    }
}
