ghost use Rattle.std.specs.Prelude.{◌≡◌, ◌≤◌, ◌+◌, IfOk, IfErr, map};
ghost use Rattle.sat_lits.specs.Limits.{standard_limits};
ghost use Rattle.sat_lits.specs.Formulas.{no_problem};
ghost use Rattle.sat_api.specs.State.{new_solver};
ghost use Rattle.sat_run.specs.Writing.{port};
ghost use Rattle.sat_run.specs.Progress.{ReadsNoMore, limits_of};
ghost use Rattle.sat_run.specs.World.{world, outside};
ghost use Rattle.sat_run.specs.Runs.{AnswersText, StopsText, RunsRight};

use crate::close::close;
use crate::failures::Stop;
use crate::read::{take_end, take_piece};
use crate::report::Report;
use crate::status::FAULTY_WORDS;
use crate::words::read_words;
use dimacs_text::Reader;
use sat_api::SatSolver;
use sat_lits::Limits;
use sat_ports::{Alarm, Sink, Source};
use std::alloc::Global;
use std::thread::Threads;

/// The size of one read, in bytes.
const PIECE: usize = 65536;

/// Reads the source to its end, or to the end of the formula, piece by piece, and answers every
/// question of the text. The limits are the standard ones, but for the one on input.
pub fn serve<R: Threads + Sync, S: Source, K: Sink, A: Alarm + Send>(
    rt: &R,
    alloc: Global,
    shares: bool,
    limits: Limits,
    source: &mut S,
    sink: &mut K,
    alarm: &mut A,
    solver: &mut SatSolver,
) -> Result<Report, Stop>
    requires empty { solver.old.problem ≡ no_problem }
    requires standard { solver.old.limits ≡ standard_limits }
    requires few { limits.input ≤ standard_limits.input }
    requires others { limits ≡ limits_of limits.input }
    ensures ok { IfOk result (λ report. AnswersText limits.input report
        (port (S.left source.old) (S.faults source.old)) (port (S.left source.new) (S.faults source.new))
        (world shares solver.old (A.raises alarm.old) (K.written sink.old) (K.faults sink.old))
        (world shares solver.new (A.raises alarm.new) (K.written sink.new) (K.faults sink.new))) }
    ensures err { IfErr result (λ stop. StopsText limits.input stop
        (port (S.left source.old) (S.faults source.old)) (port (S.left source.new) (S.faults source.new))
        (world shares solver.old (A.raises alarm.old) (K.written sink.old) (K.faults sink.old))
        (world shares solver.new (A.raises alarm.new) (K.written sink.new) (K.faults sink.new))) }
    ensures little { ReadsNoMore (limits.input + PIECE) (S.left source.old) (S.left source.new) }
{
    let mut reader = Reader::new(alloc, limits);
    let mut piece = [0u8; PIECE];
    let mut taken: u64 = 0;
    'reading: loop {
        let count = source.read(&mut piece)?;
        if count == 0 {
            return take_end(rt, alloc, shares, &mut reader, sink, alarm, solver);
        }
        take_piece(
            rt,
            alloc,
            shares,
            &mut reader,
            &piece[..count],
            sink,
            alarm,
            solver,
        )?;
        if reader.ended() {
            return close(rt, alloc, shares, sink, alarm, solver);
        }
        taken += count as u64;
    }
}

/// Does all that the program does, and answers its status.
///
/// The words may set the number of threads, a limit on conflicts and one on input, and ask for the
/// shared clauses. The source is read to its end, or to the `%` that ends the formula, as a DIMACS text
/// with questions. Its clauses and parities are given to the solver. Each question, and the one at the
/// end that has no assumptions, is asked when it is read, and its answer is written to the sink as one
/// block, before anything further is read: a verdict, or that the limit was spent or the alarm raised.
/// Behind it stand the clauses that the threads shared since the block before, where the words ask for
/// them.
///
/// The status is 10 where the last question's answer is a model, 20 where there is none, and 15
/// where neither is known. It is 1 exactly where the words are not taken, and then nothing is
/// read or written; 2 where the text is refused, which is written behind the blocks of the
/// questions before; 3 where a read failed and 4 where a write failed; 5 for want of memory. Before
/// a status of 3 or 5 whole blocks are written, and before 4 a front of what is to be written.
pub fn run<R: Threads + Sync, S: Source, K: Sink, A: Alarm + Send>(
    rt: &R,
    alloc: Global,
    words: &[&str],
    source: &mut S,
    sink: &mut K,
    alarm: &mut A,
    solver: &mut SatSolver,
) -> u8
    requires { solver.old ≡ new_solver standard_limits }
    ensures { RunsRight (map (λ word. word.now) words.now) result
        (port (S.left source.old) (S.faults source.old)) (port (S.left source.new) (S.faults source.new))
        (outside solver.old (A.raises alarm.old) (K.written sink.old) (K.faults sink.old))
        (outside solver.new (A.raises alarm.new) (K.written sink.new) (K.faults sink.new)) }
{
    let Ok(options) = read_words(words) else {
        return FAULTY_WORDS;
    };
    options.set(solver);
    let shares = options.print_shared;
    match serve(
        rt,
        alloc,
        shares,
        options.limits(),
        source,
        sink,
        alarm,
        solver,
    ) {
        Ok(report) => report.status(),
        Err(stop) => stop.status(),
    }
}
