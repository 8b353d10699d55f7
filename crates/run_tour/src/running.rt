//! Runs over bytes in memory.

ghost use Rattle.std.specs.Prelude.{◌<◌};

use sat_api::SatSolver;
use sat_lits::NoMemory;
use sat_ports::{Alarm, AtPolls, BytesSink, BytesSource, PlainSource, Silent, Source};
use sat_run::run;
use std::thread::Threads;

/// What a run wrote, and the status that it ended with.
#[derive(Drop)]
pub struct Outcome {
    pub status: u8,
    sink: BytesSink,
}

impl Outcome {
    /// What was written, which is ASCII.
    pub fn text(&self) -> &str {
        str::from_utf8(self.sink.bytes()).unwrap_or("")
    }
}

/// A run on a new solver, into a sink with this room whose listed calls fail.
fn run_into<R: AllocGlobal + Threads + Sync, S: Source, A: Alarm + Send>(
    rt: &R,
    words: &[&str],
    source: &mut S,
    alarm: &mut A,
    room: usize,
    failing: &[u64],
) -> Result<Outcome, NoMemory> {
    let mut sink = BytesSink::with_room(rt.alloc(), room, failing)?;
    let mut solver = SatSolver::new(rt.alloc());
    let status = run(rt, rt.alloc(), words, source, &mut sink, alarm, &mut solver);
    Ok(Outcome { status, sink })
}

/// A run on a text, with room for so many bytes.
pub fn run_on_text<R: AllocGlobal + Threads + Sync>(
    rt: &R,
    words: &[&str],
    text: &[u8],
    room: usize,
) -> Result<Outcome, NoMemory> {
    let mut source = PlainSource::new(text);
    run_into(rt, words, &mut source, &mut Silent::new(), room, &[])
}

/// A run on a text beside an alarm that asks for a stop at the listed polls.
pub fn run_beside_alarm<R: AllocGlobal + Threads + Sync>(
    rt: &R,
    text: &[u8],
    polls: &[u64],
) -> Result<Outcome, NoMemory> {
    let mut source = PlainSource::new(text);
    run_into(rt, &[], &mut source, &mut AtPolls::new(polls), 1000, &[])
}

/// A run on a text where the listed writes fail.
pub fn run_with_room<R: AllocGlobal + Threads + Sync>(
    rt: &R,
    words: &[&str],
    text: &[u8],
    room: usize,
    failing: &[u64],
) -> Result<Outcome, NoMemory> {
    let mut source = PlainSource::new(text);
    run_into(rt, words, &mut source, &mut Silent::new(), room, failing)
}

/// A run on a text in pieces, where one read fails.
pub fn run_on_pieces<R: AllocGlobal + Threads + Sync>(
    rt: &R,
    words: &[&str],
    text: &[u8],
    piece: usize,
    failing: u64,
) -> Result<Outcome, NoMemory>
    requires { 0 < piece }
{
    run_into(
        rt,
        words,
        &mut BytesSource::new(text, piece, &[failing]),
        &mut Silent::new(),
        1000,
        &[],
    )
}
