//! Runs over bytes in memory.

use sat_api::SatSolver;
use sat_lits::NoMemory;
use sat_ports::{BytesSink, PlainSource, Silent};
use sat_run::run;
use std::thread::Threads;

/// Room for all that a run of the tour writes.
const WIDE: usize = 100_000;

/// What a run wrote, and the status that it ended with.
#[derive(Drop)]
pub struct Outcome {
    pub status: u8,
    sink: BytesSink,
}

impl Outcome {
    /// What was written, which is ASCII.
    pub fn text(&self) -> &str {
        str::from_utf8(self.sink.bytes()).unwrap_or("")
    }

    /// The values that the last line of values writes, as they stand there.
    pub fn model(&self) -> &str {
        self.text()
            .lines()
            .filter_map(|line| line.strip_prefix("v "))
            .last()
            .unwrap_or("")
    }
}

/// A run on a text with these words, on a new solver.
pub fn run_on_text<R: AllocGlobal + Threads + Sync>(
    rt: &R,
    words: &[&str],
    text: &str,
) -> Result<Outcome, NoMemory> {
    let mut source = PlainSource::new(text.as_bytes());
    let mut sink = BytesSink::with_room(rt.alloc(), WIDE, &[])?;
    let mut solver = SatSolver::new(rt.alloc());
    let status = run(
        rt,
        rt.alloc(),
        words,
        &mut source,
        &mut sink,
        &mut Silent::new(),
        &mut solver,
    );
    Ok(Outcome { status, sink })
}
