//! Reads a DIMACS text with questions from standard input, and writes an answer to each of them.
#![tactic(auto)]

mod complaint;
mod usage;

use complaint::Complaint;
use sat_api::SatSolver;
use sat_ports::{Silent, StdSink, StdSource};
use sat_run::run;
use sat_run::status::{NO_WORDS, OUT_OF_MEMORY};
use std::process::ExitCode;
use std::rt::Env;
use std::thread::Threads;
use std::{env, io};
use usage::usage;

fn main(rt: HostRuntime) -> ExitCode {
    let status = match program_words(&rt) {
        Ok(words) => start(&rt, &words),
        Err(status) => told(&rt, status, &[]),
    };
    ExitCode::from(status)
}

/// Says on standard error what this status means, if something failed, and hands it on. Words that are
/// not taken are told behind the usage line, if there is memory for it.
fn told<R: Eprint + AllocGlobal>(rt: &R, status: u8, words: &[&str]) -> u8 {
    match Complaint::of(status, words) {
        Some(Complaint::Word(word)) => {
            if let Ok(usage) = usage(rt.alloc()) {
                let _ = eprintln!(rt; "{usage}; {}", Complaint::Word(word));
            }
        }
        Some(complaint) => {
            let _ = eprintln!(rt; "{complaint}");
        }
        None => {}
    }
    status
}

/// The words after the program's name, or the status where they cannot be had.
fn program_words<R: Env + AllocGlobal>(rt: &R) -> Result<Vec<String>, u8> {
    match env::args(rt) {
        Ok(words) => words.skip(1).collect(rt.alloc()).map_err(|_| OUT_OF_MEMORY),
        Err(error) if error.kind() == io::ErrorKind::OutOfMemory => Err(OUT_OF_MEMORY),
        Err(_) => Err(NO_WORDS),
    }
}

/// Runs on the standard streams, and answers the status.
fn start<R: Input + Print + Eprint + AllocGlobal + Threads + Sync>(rt: &R, words: &[String]) -> u8 {
    let words: Vec<&str> = match words.iter().map(|word| word.as_str()).collect(rt.alloc()) {
        Ok(words) => words,
        Err(_) => return told(rt, OUT_OF_MEMORY, &[]),
    };
    let mut source = StdSource::new(rt.reader());
    let mut sink = StdSink::new(io::writer(rt));
    let mut alarm = Silent::new();
    let mut solver = SatSolver::new(rt.alloc());
    let status = run(
        rt,
        rt.alloc(),
        &words,
        &mut source,
        &mut sink,
        &mut alarm,
        &mut solver,
    );
    told(rt, status, &words)
}
