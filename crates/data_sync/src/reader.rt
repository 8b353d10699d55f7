ghost use Rattle.std.specs.Prelude.{◌≡◌, ◌<◌, ◌≤◌, ◌^◌, [], IfOk, AllPairs, length};
ghost use Rattle.state_laws.specs.Kernel.{state_of};
ghost use Rattle.sync_laws.specs.Steps.{IsInStep};
ghost use Rattle.data_sync.specs.Taking.{AreKnown, AreAway, HasTried, HasRead, IsRead, others};

use crate::importing::try_import;
use private_state::PrivateState;
use sat_lits::{NoMemory, Shared};
use std::alloc::Global;
use std::marker::Model;

/// How far a log was read, and which entries wait.
#[derive(Debug, Drop)]
pub(crate) struct LogReader {
    cursor: u64,
    waiting: Vec<u64>,
}

impl Model for LogReader {
    ghost use Rattle.data_sync.specs.Books.{Book};

    ghost Value = { Book };

    ghost use Rattle.data_sync.specs.ReaderKept.{place_of};

    ghost view = { place_of };
}

impl LogReader {
    /// Nothing was read, and nothing waits. It takes no memory.
    pub(crate) fn new(alloc: Global) -> LogReader
        ensures { result ≡ record { cursor = 0; waiting = [] } }
    {
        LogReader {
            cursor: 0,
            waiting: Vec::new(alloc),
        }
    }

    pub(crate) fn cursor(&self) -> u64
        ensures { result ≡ self.now.cursor }
    {
        self.cursor
    }

    pub(crate) fn waiting(&self) -> &[u64]
        ensures { result.now ≡ self.now.waiting }
    {
        self.waiting.as_slice()
    }

    /// Tries the entries that wait again. The number is that of the entries of other solvers that
    /// were taken. The only error is want of memory; then those that were not taken still wait.
    pub(crate) fn retry(
        &mut self,
        state: &mut PrivateState,
        log: &[Shared],
        solver: u32,
    ) -> Result<u64, NoMemory>
        requires known { AreKnown (state_of state.old) log.now }
        requires once { AllPairs (λ d e. d.clause ≡ e.clause → ⊥) log.now }
        requires step { IsInStep (state_of state.old) self.old.cursor self.old.waiting log.now }
        ensures ok { IfOk result (λ count. count ≡ others solver (state_of state.old) (state_of state.new)) }
        ensures few { IfOk result (λ count. count < 2 ^ 63) }
        ensures away { IfOk result (λ count. AreAway (state_of state.new) log.now self.new.waiting) }
        ensures tried { HasTried (state_of state.old) (state_of state.new) log.now self.new.cursor self.new.waiting 0 }
        ensures read { IsRead (state_of state.old) self.old.cursor self.old.waiting log.now → IsRead (state_of state.new) self.new.cursor self.new.waiting log.now }
    {
        let mut count = 0;
        let mut at = 0;
        'retry: while at < self.waiting.len() {
            let place = self.waiting[at];
            match try_import(state, &log[place as usize], solver)? {
                None => at += 1,
                Some(other) => {
                    self.waiting.swap_remove(at);
                    count += other;
                }
            }
        }
        Ok(count)
    }

    /// Reads the log from the cursor to its end. The number is that of the entries of other solvers
    /// that were taken. The only error is want of memory; then the cursor stands at the first entry
    /// that was neither taken nor put among those that wait.
    pub(crate) fn read(
        &mut self,
        state: &mut PrivateState,
        log: &[Shared],
        solver: u32,
    ) -> Result<u64, NoMemory>
        requires once { AllPairs (λ d e. d.clause ≡ e.clause → ⊥) log.now }
        requires start { HasRead (state_of state.old) (state_of state.old) log.now self.old.cursor self.old.waiting }
        ensures ok { IfOk result (λ count. count ≡ others solver (state_of state.old) (state_of state.new)) }
        ensures few { IfOk result (λ count. count < 2 ^ 63) }
        ensures end { IfOk result (λ count. self.new.cursor ≡ length log.now) }
        ensures walked { HasRead (state_of state.old) (state_of state.new) log.now self.new.cursor self.new.waiting }
        ensures read { IsRead (state_of state.old) self.old.cursor self.old.waiting log.now → IsRead (state_of state.new) self.new.cursor self.new.waiting log.now }
    {
        let mut count = 0;
        'read: for place in self.cursor..log.len() as u64 {
            match try_import(state, &log[place as usize], solver)? {
                None => self.waiting.push(place)?,
                Some(other) => count += other,
            }
            self.cursor = place + 1;
        }
        Ok(count)
    }
}
