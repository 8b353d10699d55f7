ghost use Rattle.std.specs.Prelude.{◌≡◌, ◌+◌, IfOk, OnOk, length};
ghost use Rattle.sat_lits.specs.Logs.{IsLegalLog};
ghost use Rattle.state_laws.specs.State.{problem_of};
ghost use Rattle.state_laws.specs.Kernel.{state_of};
ghost use Rattle.sync_laws.specs.Steps.{IsSettled};
ghost use Rattle.data_sync.specs.Taking.{IsRead, others};
ghost use Rattle.data_sync.specs.Books.{no_book};
ghost use Rattle.data_sync.specs.Syncs.{InStepWith, IsMarked, Synced};

use crate::binaries::offer_binaries;
use crate::fixed::offer_fixed;
use crate::reader::LogReader;
use private_state::PrivateState;
use sat_lits::NoMemory;
use share_store::Store;
use std::alloc::Global;
use std::marker::Model;

/// What an exchange came to.
#[derive(Clone, Copy, Debug, PartialEq, Eq)]
pub struct Report {
    /// How many entries of other solvers were taken.
    pub took: u64,
    /// How many entries were added to the log.
    pub gave: u64,
    /// How many entries wait now.
    pub waits: u64,
}

/// How far a solver has read the log of shared clauses, and which entries it could not take yet. What
/// it offered is marked in its private state.
#[derive(Debug, Drop)]
pub struct SyncBook {
    alloc: Global,
    reader: LogReader,
}

impl Model for SyncBook {
    ghost use Rattle.data_sync.specs.Books.{Book};

    ghost Value = { Book };

    ghost use Rattle.data_sync.specs.BookKept.{book_of};

    ghost view = { book_of };
}

impl SyncBook {
    /// Nothing was read, and nothing waits. It takes no memory.
    pub fn new(alloc: Global) -> SyncBook
        ensures { result ≡ no_book }
    {
        SyncBook {
            alloc,
            reader: LogReader::new(alloc),
        }
    }

    /// The place in the log of the first entry that was not read.
    pub fn cursor(&self) -> u64
        ensures { result ≡ self.now.cursor }
    {
        self.reader.cursor()
    }

    /// The places in the log of the entries that wait.
    pub fn waiting(&self) -> &[u64]
        ensures { result.now ≡ self.now.waiting }
    {
        self.reader.waiting()
    }

    /// Tries the waiting entries again, reads the log from the cursor to its end, and offers each
    /// fixed literal and each learned clause of two literals whose variables are the caller's, and
    /// which came since the mark of the state: those before it are told. So the solver's own new
    /// entries are read by its next call. The log is legal for the items taken, and the book with the
    /// state is in step with it. Then all is told and marked, so that the next call looks at what is
    /// new alone. The only error is want of memory: the cursor then stands at the first entry that was
    /// neither taken nor put among the waiting ones, and the mark where it stood.
    ///
    /// It costs the new entries of the log, those that wait, and what came to the stack and to the
    /// learned clauses of two literals since the mark.
    pub fn sync(
        &mut self,
        state: &mut PrivateState,
        store: &mut Store,
        solver: u32,
    ) -> Result<Report, NoMemory>
        requires legal { IsLegalLog (problem_of (state_of state.old)) store.old }
        requires step { InStepWith (state_of state.old) self.old store.old }

        ensures synced { Synced (state_of state.old) (state_of state.new) solver store.old store.new self.new }
        ensures read { IsRead (state_of state.old) self.old.cursor self.old.waiting store.old → IsRead (state_of state.new) self.new.cursor self.new.waiting store.old }

        ensures settled { OnOk result (IsSettled (state_of state.new) store.new) }
        ensures marked { OnOk result (IsMarked (state_of state.new)) }
        ensures cursor { OnOk result (self.new.cursor ≡ length store.old) }
        ensures took { IfOk result (λ report. report.took ≡ others solver (state_of state.old) (state_of state.new)) }
        ensures gave { IfOk result (λ report. length store.new ≡ length store.old + report.gave) }
        ensures waits { IfOk result (λ report. report.waits ≡ length self.new.waiting) }
    {
        let after = store.len();
        let again = self.reader.retry(state, store.from(0), solver)?;
        let first = self.reader.read(state, store.from(0), solver)?;
        offer_fixed(state, store, solver, after)?;
        offer_binaries(self.alloc, state, store, solver, after)?;
        state.set_mark();
        Ok(Report {
            took: again + first,
            gave: store.len() - after,
            waits: self.reader.waiting().len() as u64,
        })
    }
}
