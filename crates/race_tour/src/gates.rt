use sat_ports::Gate;
use std::sync::atomic::{AtomicBool, AtomicU64, Ordering};
use std::thread;

/// How often a race asks a gate before a solver goes on all the same.
const MOST_ASKS: u64 = 4_194_304;

/// Holds the first solver until the second one has given a clause, and then the second one until the
/// first one has taken a clause.
#[derive(Drop)]
pub struct Alternating {
    gave: AtomicBool,
    took: AtomicBool,
    // How often each solver was told to wait.
    starts: AtomicU64,
    searches: AtomicU64,
}

impl Alternating {
    pub fn new() -> Alternating {
        Alternating {
            gave: AtomicBool::new(false),
            took: AtomicBool::new(false),
            starts: AtomicU64::new(0),
            searches: AtomicU64::new(0),
        }
    }

    /// Whether the second solver has given a clause.
    pub fn gave(&self) -> bool {
        self.gave.load(Ordering::SeqCst)
    }

    /// Whether the first solver has taken a clause.
    pub fn took(&self) -> bool {
        self.took.load(Ordering::SeqCst)
    }

    /// Whether a solver went on though it was always told to wait.
    pub fn was_vain(&self) -> bool {
        self.starts.load(Ordering::SeqCst) >= MOST_ASKS
            || self.searches.load(Ordering::SeqCst) >= MOST_ASKS
    }
}

impl Gate for Alternating {
    fn may_start(&self, solver: u32) -> bool {
        solver != 0 || is_open(&self.gave, &self.starts)
    }

    fn may_search(&self, solver: u32) -> bool {
        solver != 1 || is_open(&self.took, &self.searches)
    }

    fn told(&self, solver: u32, taken: u64, given: u64) {
        if solver == 1 && given > 0 {
            self.gave.store(true, Ordering::SeqCst);
        }
        if solver == 0 && taken > 0 {
            self.took.store(true, Ordering::SeqCst);
        }
    }
}

/// Whether the word was set. If it was not, the try counts, and another thread may run.
fn is_open(word: &AtomicBool, tries: &AtomicU64) -> bool {
    if word.load(Ordering::SeqCst) {
        return true;
    }
    tries.fetch_add(1, Ordering::SeqCst);
    thread::yield_now();
    false
}
