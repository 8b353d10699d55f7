ghost use Rattle.std.specs.Prelude.{◌≡◌, ◌<◌, ◌≤◌, ◌^◌, length, IsTrue};
ghost use Rattle.analyze.specs.Counting.{saturated};
ghost use Rattle.state_laws.specs.Kernel.{state_of};
ghost use Rattle.sync_laws.specs.Met.{KeepsMet};
ghost use Rattle.search.specs.InUse.{in_use, lits_among};
ghost use Rattle.search.specs.Answers.{AnswersRight, EndsRight, LearnsRight, own_length};

use crate::answer::IntervalAnswer;
use crate::ends::IntervalEnds;
use crate::work::Work;
use analyze::Tally;
use pick_order::interval_len;
use private_state::PrivateState;
use sat_lits::InLit;
use sat_ports::Alarm;
use std::alloc::Global;
use std::marker::Model;

/// A search over a private state. It keeps the activities and phases of the variables from one
/// interval to the next, and is seen as the number of conflicts of its last interval.
#[derive(Debug, Drop)]
pub struct Search {
    work: Work,
    phase: bool,
}

impl Model for Search {
    ghost use Rattle.std.specs.Prelude.{ℕ};

    ghost Value = { ℕ };

    ghost view = { λ search. search.work.conflicts };
}

impl Search {
    /// A search that has made no interval. The first phase of each variable is `phase`. It takes no
    /// memory.
    pub fn new(alloc: Global, phase: bool) -> Search
        ensures { result ≡ 0 }
    {
        Search {
            work: Work::new(alloc),
            phase,
        }
    }

    /// Makes one interval of search, where the variables of the assumptions are active and there
    /// are fewer than 2^32 assumptions.
    ///
    /// `Model` gives a value for each inner number, under which the hard clauses and the
    /// assumptions are true. `Failed` gives rising positions of assumptions, one of which is false
    /// wherever all clauses are true. `Spent` comes exactly at `left` conflicts, at once for 0, and
    /// `IntervalOver` at the number that `interval_len` gives for `interval`, unless `Spent` comes.
    /// `Asked` comes only where the count of `stop`, which is polled before each decision, rose in
    /// this call. Whatever comes, that count does not fall, and `stop` keeps what its polls keep.
    /// After `Memory` the state stands.
    ///
    /// A conflict counts where a clause was learned from it, and the tally rises by these alone.
    /// Each such clause is added to the learned ones and is new: it has not all literals of one
    /// that stood before it. Nothing else of the state changes, so each shared clause that was met
    /// stays so. The interval makes fewer conflicts than 3 to the number of active variables, and so
    /// than 3 to the number of own ones.
    pub fn run_interval<S: Alarm>(
        &mut self,
        state: &mut PrivateState,
        assumptions: &[InLit],
        interval: u64,
        left: Option<u64>,
        stop: &mut S,
        tally: &mut Tally,
    ) -> IntervalAnswer
        requires few { length assumptions.now < 2 ^ 32 }
        requires active { IsTrue (lits_among (in_use state.old.maps) assumptions.now) }
        ensures right { AnswersRight state.new assumptions.now (S.raises stop.old) (S.raises stop.new) result }
        ensures ends { EndsRight (own_length interval) left self.new result }
        ensures learned { LearnsRight state.old state.new self.new result }
        ensures kept { KeepsMet (state_of state.old) (state_of state.new) }
        ensures few { self.new < 3 ^ length (in_use state.old.maps) }
        ensures own { self.new < 3 ^ length state.old.maps.inners }
        ensures tallied { tally.new ≡ saturated tally.old self.new }
        ensures stop { S.kept stop.old stop.new }
        ensures later { S.raises stop.old ≤ S.raises stop.new }
    {
        // That the count has 64 bits is known from here on.
        let _count = tally.count();
        self.work.conflicts = 0;
        if left == Some(0) {
            return IntervalAnswer::Spent;
        }
        if self.work.begin(state, assumptions, self.phase).is_err() {
            return IntervalAnswer::Memory;
        }
        let ends = IntervalEnds {
            own: interval_len(interval),
            left,
        };
        self.work.run(state, ends, stop, tally)
    }

    /// The number of conflicts of the last interval, or 0 before the first one.
    pub fn conflicts(&self) -> u64
        ensures { result ≡ self.now }
    {
        self.work.conflicts
    }
}
