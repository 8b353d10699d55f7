ghost use Rattle.std.specs.Prelude.{◌≡◌, ◌≤◌, ◌<◌, ◌^◌, length, ℕ, OnOk, IsTrue};
ghost use Rattle.propagate.specs.Watching.{is_right};
ghost use Rattle.search_laws.specs.TrailNumber.{trail_number};
ghost use Rattle.var_maps.specs.Maps.{Matched};
ghost use Rattle.search.specs.InUse.{in_use, lits_among, clauses_among};
ghost use Rattle.search.specs.Searching.{AtMove};

use crate::lists::numbers_in_use;
use analyze::Analyzer;
use pick_order::PickOrder;
use private_state::PrivateState;
use propagate::{Found, Watches};
use sat_lits::{InLit, List, NoMemory};
use std::alloc::Global;
use trail::Trail;

/// An interval under way.
#[derive(Debug, Drop)]
pub struct Work {
    pub trail: Trail,
    pub watches: Watches,
    pub order: PickOrder,
    pub analyzer: Analyzer,
    pub assumptions: List<InLit>,
    /// By level, from 1 on, the position of the assumption that was decided there.
    pub positions: List<u32>,
    /// The position of the assumption that is looked at next. All before it are true.
    pub next: u32,
    pub conflicts: u64,
}

impl Work {
    /// No interval yet. It takes no memory.
    pub fn new(alloc: Global) -> Work
        ensures { result.conflicts ≡ 0 }
    {
        Work {
            trail: Trail::new(alloc),
            watches: Watches::new(alloc),
            order: PickOrder::new(alloc),
            analyzer: Analyzer::new(alloc),
            assumptions: List::new(alloc),
            positions: List::new(alloc),
            next: 0,
            conflicts: 0,
        }
    }

    /// Begins an interval of a state under assumptions, with this first phase for new variables.
    pub fn begin(
        &mut self,
        state: &PrivateState,
        assumptions: &[InLit],
        phase: bool,
    ) -> Result<(), NoMemory>
        requires few { length assumptions.now < 2 ^ 32 }
        requires active { IsTrue (lits_among (in_use state.now.maps) assumptions.now) }
        ensures at { OnOk result (AtMove state.now self.new) }
        ensures assumptions { OnOk result (self.new.assumptions ≡ assumptions.now) }
        ensures conflicts { self.new.conflicts ≡ 0 }
        ensures matched { OnOk result (Matched state.now.maps) }
    {
        self.conflicts = 0;
        let alloc = self.assumptions.allocator();
        let variables = state.maps().inner_len();
        let numbers = numbers_in_use(alloc, state.maps())?;
        self.trail = Trail::new(alloc);
        self.trail.reserve(variables)?;
        self.order.prepare(numbers.as_slice(), phase)?;
        self.watches.prepare(state.clauses(), variables)?;
        self.assumptions = List::from_slice(alloc, assumptions)?;
        self.positions.clear();
        self.next = 0;
        Ok(())
    }

    /// Assigns what the clauses give.
    pub fn propagate(&mut self, state: &PrivateState) -> Found
        requires { AtMove state.now self.old }
        ensures at { AtMove state.now self.new }
        ensures found { IsTrue (is_right state.now.store.held self.new.trail.steps result) }
        ensures rises { trail_number (length (in_use state.now.maps)) self.old.trail.steps
            ≤ trail_number (length (in_use state.now.maps)) self.new.trail.steps }
        ensures same { self.new ≡ record self.old { trail = self.new.trail; watches = self.new.watches } }
    {
        self.watches.propagate(state.clauses(), &mut self.trail)
    }
}
