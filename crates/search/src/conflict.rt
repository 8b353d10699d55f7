ghost use Rattle.std.specs.Prelude.{◌≡◌, ◌≤◌, ◌<◌, ◌+◌, ◌^◌, length, slice_index_or, take, IfOk, OnOk, OnErr, IsTrue};
ghost use Rattle.trail.specs.Trail.{level_of, back_to};
ghost use Rattle.propagate.specs.Units.{false_clause};
ghost use Rattle.propagate.specs.Reasons.{names};
ghost use Rattle.clause_store.specs.Store.{IsKept};
ghost use Rattle.analyze.specs.Counting.{saturated};
ghost use Rattle.analyze.specs.LearnedClauses.{ClauseFollows, IsLearned, has_each_once};
ghost use Rattle.pick_order.specs.Orders.{HasPassedSet, HasSamePassed};
ghost use Rattle.search_laws.specs.TrailNumber.{trail_number};
ghost use Rattle.search.specs.InUse.{in_use, lits_among};
ghost use Rattle.search.specs.Ordering.{vars_ordered, steps_ordered, HasSame};
ghost use Rattle.search.specs.Learning.{HasAdded, HasLearned};
ghost use Rattle.search.specs.Searching.{AtMove, EndsShort, gone_back};

use crate::work::Work;
use analyze::{Learned, Tally};
use pick_order::PickOrder;
use private_state::PrivateState;
use sat_lits::{ClauseId, InLit, Inner, NoMemory};
use trail::Trail;

impl Work {
    /// Learns a clause from a conflict above level 0, adds it to the state, goes back to where it
    /// is unit, and assigns its literal.
    pub fn learn_from(
        &mut self,
        state: &mut PrivateState,
        conflict: ClauseId,
        tally: &mut Tally,
    ) -> Result<(), NoMemory>
        requires at { AtMove state.old self.old }
        requires conflict { IsTrue (names state.old.store.held conflict (false_clause self.old.trail.steps)) }
        requires level { 0 < level_of self.old.trail.steps }
        ensures at { OnOk result (AtMove state.new self.new) }
        ensures learned { OnOk result (HasLearned state.old state.new 1) }
        ensures counted { OnOk result (self.new.conflicts ≡ self.old.conflicts + 1) }
        ensures tallied { OnOk result (tally.new ≡ saturated tally.old 1) }
        ensures rises { OnOk result (trail_number (length (in_use state.old.maps)) self.old.trail.steps
            < trail_number (length (in_use state.old.maps)) self.new.trail.steps) }
        ensures assumptions { self.new.assumptions ≡ self.old.assumptions }
        ensures err { OnErr result (EndsShort state.old state.new self.old.conflicts self.new.conflicts tally.old tally.new) }
    {
        let learned = self.analyze(state, conflict, tally)?;
        let lits = learned.lits.as_slice();
        let id = add_clause(state, lits)?;
        self.watches.attach(state.clauses(), id)?;
        self.go_back(learned.back);
        self.trail.assign(lits[0], Some(id));
        Ok(())
    }

    /// Learns a clause from a conflict above level 0, counts it, prefers the variables that were met
    /// from now on, and lets go of what is above its level.
    fn analyze(
        &mut self,
        state: &PrivateState,
        conflict: ClauseId,
        tally: &mut Tally,
    ) -> Result<Learned, NoMemory>
        requires at { AtMove state.now self.old }
        requires conflict { IsTrue (names state.now.store.held conflict (false_clause self.old.trail.steps)) }
        requires level { 0 < level_of self.old.trail.steps }
        ensures learned { IfOk result (λ learned. IsLearned state.now.store.held self.old.trail.steps learned.lits learned.back) }
        ensures order { OnOk result (HasSame self.old.order.known self.new.order.known) }
        ensures passed { IfOk result (λ learned. HasPassedSet self.new.order (back_to learned.back self.old.trail.steps)) }
        ensures counted { OnOk result (self.new.conflicts ≡ saturated self.old.conflicts 1) }
        ensures tallied { OnOk result (tally.new ≡ saturated tally.old 1) }
        ensures conflicts { OnErr result (self.new.conflicts ≡ self.old.conflicts) }
        ensures tally { OnErr result (tally.new ≡ tally.old) }
        ensures same { self.new ≡ record self.old { order = self.new.order; analyzer = self.new.analyzer; conflicts = self.new.conflicts } }
        ensures kept { OnOk result (IsKept state.now.store) }
        ensures range { OnOk result (self.old.conflicts < 2 ^ 64) }
    {
        let store = state.clauses();
        let learned = self.analyzer.learn(store, &self.trail, conflict, tally)?;
        self.conflicts = self.conflicts.saturating_add(1);
        prefer(&mut self.order, self.analyzer.met());
        let_go(&mut self.order, &self.trail, learned.back);
        Ok(learned)
    }

    /// Goes back to a level.
    fn go_back(&mut self, level: u32)
        ensures { self.new ≡ gone_back level self.old }
    {
        self.trail.back_to(level);
        self.watches.rewind(self.trail.lits().len());
        if let Some(next) = self.positions.as_slice().get(level as usize) {
            self.next = *next;
        }
        self.positions.truncate(level as usize);
    }
}

/// Adds a learned clause to a state, where it follows from the clauses that are held.
fn add_clause(state: &mut PrivateState, lits: &[InLit]) -> Result<ClauseId, NoMemory>
    requires active { IsTrue (lits_among (in_use state.old.maps) lits.now) }
    requires once { IsTrue (has_each_once lits.now) }
    requires follows { ClauseFollows state.old.store.held lits.now }
    ensures ok { IfOk result (λ id. HasAdded state.old state.new lits.now id.0) }
    ensures range { IfOk result (λ id. id.0 < 2 ^ 64) }
    ensures err { OnErr result (state.new ≡ state.old) }
{
    // That the maps match is known from here on.
    let _len = state.maps().inner_len();
    let id = state.learn(lits)?;
    Ok(id)
}

/// Bumps the variables that a conflict met. Those of later conflicts count more.
fn prefer(order: &mut PickOrder, met: &[Inner])
    requires { IsTrue (vars_ordered order.old.known met.now) }
    ensures same { HasSame order.old.known order.new.known }
    ensures passed { HasSamePassed order.old order.new }
{
    bump_all(order, met);
    order.grow_increment();
}

/// Bumps variables.
fn bump_all(order: &mut PickOrder, vars: &[Inner])
    requires { IsTrue (vars_ordered order.old.known vars.now) }
    ensures same { HasSame order.old.known order.new.known }
    ensures passed { HasSamePassed order.old order.new }
{
    for var in vars {
        order.bump(*var);
    }
}

/// Keeps the signs of the literals above a level, which are about to be taken back, and puts their
/// variables back into the order.
fn let_go(order: &mut PickOrder, trail: &Trail, level: u32)
    requires steps { IsTrue (steps_ordered order.old.known trail.now.steps) }
    requires passed { HasPassedSet order.old trail.now.steps }
    ensures same { HasSame order.old.known order.new.known }
    ensures passed { HasPassedSet order.new (back_to level trail.now.steps) }
{
    let lits = trail.lits();
    for place in (0..lits.len()).rev() {
        let lit = lits[place];
        if trail.level_of(lit.var).unwrap_or(0) <= level {
            return;
        }
        order.keep_phase(lit);
        order.put_back(lit.var);
    }
}
