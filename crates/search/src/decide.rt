ghost use Rattle.std.specs.Prelude.{◌≡◌, ◌≤◌, ◌<◌, ◌+◌, ◌^◌, ◌∷◌, ◌++◌, [], None, true, false, length, slice_index_or, unwrap_or, ℕ, IfOk, IfSome, IfNone, OnOk, IsTrue};
ghost use Rattle.trail.specs.Trail.{level_of, unset_in, false_in, value_in};
ghost use Rattle.propagate.specs.Units.{all_quiet};
ghost use Rattle.propagate.specs.Reasons.{reasoned};
ghost use Rattle.search_laws.specs.TrailNumber.{trail_number};
ghost use Rattle.search.specs.InUse.{in_use};
ghost use Rattle.search.specs.Assumed.{HasAssumed, assumption_at, positive};
ghost use Rattle.search.specs.Answers.{AnswersRight, AreFailed, is_found};
ghost use Rattle.search.specs.Searching.{AtMove, with_step};

use crate::answer::IntervalAnswer;
use crate::work::Work;
use clause_store::ClauseStore;
use private_state::PrivateState;
use sat_lits::{InLit, Inner, List, NoMemory};
use std::alloc::Global;
use trail::Trail;

impl Work {
    /// Decides the next literal where no clause is false or unit, and answers None, or finds that
    /// the interval has an answer.
    pub fn advance(&mut self, state: &PrivateState) -> Option<IntervalAnswer>
        requires at { AtMove state.now self.old }
        requires quiet { IsTrue (all_quiet self.old.trail.steps state.now.store.held) }
        ensures at { IfNone result (AtMove state.now self.new) }
        ensures rises { IfNone result (trail_number (length (in_use state.now.maps)) self.old.trail.steps
            < trail_number (length (in_use state.now.maps)) self.new.trail.steps) }
        ensures right { IfSome result (AnswersRight state.now self.old.assumptions 0 0) }
        ensures found { IfSome result (λ answer. IsTrue (is_found answer)) }
        ensures conflicts { self.new.conflicts ≡ self.old.conflicts }
        ensures assumptions { self.new.assumptions ≡ self.old.assumptions }
    {
        self.skip_true();
        let Some(lit) = self.assumptions.as_slice().get(self.next as usize).copied() else {
            return self.pick(state);
        };
        if self.trail.value(lit).is_none() {
            return match self.assume(lit) {
                Ok(()) => None,
                Err(NoMemory) => Some(IntervalAnswer::Memory),
            };
        }
        match self.failed(state.clauses(), lit) {
            Ok(positions) => Some(IntervalAnswer::Failed(positions)),
            Err(NoMemory) => Some(IntervalAnswer::Memory),
        }
    }

    /// Passes the next assumptions as far as they are true.
    fn skip_true(&mut self)
        requires assumes { HasAssumed self.old.assumptions self.old.positions self.old.next self.old.trail.steps }
        requires few { length self.old.assumptions < 2 ^ 32 }
        ensures assumes { HasAssumed self.new.assumptions self.new.positions self.new.next self.new.trail.steps }
        ensures stops { self.new.next < length self.new.assumptions
            → unwrap_or (value_in self.new.trail.steps (assumption_at self.new.assumptions self.new.next)) false ≡ false }
        ensures same { self.new ≡ record self.old { next = self.new.next } }
    {
        // The trail's own facts are known from here on.
        let _level = self.trail.level();
        'skip: while (self.next as usize) < self.assumptions.as_slice().len() {
            let lit = self.assumptions.as_slice()[self.next as usize];
            if !self.trail.value(lit).unwrap_or(false) {
                return;
            }
            self.next += 1;
        }
    }

    /// Decides the next assumption, which is unset.
    fn assume(&mut self, lit: InLit) -> Result<(), NoMemory>
        requires reserved { lit.var.0 < self.old.trail.reserved }
        requires unset { IsTrue (unset_in self.old.trail.steps lit) }
        requires next { self.old.next < length self.old.assumptions }
        requires few { length self.old.assumptions < 2 ^ 32 }
        ensures ok { OnOk result (self.new ≡ record (with_step (record { lit = lit; level = level_of self.old.trail.steps + 1; reason = None }) self.old)
            { positions = self.old.positions ++ self.old.next ∷ []; next = self.old.next + 1 }) }
        ensures conflicts { self.new.conflicts ≡ self.old.conflicts }
        ensures assumptions { self.new.assumptions ≡ self.old.assumptions }
    {
        self.positions.push(self.next)?;
        self.next += 1;
        self.trail.decide(lit);
        Ok(())
    }

    /// Decides an unset variable, or gives the model where there is none.
    fn pick(&mut self, state: &PrivateState) -> Option<IntervalAnswer>
        requires at { AtMove state.now self.old }
        requires quiet { IsTrue (all_quiet self.old.trail.steps state.now.store.held) }
        requires next { length self.old.assumptions ≤ self.old.next }
        ensures at { IfNone result (AtMove state.now self.new) }
        ensures rises { IfNone result (trail_number (length (in_use state.now.maps)) self.old.trail.steps
            < trail_number (length (in_use state.now.maps)) self.new.trail.steps) }
        ensures right { IfSome result (AnswersRight state.now self.old.assumptions 0 0) }
        ensures found { IfSome result (λ answer. IsTrue (is_found answer)) }
        ensures conflicts { self.new.conflicts ≡ self.old.conflicts }
        ensures assumptions { self.new.assumptions ≡ self.old.assumptions }
    {
        if let Some(lit) = self.order.next_candidate(&self.trail) {
            self.trail.decide(lit);
            return None;
        }
        let alloc = self.assumptions.allocator();
        match values_of(alloc, &self.trail, state.maps().inner_len()) {
            Ok(values) => Some(IntervalAnswer::Model(values)),
            Err(NoMemory) => Some(IntervalAnswer::Memory),
        }
    }

    /// The positions of the assumptions that contradict the next one, which is false, and its own.
    fn failed(&mut self, store: &ClauseStore, lit: InLit) -> Result<List<u32>, NoMemory>
        requires assumes { HasAssumed self.old.assumptions self.old.positions self.old.next self.old.trail.steps }
        requires reasons { reasoned store.now.held self.old.trail.steps ≡ true }
        requires next { self.old.next < length self.old.assumptions }
        requires lit { lit ≡ assumption_at self.old.assumptions self.old.next }
        requires lit_false { IsTrue (false_in self.old.trail.steps lit) }
        ensures failed { IfOk result (AreFailed store.now.held self.old.assumptions) }
        ensures same { self.new ≡ record self.old { analyzer = self.new.analyzer } }
    {
        let levels = self.analyzer.final_set(store, &self.trail, lit)?;
        let mut failed = List::new(levels.allocator());
        for level in levels.as_slice() {
            failed.push(self.positions.as_slice()[*level as usize - 1])?;
        }
        failed.push(self.next)?;
        Ok(failed)
    }
}

/// The values of the variables below a number, false where one is unset.
fn values_of(alloc: Global, trail: &Trail, variables: u32) -> Result<List<bool>, NoMemory>
    ensures long { IfOk result (λ values. length values ≡ variables) }
    ensures each { IfOk result (λ values. (v : ℕ) → v < variables
        → slice_index_or values v false ≡ unwrap_or (value_in trail.now.steps (positive v)) false) }
{
    let mut values = List::new(alloc);
    for variable in 0..variables {
        let lit = InLit {
            var: Inner(variable),
            negative: false,
        };
        values.push(trail.value(lit).unwrap_or(false))?;
    }
    Ok(values)
}
