ghost use Rattle.std.specs.Prelude.{◌≡◌, ◌∷◌, [], Some, ℕ, false, if◌then◌else◌, filter, true, IfOk, OnErr, IsTrue};
ghost use Rattle.clause_store.specs.Store.{Held, IsKept, clause_at, is_live};
ghost use Rattle.indexed_store.specs.Occurrences.{clauses_at};
ghost use Rattle.state_laws.specs.Kernel.{state_of};
ghost use Rattle.sync_laws.specs.Met.{KeepsMet};
ghost use Rattle.var_elim.specs.Subsumption.{subsumes};
ghost use Rattle.var_elim.specs.Dropping.{IsHard, Drops, HasNoSubsumed, AreCovered, subsumes_none_at};
ghost use Rattle.var_elim.specs.Marked.{IsMarked};

use crate::subsume::{Subsumer, is_subsumed, rarest, stands_alone, subsumer_of};
use clause_store::ClauseStore;
use indexed_store::ShortId;
use private_state::PrivateState;
use sat_lits::{ClauseId, NoMemory};
use std::alloc::Global;

/// The ids of all clauses, in order of addition.
fn all_ids(alloc: Global, store: &ClauseStore) -> Result<Vec<ShortId>, NoMemory>
    ensures all { IfOk result (λ ids. clauses_at store.now.held ids.items ≡ store.now.held) }
    ensures kept { IsKept store.now }
{
    let mut ids = Vec::new(alloc);
    let mut at = store.first();
    'walk: while let Some(id) = at {
        ids.push(ShortId::of(id))?;
        at = store.after(id);
    }
    Ok(ids)
}

/// The ids of clauses among which are all hard ones that have the literals of that of a live id.
fn candidates(alloc: Global, state: &PrivateState, by: ClauseId) -> Result<Vec<ShortId>, NoMemory>
    requires { IsTrue (is_live state.now.store.held by.0) }
    ensures { IfOk result (λ ids. (h : Held) → clause_at state.now.store.held by.0 ≡ Some h
        → filter (subsumes h) (clauses_at state.now.store.held ids.items) ≡ filter (subsumes h) state.now.store.held) }
{
    let store = state.clauses();
    let lits = store.lits(by);
    if lits.is_empty() {
        return all_ids(alloc, store);
    }
    let var = rarest(state, lits);
    let ids = state.occurrences(var).to_vec(alloc)?;
    Ok(ids)
}

/// Drops the clause of an id, if it is a hard one other than a given one, with all its literals.
fn drop_if_subsumed(state: &mut PrivateState, by: &Subsumer, id: ClauseId) -> bool
    requires { IsMarked state.old.store.held by.now }
    ensures dropped { Drops (if result then 1 else 0) state.old.store.held state.new.store.held }
    ensures same { state.new ≡ record state.old { store = record state.old.store { held = state.new.store.held } } }
    ensures by { IsMarked state.new.store.held by.now }
    ensures none { result ≡ false → (h : Held) → clause_at state.old.store.held by.now.id.0 ≡ Some h → filter (subsumes h) (clauses_at state.old.store.held (record { 0 = id.0 } ∷ [])) ≡ [] }
{
    if !is_subsumed(state.clauses(), by, id) {
        return false;
    }
    state.drop_implied(id);
    true
}

/// Drops the hard clauses other than that of a hard one's id that have all its literals, and tells
/// how many. After want of memory nothing was dropped.
fn drop_all_by(alloc: Global, state: &mut PrivateState, id: ClauseId) -> Result<u64, NoMemory>
    requires { IsHard state.old.store.held id.0 }
    ensures dropped { IfOk result (λ n. Drops n state.old.store.held state.new.store.held) }
    ensures none { IfOk result (λ n. n ≡ 0 → (h : Held) → clause_at state.old.store.held id.0 ≡ Some h → filter (subsumes h) state.old.store.held ≡ []) }
    ensures same { state.new ≡ record state.old { store = record state.old.store { held = state.new.store.held } } }
    ensures err { OnErr result (state.new ≡ state.old) }
{
    let by = subsumer_of(alloc, state.clauses(), id)?;
    let ids = candidates(alloc, state, id)?;
    let mut dropped = 0;
    'each: for other in &ids {
        if drop_if_subsumed(state, &by, other.whole()) {
            dropped += 1;
        }
    }
    Ok(dropped)
}

/// The same where the id may be that of a learned clause or of none, for which nothing is dropped.
fn drop_all_by_any(alloc: Global, state: &mut PrivateState, id: ClauseId) -> Result<u64, NoMemory>
    ensures dropped { IfOk result (λ n. Drops n state.old.store.held state.new.store.held) }
    ensures none { IfOk result (λ n. n ≡ 0 → subsumes_none_at state.old.store.held (clause_at state.old.store.held id.0) ≡ true) }
    ensures same { state.new ≡ record state.old { store = record state.old.store { held = state.new.store.held } } }
    ensures err { OnErr result (state.new ≡ state.old) }
{
    if !state.clauses().is_live(id) || state.clauses().is_learned(id) {
        return Ok(0);
    }
    // Most clauses stand in no other, so they cost no memory.
    if stands_alone(state, id) {
        return Ok(0);
    }
    let dropped = drop_all_by(alloc, state, id)?;
    Ok(dropped)
}

/// Drops hard clauses that have all literals of another hard clause that stays, and tells how many
/// (Eén and Biere, 2005). Where none is dropped, there is no such pair. For each clause it looks at
/// the clauses that hold its rarest variable. The only error is want of memory, and some clauses may
/// be dropped then.
pub fn drop_subsumed(alloc: Global, state: &mut PrivateState) -> Result<u64, NoMemory>
    ensures dropped { IfOk result (λ n. Drops n state.old.store.held state.new.store.held) }
    ensures none { IfOk result (λ n. n ≡ 0 → HasNoSubsumed state.new.store.held) }
    ensures some { (n : ℕ) × Drops n state.old.store.held state.new.store.held }
    ensures covered { AreCovered state.old.store.held state.new.store.held }
    ensures same { state.new ≡ record state.old { store = record state.old.store { held = state.new.store.held } } }
    ensures met { KeepsMet (state_of state.old) (state_of state.new) }
{
    let ids = all_ids(alloc, state.clauses())?;
    let mut dropped = 0;
    'each: for id in &ids {
        let more = drop_all_by_any(alloc, state, id.whole())?;
        dropped += more;
    }
    Ok(dropped)
}
