ghost use Rattle.std.specs.Prelude.{◌≡◌, ◌<◌, [], true, Some, filter, length, option_map, IfOk, IsTrue};
ghost use Rattle.std.specs.List.{list_any};
ghost use Rattle.sat_lits.specs.InLits.{same_lit};
ghost use Rattle.clause_store.specs.Store.{Held, IsKept, clause_at, is_live};
ghost use Rattle.indexed_store.specs.Lists.{is_in};
ghost use Rattle.var_elim.specs.Subsumption.{is_within, subsumes, subsumes_at};
ghost use Rattle.var_elim.specs.Dropping.{IsHard};
ghost use Rattle.var_elim.specs.Marked.{IsMarked};

use crate::marks::{has_marked, marks_of};
use clause_store::ClauseStore;
use private_state::PrivateState;
use sat_lits::{ClauseId, InLit, Inner, NoMemory};
use std::alloc::Global;
use std::collections::HashSet;

/// How long a clause may be whose literals are looked for one by one. Those of a longer one are
/// marked.
const MOST_COMPARED: usize = 8;

/// A hard clause, all of whose literals other clauses may have: its id, how many literals it has,
/// and the numbers of these.
#[derive(Drop)]
pub(crate) struct Subsumer {
    id: ClauseId,
    len: usize,
    marks: HashSet<u64>,
}

/// The hard clause of an id.
pub(crate) fn subsumer_of(
    alloc: Global,
    store: &ClauseStore,
    id: ClauseId,
) -> Result<Subsumer, NoMemory>
    requires { IsHard store.now.held id.0 }
    ensures marked { IfOk result (λ by. IsMarked store.now.held by) }
    ensures id { IfOk result (λ by. by.id ≡ id) }
{
    let lits = store.lits(id);
    let marks = marks_of(alloc, lits)?;
    Ok(Subsumer {
        id,
        len: lits.len(),
        marks,
    })
}

/// Whether an id is that of another hard clause, with all literals of a given one.
pub(crate) fn is_subsumed(store: &ClauseStore, by: &Subsumer, id: ClauseId) -> bool
    requires { IsMarked store.now.held by.now }
    ensures value { (h : Held) → clause_at store.now.held by.now.id.0 ≡ Some h → result ≡ subsumes_at h (clause_at store.now.held id.0) }
    ensures kept { IsKept store.now }
{
    if !store.is_live(id) || by.id == id {
        return false;
    }
    !store.is_learned(id) && has_marked(&by.marks, by.len, store.lits(id))
}

/// Whether a literal stands in a clause.
fn has_lit(lits: &[InLit], lit: InLit) -> bool
    ensures { result ≡ list_any (same_lit lit) lits.now }
{
    lits.iter().any(|other| lit.var == other.var && lit.negative == other.negative)
}

/// Whether all literals of a short clause stand in another.
fn is_within(inner: &[InLit], outer: &[InLit]) -> bool
    ensures { result ≡ is_within inner.now outer.now }
{
    inner.iter().all(|lit| has_lit(outer, *lit))
}

/// Whether an id is that of a hard clause, other than that of a given id, with all its literals.
fn stands_in(store: &ClauseStore, by: ClauseId, lits: &[InLit], id: ClauseId) -> bool
    requires { option_map (λ clause. clause.lits) (clause_at store.now.held by.0) ≡ Some lits.now }
    ensures { (h : Held) → clause_at store.now.held by.0 ≡ Some h → result ≡ subsumes_at h (clause_at store.now.held id.0) }
{
    if !store.is_live(id) || by == id {
        return false;
    }
    !store.is_learned(id) && is_within(lits, store.lits(id))
}

/// Whether no other hard clause has all literals of that of a live id. It takes no memory. It answers
/// no without a look where the clause is long, or has no literal.
pub(crate) fn stands_alone(state: &PrivateState, by: ClauseId) -> bool
    requires { IsTrue (is_live state.now.store.held by.0) }
    ensures { IsTrue result → (h : Held) → clause_at state.now.store.held by.0 ≡ Some h → filter (subsumes h) state.now.store.held ≡ [] }
{
    let store = state.clauses();
    let lits = store.lits(by);
    if lits.is_empty() || lits.len() > MOST_COMPARED {
        return false;
    }
    let ids = state.occurrences(rarest(state, lits));
    'each: for id in ids {
        if stands_in(store, by, lits, id.whole()) {
            return false;
        }
    }
    true
}

/// The variable of a literal that has the shortest occurrence list.
pub(crate) fn rarest(state: &PrivateState, lits: &[InLit]) -> Inner
    requires { 0 < length lits.now }
    ensures { list_any (is_in result.0) lits.now ≡ true }
{
    let mut best = lits[0].var;
    'each: for lit in lits {
        if state.occurrences(lit.var).len() < state.occurrences(best).len() {
            best = lit.var;
        }
    }
    best
}
