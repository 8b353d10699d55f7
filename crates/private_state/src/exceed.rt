ghost use Rattle.std.specs.Prelude.{◌≡◌, ◌<◌, ◌≤◌, ◌∷◌, [], true, false, filter, length, sum_by, if◌then◌else◌, IfSome, IsNone, IsSome, IsTrue};
ghost use Rattle.std.specs.List.{list_all};
ghost use Rattle.rebuild_stack.specs.PutIn.{is_clean};
ghost use Rattle.rebuild_stack.specs.Values.{each_lit};
ghost use Rattle.clause_store.specs.Store.{hard_of};
ghost use Rattle.indexed_store.specs.Occurrences.{clauses_at};
ghost use Rattle.var_maps.specs.Maps.{inner_at};
ghost use Rattle.state_laws.specs.Held.{has_inner, own_clauses};
ghost use Rattle.state_laws.specs.Resolution.{mentions};
ghost use Rattle.indexed_store.specs.Bounds.{are_bounded};
ghost use Rattle.private_state.specs.Pairs.{hard_at, holds_lit, is_apart, may_join, joins_right, count_right, count_pairs};

use clause_store::ClauseStore;
use indexed_store::{IndexedStore, ShortId};
use sat_lits::{ClauseId, InLit, Inner, Own};
use var_maps::VarMaps;

/// How many clauses an elimination may take out, with both signs.
const MOST_HARD: usize = 32;

/// Whether a clause holds the literal of a variable that is negative, or positive.
fn has_lit(lits: &[InLit], var: Inner, negative: bool) -> bool
    ensures { result ≡ holds_lit var.0 negative lits.now }
{
    lits.iter()
        .any(|lit| lit.var == var && negative == lit.negative)
}

/// Whether the negation of no positive literal of a clause, but that of a variable, stands in another.
fn is_apart(var: Inner, from: &[InLit], to: &[InLit]) -> bool
    ensures { result ≡ is_apart var.0 from.now to.now }
{
    from.iter().all(|lit| lit.negative || lit.var == var || !has_lit(to, lit.var, true))
}

/// Whether two clauses, but for a variable, have no opposite literals.
fn may_join(var: Inner, left: &[InLit], right: &[InLit]) -> bool
    ensures { result ≡ may_join var.0 left.now right.now }
{
    is_apart(var, left, right) && is_apart(var, right, left)
}

/// The literals of the clause of an id, if there is one and it is hard.
fn hard_lits(store: &ClauseStore, id: ClauseId) -> Option<&[InLit]>
    ensures none { IsNone result → hard_at store.now.held id.0 ≡ [] }
    ensures some { IfSome result (λ lits. hard_at store.now.held id.0 ≡ lits.now ∷ []) }
{
    if !store.is_live(id) || store.is_learned(id) {
        return None;
    }
    Some(store.lits(id))
}

/// Whether the clause of an id is joined with another one, from its left.
fn joins_at(store: &ClauseStore, var: Inner, left: &[InLit], id: ClauseId) -> bool
    ensures { length (filter (joins_right var.0 left.now) (hard_at store.now.held id.0)) ≡ (if result then 1 else 0) }
{
    match hard_lits(store, id) {
        Some(right) => !has_lit(right, var, false) && may_join(var, left, right),
        None => false,
    }
}

/// With how many of the clauses of ids a clause is joined.
fn count_right(store: &ClauseStore, ids: &[ShortId], var: Inner, left: &[InLit]) -> usize
    ensures value { result ≡ length (filter (joins_right var.0 left.now) (hard_of (clauses_at store.now.held ids.now))) }
    ensures few { result ≤ length ids.now }
{
    let mut count = 0;
    'each: for id in ids {
        if joins_at(store, var, left, id.whole()) {
            count += 1;
        }
    }
    count
}

/// The same for the clause of an id.
fn count_right_at(store: &ClauseStore, ids: &[ShortId], var: Inner, id: ClauseId) -> usize
    ensures value { result ≡ sum_by (count_right var.0 (hard_of (clauses_at store.now.held ids.now))) (hard_at store.now.held id.0) }
    ensures few { result ≤ length ids.now }
{
    match hard_lits(store, id) {
        Some(left) if !has_lit(left, var, true) => count_right(store, ids, var, left),
        _ => 0,
    }
}

/// Whether more than `most` pairs of the clauses of ids are joined. It stops as soon as that is known.
fn are_more(store: &ClauseStore, ids: &[ShortId], var: Inner, most: usize) -> bool
    requires { most ≤ length ids.now }
    ensures { IsTrue result → most < count_pairs var.0 (hard_of (clauses_at store.now.held ids.now)) }
{
    let mut count = 0;
    'each: for id in ids {
        count += count_right_at(store, ids, var, id.whole());
        if count > most {
            return true;
        }
    }
    false
}

/// Whether there is a clause of an id, and it is hard.
fn is_hard(store: &ClauseStore, id: ClauseId) -> bool
    ensures { length (hard_at store.now.held id.0) ≡ (if result then 1 else 0) }
{
    match hard_lits(store, id) {
        Some(_) => true,
        None => false,
    }
}

/// How many of the clauses of ids are hard.
fn count_hard(store: &ClauseStore, ids: &[ShortId]) -> usize
    ensures value { result ≡ length (hard_of (clauses_at store.now.held ids.now)) }
    ensures few { result ≤ length ids.now }
{
    let mut count = 0;
    'each: for id in ids {
        if is_hard(store, id.whole()) {
            count += 1;
        }
    }
    count
}

/// Whether an active variable is in too many hard clauses to meet the bound of elimination, or they
/// have too many resolvents. It takes no memory. Where the answer is no, the bound may still not be
/// met.
pub(crate) fn exceeds_bound(maps: &VarMaps, store: &IndexedStore, var: Own) -> bool
    requires there { IsSome (inner_at maps.now var.0) }
    requires clean { list_all is_clean (filter (mentions var.0) (own_clauses maps.now (hard_of store.now.held))) ≡ true }
    requires active { each_lit (has_inner maps.now) (filter (mentions var.0) (own_clauses maps.now (hard_of store.now.held))) ≡ true }
    ensures { IsTrue result → are_bounded var.0 (filter (mentions var.0) (own_clauses maps.now (hard_of store.now.held))) ≡ false }
{
    let inner = maps.to_inner(var).unwrap();
    let ids = store.occurrences(inner);
    let hard = count_hard(store.store(), ids);
    if hard > MOST_HARD {
        return true;
    }
    are_more(store.store(), ids, inner, hard)
}
