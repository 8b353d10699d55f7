ghost use Rattle.std.specs.Prelude.{◌≡◌, ◌++◌, true, Some, IfOk, IfSome, IsSome, IsTrue, OnErr, ℕ, take, option_map, option_to_list, [], ◌∷◌};
ghost use Rattle.std.specs.List.{list_all};
ghost use Rattle.sat_lits.specs.InLits.{is_distinct};
ghost use Rattle.rebuild_stack.specs.Roots.{root, root_passes};
ghost use Rattle.rebuild_stack.specs.Entries.{named};
ghost use Rattle.rebuild_stack.specs.PutIn.{put_in};
ghost use Rattle.clause_store.specs.Store.{IsKept, clause_at, is_live};
ghost use Rattle.var_maps.specs.Maps.{Matched, inner_at};
ghost use Rattle.state_laws.specs.Held.{has_inner, own_clause, is_ready, touches, numbers, without_ids, Adds};
ghost use Rattle.removed_vars.specs.Fresh.{in_clauses, are_distinct, Collects, Listed};

use crate::literals::{in_lits, own_lits};
use crate::roots::{put_in_entry, var_of};
use clause_store::ClauseStore;
use indexed_store::IndexedStore;
use rebuild_stack::Entry;
use sat_lits::{ClauseId, InLit, List, NoMemory};
use std::alloc::Global;
use var_maps::VarMaps;

/// A clause that is to be stored.
#[derive(Drop)]
pub struct Fresh {
    pub learned: bool,
    pub lits: List<InLit>,
}

/// Clauses to be dropped, and what they become.
#[derive(Drop)]
pub struct Changes {
    pub doomed: Vec<ClauseId>,
    pub fresh: Vec<Fresh>,
}

/// Drops the clauses of ids, as far as they are live.
pub fn drop_all(store: &mut IndexedStore, ids: &[ClauseId])
    ensures { store.new ≡ without_ids (numbers ids.now) store.old }
{
    for id in ids {
        if store.store().is_live(*id) {
            store.drop_clause(*id);
        }
    }
}

/// Adds the clauses in order, and keeps their ids, as far as memory goes.
fn add_some(
    store: &mut IndexedStore,
    fresh: &[Fresh],
    ids: &mut Vec<ClauseId>,
) -> Result<(), NoMemory>
    requires empty { ids.old.items ≡ [] }
    requires distinct { are_distinct fresh.now ≡ true }
    ensures some { (n : ℕ) × Adds store.old store.new ids.new.items (take n (in_clauses fresh.now)) }
    ensures all { IfOk result (λ _. Adds store.old store.new ids.new.items (in_clauses fresh.now)) }
{
    'each: for clause in fresh {
        ids.reserve(1)?;
        let id = store.add(clause.lits.as_slice(), clause.learned)?;
        ids.push(id)?;
    }
    Ok(())
}

/// Adds all the clauses, and tells their ids, or none of them. The only error is want of memory.
pub fn add_all(
    alloc: Global,
    store: &mut IndexedStore,
    fresh: &[Fresh],
) -> Result<Vec<ClauseId>, NoMemory>
    requires kept { IsKept store.old }
    requires distinct { are_distinct fresh.now ≡ true }
    ensures ok { IfOk result (λ ids. Adds store.old store.new ids.items (in_clauses fresh.now)) }
    ensures err { OnErr result (store.new.held ≡ store.old.held) }
    ensures mark { store.new.mark ≡ store.old.mark }
{
    let mut ids = Vec::new(alloc);
    if let Err(error) = add_some(store, fresh, &mut ids) {
        drop_all(store, &ids);
        return Err(error);
    }
    Ok(ids)
}

/// What putting an entry in makes of a stored clause, as it is to be stored.
fn put_in_stored(
    alloc: Global,
    maps: &VarMaps,
    entry: &Entry,
    lits: &[InLit],
) -> Result<Option<List<InLit>>, NoMemory>
    requires { list_all (λ l. root_passes (has_inner maps.now) (root (entry.now ∷ []) l)) (own_clause maps.now lits.now) ≡ true }
    ensures value { IfOk result (λ stored. option_map (own_clause maps.now) stored ≡ put_in (root (entry.now ∷ [])) (own_clause maps.now lits.now)) }
    ensures distinct { IfOk result (λ stored. IfSome stored (λ clause. IsTrue (is_distinct clause))) }
{
    let own = own_lits(alloc, maps, lits)?;
    let Some(clause) = put_in_entry(alloc, entry, own.as_slice())? else {
        return Ok(None);
    };
    let stored = in_lits(alloc, maps, clause.as_slice())?;
    Ok(Some(stored))
}

/// What putting an entry in makes of the clause of a live id, which holds the entry's variable.
fn collect_live(
    alloc: Global,
    maps: &VarMaps,
    store: &ClauseStore,
    entry: &Entry,
    id: ClauseId,
    to: &mut Changes,
) -> Result<(), NoMemory>
    requires live { IsTrue (is_live store.now.held id.0) }
    requires touched { IfSome (clause_at store.now.held id.0) (λ clause. IsTrue (touches maps.now (named entry.now) clause)) }
    requires ready { list_all (is_ready maps.now (root (entry.now ∷ [])) (named entry.now)) store.now.held ≡ true }
    ensures { IfOk result (λ _. (held : Listed) → Collects maps.now (root (entry.now ∷ [])) (named entry.now) held to.old
        → Collects maps.now (root (entry.now ∷ [])) (named entry.now) (held ++ option_to_list (clause_at store.now.held id.0)) to.new) }
{
    let lits = store.lits(id);
    if let Some(lits) = put_in_stored(alloc, maps, entry, lits)? {
        let learned = store.is_learned(id);
        to.fresh.push(Fresh { learned, lits })?;
    }
    to.doomed.push(id)?;
    Ok(())
}

/// What putting an entry in makes of the clause of an id, if the id is live.
fn collect_one(
    alloc: Global,
    maps: &VarMaps,
    store: &ClauseStore,
    entry: &Entry,
    id: ClauseId,
    to: &mut Changes,
) -> Result<(), NoMemory>
    requires touched { IfSome (clause_at store.now.held id.0) (λ clause. IsTrue (touches maps.now (named entry.now) clause)) }
    requires ready { list_all (is_ready maps.now (root (entry.now ∷ [])) (named entry.now)) store.now.held ≡ true }
    ensures { IfOk result (λ _. (held : Listed) → Collects maps.now (root (entry.now ∷ [])) (named entry.now) held to.old
        → Collects maps.now (root (entry.now ∷ [])) (named entry.now) (held ++ option_to_list (clause_at store.now.held id.0)) to.new) }
{
    if store.is_live(id) {
        collect_live(alloc, maps, store, entry, id, to)?;
    }
    Ok(())
}

/// What putting an entry in makes of the clauses that hold its variable: each of them is to be
/// dropped, and what it becomes is to be stored, unless it is satisfied or a tautology. The only
/// error is want of memory.
pub fn collect(
    alloc: Global,
    maps: &VarMaps,
    store: &IndexedStore,
    entry: &Entry,
) -> Result<Changes, NoMemory>
    requires active { IsSome (inner_at maps.now (named entry.now)) }
    requires ready { list_all (is_ready maps.now (root (entry.now ∷ [])) (named entry.now)) store.now.held ≡ true }
    ensures collected { IfOk result (λ to. Collects maps.now (root (entry.now ∷ [])) (named entry.now) store.now.held to) }
    ensures matched { Matched maps.now }
    ensures kept { IsKept store.now }
{
    let var = maps.to_inner(var_of(entry)).unwrap();
    let ids = store.occurrences(var);
    let mut to = Changes {
        doomed: Vec::new(alloc),
        fresh: Vec::new(alloc),
    };
    'walk: for id in ids {
        collect_one(alloc, maps, store.store(), entry, id.whole(), &mut to)?;
    }
    Ok(to)
}
