ghost use Rattle.std.specs.Prelude.{◌≡◌, ◌↔◌, ◌<◌, length, map, filter, IfOk, OnOk, IsTrue};
ghost use Rattle.clause_store.specs.Store.{IsKept, is_live};
ghost use Rattle.one_solver.specs.Learned.{is_long, is_long_at, noted, numbers_in, HasForgotten, KeepsNewest};

use clause_store::ClauseStore;
use private_state::PrivateState;
use sat_lits::{ClauseId, NoMemory};
use std::alloc::Global;

/// The ids of the learned clauses of more than two literals, oldest first.
pub fn long_learned(alloc: Global, store: &ClauseStore) -> Result<Vec<ClauseId>, NoMemory>
    ensures ids { IfOk result (λ ids. map (λ id. id.0) ids.items ≡ map (λ clause. clause.id) (filter is_long store.now.held)) }
    ensures kept { IsKept store.now }
{
    let mut ids = Vec::new(alloc);
    let mut at = store.first();
    'walk: while let Some(id) = at {
        if is_long_learned(store, id) {
            ids.push(id)?;
        }
        at = store.after(id);
    }
    Ok(ids)
}

/// Appends the id of a live clause to a list, where there is one and the clause is a learned one of
/// more than two literals. The only error is want of memory.
pub fn note_long(
    ids: &mut Option<Vec<ClauseId>>,
    store: &ClauseStore,
    id: ClauseId,
) -> Result<(), NoMemory>
    requires { IsTrue (is_live store.now.held id.0) }
    ensures { OnOk result (numbers_in ids.new ≡ noted (is_long_at store.now.held id.0) id.0 (numbers_in ids.old)) }
{
    if let Some(list) = ids {
        if is_long_learned(store, id) {
            list.push(id)?;
        }
    }
    Ok(())
}

/// Drops the learned clauses of more than two literals, whose ids these are, but for so many of the
/// newest, and tells whether one was dropped. The others keep their ids.
pub fn drop_old(state: &mut PrivateState, ids: &[ClauseId], keep: usize) -> bool
    requires kept { IsKept state.old.store }
    requires ids { map (λ id. id.0) ids.now ≡ map (λ clause. clause.id) (filter is_long state.old.store.held) }
    ensures forgotten { HasForgotten state.old state.new }
    ensures newest { KeepsNewest keep state.old.store.held state.new.store.held }
    ensures some { IsTrue result ↔ (keep < length ids.now) }
{
    let old = ids.len().saturating_sub(keep);
    for id in &ids[..old] {
        state.drop_learned(*id);
    }
    old > 0
}

/// Whether the clause of a live id is a learned one of more than two literals.
fn is_long_learned(store: &ClauseStore, id: ClauseId) -> bool
    requires { IsTrue (is_live store.now.held id.0) }
    ensures { result ≡ is_long_at store.now.held id.0 }
{
    store.is_learned(id) && store.lits(id).len() > 2
}
