ghost use Rattle.std.specs.Prelude.{◌≡◌, None, map, filter, IfOk, OnOk, IsTrue};
ghost use Rattle.clause_store.specs.Store.{IsKept, contents, is_live};
ghost use Rattle.state_laws.specs.Kernel.{state_of, TookSame};
ghost use Rattle.sync_laws.specs.Met.{KeepsMet};
ghost use Rattle.one_solver.specs.Basic.{IsBasic};
ghost use Rattle.one_solver.specs.Learned.{is_long, HasFewLong, NotesLong};
ghost use Rattle.one_solver.specs.Units.{HasNoUnits};

use crate::learned::{drop_old, long_learned};
use crate::units::fix_each;
use clause_store::ClauseStore;
use private_state::PrivateState;
use sat_lits::{ClauseId, NoMemory};
use std::alloc::Global;

/// Fixes the literals of the clauses of one literal, keeps so many learned clauses of more than two
/// literals, the newest ones, and gives the clauses new ids once, where that changed any. One walk
/// over the clauses does both; a second one is made only where the state is refuted. After want of
/// memory some literals may be fixed.
pub fn tidy(alloc: Global, state: &mut PrivateState, keep: usize) -> Result<(), NoMemory>
    requires basic { IsBasic state.old }
    ensures basic { IsBasic state.new }
    ensures same { TookSame state.old state.new }
    ensures met { KeepsMet (state_of state.old) (state_of state.new) }
    ensures left { OnOk result (IsTrue state.new.okay → HasNoUnits state.new) }
    ensures few { OnOk result (HasFewLong keep state.new) }
{
    let mut noted = Some(Vec::new(alloc));
    let is_fixed = fix_each(state, &mut noted)?;
    let ids = long_of(alloc, state.clauses(), noted)?;
    let is_dropped = drop_old(state, &ids, keep);
    compact_where(state, is_fixed || is_dropped);
    Ok(())
}

/// The ids of the learned clauses of more than two literals, oldest first: the live ones of those
/// that a walk noted, or, where none did, those that a walk finds. The only error is want of memory.
fn long_of(
    alloc: Global,
    store: &ClauseStore,
    noted: Option<Vec<ClauseId>>,
) -> Result<Vec<ClauseId>, NoMemory>
    requires { NotesLong store.now None noted }
    ensures ids { IfOk result (λ ids. map (λ id. id.0) ids.items ≡ map (λ clause. clause.id) (filter is_long store.now.held)) }
    ensures kept { IfOk result (λ _. IsKept store.now) }
{
    match noted {
        Some(ids) => Ok(live_of(store, ids)),
        None => long_learned(alloc, store),
    }
}

/// The live ids of a list.
fn live_of(store: &ClauseStore, ids: Vec<ClauseId>) -> Vec<ClauseId>
    ensures ids { map (λ id. id.0) result.items ≡ filter (is_live store.now.held) (map (λ id. id.0) ids.items) }
    ensures kept { IsKept store.now }
{
    // That the store keeps what every store does is known from here on.
    let _first = store.first();
    let mut live = ids;
    live.retain(|id| store.is_live(*id));
    live
}

/// Gives every clause its id anew, where some changed.
fn compact_where(state: &mut PrivateState, has_changed: bool)
    ensures same { state.new ≡ record state.old { store = state.new.store } }
    ensures clauses { contents state.new.store.held ≡ contents state.old.store.held }
    ensures state { state_of state.new ≡ state_of state.old }
{
    if has_changed {
        state.compact();
    }
}
