ghost use Rattle.std.specs.Prelude.{◌≡◌, ◌≢◌, ◌≤◌, true, take, length, IfOk, OnOk, IsTrue, All};
ghost use Rattle.clause_store.specs.Store.{is_live};
ghost use Rattle.indexed_store.specs.Lists.{are_below, ids_rise};
ghost use Rattle.share_store.specs.Log.{HasClause};
ghost use Rattle.state_laws.specs.Kernel.{state_of, Standing};
ghost use Rattle.var_maps.specs.Maps.{Matched};
ghost use Rattle.sync_laws.specs.Told.{IsToldClause, IsTold, in_order};
ghost use Rattle.data_sync.specs.Giving.{Gives, KeepsTurns, IsToldAt, stored_outer};

use crate::giving::give;
use indexed_store::ShortId;
use private_state::PrivateState;
use sat_lits::{ClauseId, InLit, Lit, NoMemory};
use share_store::Store;
use smallvec::SmallVec;
use std::alloc::Global;
use var_maps::VarMaps;

/// The caller's literal that a stored one stands for. None comes exactly where it stands for none.
fn outer_in(maps: &VarMaps, lit: InLit) -> Option<Lit>
    ensures value { result ≡ stored_outer maps.now lit }
    ensures matched { Matched maps.now }
{
    let own = maps.at_inner(lit.var)?;
    let var = maps.to_outer(own)?;
    Some(Lit {
        var,
        negative: lit.negative,
    })
}

/// Two literals of different variables as a clause, in the order of their variables. It takes no
/// allocation.
fn pair_of(alloc: Global, first: Lit, second: Lit) -> Result<SmallVec<Lit, 2>, NoMemory>
    ensures { IfOk result (λ clause. clause.items ≡ in_order first second) }
{
    if first.var.0 < second.var.0 {
        return Ok(SmallVec::from_slice(alloc, &[first, second])?);
    }
    Ok(SmallVec::from_slice(alloc, &[second, first])?)
}

/// Offers two literals of the caller, in the order of their variables.
fn offer_pair(
    alloc: Global,
    store: &mut Store,
    solver: u32,
    after: u64,
    first: Lit,
    second: Lit,
) -> Result<(), NoMemory>
    requires different { first.var.0 ≢ second.var.0 }
    requires earlier { after ≤ length store.old }
    ensures has { OnOk result (HasClause store.new (in_order first second)) }
    ensures gives { Gives store.old store.new solver after (in_order first second) }
{
    let clause = pair_of(alloc, first, second)?;
    give(store, solver, after, clause.as_slice())
}

/// Offers the learned clause of two literals of a live id, where both are of the caller's variables.
fn offer_clause(
    alloc: Global,
    state: &PrivateState,
    id: ClauseId,
    store: &mut Store,
    solver: u32,
    after: u64,
) -> Result<(), NoMemory>
    requires live { IsTrue (is_live state.now.store.held id.0) }
    requires earlier { after ≤ length store.old }
    ensures told { OnOk result (IsToldAt state.now store.new id.0) }
    ensures turns { KeepsTurns (state_of state.now) solver after store.old store.new }
{
    let clauses = state.clauses();
    if !clauses.is_learned(id) {
        return Ok(());
    }
    let [first, second] = clauses.lits(id) else {
        return Ok(());
    };
    let Some(first) = outer_in(state.maps(), *first) else {
        return Ok(());
    };
    let Some(second) = outer_in(state.maps(), *second) else {
        return Ok(());
    };
    offer_pair(alloc, store, solver, after, first, second)
}

/// The same for an id that may not be live; then there is nothing to offer.
fn offer_live(
    alloc: Global,
    state: &PrivateState,
    id: ClauseId,
    store: &mut Store,
    solver: u32,
    after: u64,
) -> Result<(), NoMemory>
    requires earlier { after ≤ length store.old }
    ensures told { OnOk result (IsToldAt state.now store.new id.0) }
    ensures turns { KeepsTurns (state_of state.now) solver after store.old store.new }
{
    if state.clauses().is_live(id) {
        return offer_clause(alloc, state, id, store, solver, after);
    }
    Ok(())
}

/// How many of rising ids are below a mark. It looks at the others alone, from the last one on.
fn count_below(ids: &[ShortId], mark: u64) -> usize
    requires { ids_rise ids.now ≡ true }
    ensures within { result ≤ length ids.now }
    ensures below { are_below mark (take result ids.now) ≡ true }
{
    let mut count = ids.len();
    'back: while count > 0 && ids[count - 1].whole().0 >= mark {
        count -= 1;
    }
    count
}

/// Offers each learned clause of two literals of the caller's variables that came after the mark. So
/// all of them are told, where those before it were. The only error is want of memory.
pub(crate) fn offer_binaries(
    alloc: Global,
    state: &PrivateState,
    store: &mut Store,
    solver: u32,
    after: u64,
) -> Result<(), NoMemory>
    requires earlier { after ≤ length store.old }
    requires told { IsTold (state_of state.now) store.old }
    ensures told { OnOk result (All (IsToldClause (state_of state.now) store.new) (state_of state.now).learned) }
    ensures standing { Standing state.now }
    ensures turns { KeepsTurns (state_of state.now) solver after store.old store.new }
{
    let ids = state.pairs();
    let start = count_below(ids, state.clauses().mark());
    'offer: for id in &ids[start..] {
        offer_live(alloc, state, id.whole(), store, solver, after)?;
    }
    Ok(())
}
