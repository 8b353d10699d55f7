ghost use Rattle.std.specs.Prelude.{◌++◌, option_to_list, IfOk, IsSome, IsTrue};
ghost use Rattle.clause_store.specs.Store.{IsKept, clause_at, is_live};
ghost use Rattle.var_maps.specs.Maps.{Matched, inner_at};
ghost use Rattle.removed_vars.specs.Fresh.{Listed};
ghost use Rattle.private_state.specs.Resolving.{Takes, TakesOut};

use clause_store::ClauseStore;
use indexed_store::IndexedStore;
use rebuild_stack::Block;
use removed_vars::own_lits;
use sat_lits::{ClauseId, NoMemory, Own};
use std::alloc::Global;
use var_maps::VarMaps;

/// Clauses to be taken out: their ids, and the hard ones in own literals.
#[derive(Drop)]
pub(crate) struct TakenOut {
    pub(crate) doomed: Vec<ClauseId>,
    pub(crate) block: Block,
}

/// Takes the clause of a live id.
fn take_live(
    alloc: Global,
    maps: &VarMaps,
    store: &ClauseStore,
    id: ClauseId,
    to: &mut TakenOut,
) -> Result<(), NoMemory>
    requires { IsTrue (is_live store.now.held id.0) }
    ensures { IfOk result (λ _. (held : Listed) → Takes maps.now held to.old → Takes maps.now (held ++ option_to_list (clause_at store.now.held id.0)) to.new) }
{
    if !store.is_learned(id) {
        let lits = own_lits(alloc, maps, store.lits(id))?;
        to.block.push(lits.as_slice())?;
    }
    to.doomed.push(id)?;
    Ok(())
}

/// Takes the clause of an id, if the id is live.
fn take_one(
    alloc: Global,
    maps: &VarMaps,
    store: &ClauseStore,
    id: ClauseId,
    to: &mut TakenOut,
) -> Result<(), NoMemory>
    ensures { IfOk result (λ _. (held : Listed) → Takes maps.now held to.old → Takes maps.now (held ++ option_to_list (clause_at store.now.held id.0)) to.new) }
{
    if store.is_live(id) {
        take_live(alloc, maps, store, id, to)?;
    }
    Ok(())
}

/// The clauses that hold an active variable.
pub(crate) fn take_out(
    alloc: Global,
    maps: &VarMaps,
    store: &IndexedStore,
    var: Own,
) -> Result<TakenOut, NoMemory>
    requires { IsSome (inner_at maps.now var.0) }
    ensures taken { IfOk result (λ to. TakesOut maps.now store.now.held var.0 to) }
    ensures matched { Matched maps.now }
    ensures kept { IsKept store.now }
{
    let inner = maps.to_inner(var).unwrap();
    let ids = store.occurrences(inner);
    let mut to = TakenOut {
        doomed: Vec::new(alloc),
        block: Block::new(alloc),
    };
    'walk: for id in ids {
        take_one(alloc, maps, store.store(), id.whole(), &mut to)?;
    }
    Ok(to)
}
