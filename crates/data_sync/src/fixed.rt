ghost use Rattle.std.specs.Prelude.{◌≡◌, ◌<◌, ◌≤◌, length, All, Any, OnOk};
ghost use Rattle.var_maps.specs.Maps.{Matched};
ghost use Rattle.state_laws.specs.Kernel.{state_of};
ghost use Rattle.sync_laws.specs.Told.{IsToldEntry, IsTold};
ghost use Rattle.data_sync.specs.Giving.{KeepsTurns, outer_of};

use crate::giving::give;
use private_state::PrivateState;
use rebuild_stack::Entry;
use sat_lits::{Lit, NoMemory, OwnLit};
use share_store::Store;
use var_maps::VarMaps;

/// The caller's literal that an own one stands for. None comes exactly where it is of a private
/// variable.
fn outer_lit(maps: &VarMaps, lit: OwnLit) -> Option<Lit>
    requires { lit.var.0 < length maps.now.inners }
    ensures value { result ≡ outer_of maps.now lit }
    ensures matched { Matched maps.now }
{
    let var = maps.to_outer(lit.var)?;
    Some(Lit {
        var,
        negative: lit.negative,
    })
}

/// Offers what an entry of the stack fixes, where its variable is the caller's.
fn offer_entry(
    state: &PrivateState,
    entry: &Entry,
    store: &mut Store,
    solver: u32,
    after: u64,
) -> Result<(), NoMemory>
    requires stands { Any (λ e. e ≡ entry.now) state.now.stack }
    requires earlier { after ≤ length store.old }
    ensures told { OnOk result (IsToldEntry (state_of state.now) store.new entry.now) }
    ensures turns { KeepsTurns (state_of state.now) solver after store.old store.new }
{
    let maps = state.maps();
    if let Entry::Fix(lit) = entry {
        if let Some(outer) = outer_lit(maps, *lit) {
            return give(store, solver, after, &[outer]);
        }
    }
    Ok(())
}

/// Offers each fixed literal of the caller's variables that came after the mark. So all of them are
/// told, where those before it were. The only error is want of memory.
pub(crate) fn offer_fixed(
    state: &PrivateState,
    store: &mut Store,
    solver: u32,
    after: u64,
) -> Result<(), NoMemory>
    requires earlier { after ≤ length store.old }
    requires told { IsTold (state_of state.now) store.old }
    ensures told { OnOk result (All (IsToldEntry (state_of state.now) store.new) state.now.stack) }
    ensures turns { KeepsTurns (state_of state.now) solver after store.old store.new }
{
    'offer: for entry in state.new_entries() {
        offer_entry(state, entry, store, solver, after)?;
    }
    Ok(())
}
