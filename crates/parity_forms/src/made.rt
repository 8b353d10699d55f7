ghost use Rattle.std.specs.Prelude.{◌≡◌, ◌+◌, ◌≤◌, ◌^◌, ◌++◌, true, Some, map, length, vec_len, vec_capacity, OnOk, OnErr};
ghost use Rattle.removed_vars.specs.Fresh.{are_distinct};
ghost use Rattle.parity_forms.specs.InMaps.{HasPrivates};
ghost use Rattle.parity_forms.specs.MadeOf.{IsMade, IsUnmade};

use indexed_store::IndexedStore;
use removed_vars::{Fresh, RemovedVars, add_all, drop_all};
use sat_lits::NoMemory;
use state_laws::Definition;
use std::alloc::Global;
use var_maps::VarMaps;

/// Private variables that are to be made, and clauses that are to be held.
#[derive(Drop)]
pub struct Made {
    /// The definitions of the variables, in order.
    pub definitions: Vec<Definition>,
    /// The clauses, in order.
    pub clauses: Vec<Fresh>,
}

/// Makes private variables with these definitions. There is room for them.
fn add_vars(maps: &mut VarMaps, definitions: &mut Vec<Option<Definition>>, new: Vec<Definition>)
    requires few { length maps.old.inners + length new.items ≤ 2 ^ 31 }
    requires room { length new.items ≤ maps.old.spare }
    requires capacity { vec_len definitions.old + length new.items ≤ vec_capacity definitions.old }
    ensures maps { HasPrivates (length new.items) maps.old maps.new }
    ensures definitions { definitions.new.items ≡ definitions.old.items ++ map Some new.items }
{
    'each: for definition in new {
        maps.add_private().unwrap();
        definitions.push(Some(definition)).unwrap();
    }
}

/// Makes private variables and adds clauses. The only error is want of memory, and then nothing is
/// changed but room and the number above all ids.
pub fn add_made(
    alloc: Global,
    maps: &mut VarMaps,
    store: &mut IndexedStore,
    removed: &mut RemovedVars,
    definitions: &mut Vec<Option<Definition>>,
    made: Made,
) -> Result<(), NoMemory>
    requires few { length maps.old.inners + length made.definitions.items ≤ 2 ^ 31 }
    requires distinct { are_distinct made.clauses.items ≡ true }
    ensures ok { OnOk result (IsMade made (record { maps = maps.old; store = store.old; removed = removed.old; definitions = definitions.old.items }) (record { maps = maps.new; store = store.new; removed = removed.new; definitions = definitions.new.items })) }
    ensures err { OnErr result (IsUnmade (record { maps = maps.old; store = store.old; removed = removed.old; definitions = definitions.old.items }) (record { maps = maps.new; store = store.new; removed = removed.new; definitions = definitions.new.items })) }
{
    let count = made.definitions.len() as u32;
    maps.reserve(count)?;
    definitions.reserve(made.definitions.len())?;
    // What the store keeps is known from here on.
    let _clauses = store.store();
    let ids = add_all(alloc, store, &made.clauses)?;
    if let Err(error) = removed.add_vars(count) {
        drop_all(store, &ids);
        return Err(error);
    }
    add_vars(maps, definitions, made.definitions);
    Ok(())
}
