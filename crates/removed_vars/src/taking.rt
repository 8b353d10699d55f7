ghost use Rattle.std.specs.Prelude.{◌≡◌, true, length, map, nat_lt, option_map, option_to_list, IfOk, IfSome, IsTrue, OnOk, OnErr};
ghost use Rattle.std.specs.List.{list_all};
ghost use Rattle.sat_lits.specs.InLits.{is_distinct};
ghost use Rattle.rebuild_stack.specs.Roots.{root};
ghost use Rattle.rebuild_stack.specs.PutIn.{put_in, option_passes};
ghost use Rattle.state_laws.specs.Held.{own_clause, own_outer, has_inner, ExtendsBy};
ghost use Rattle.removed_vars.specs.Removed.{IsInOrder};
ghost use Rattle.removed_vars.specs.Fresh.{hard_in};

use crate::literals::{in_lits, outer_lit};
use crate::removed::RemovedVars;
use crate::roots::put_in;
use indexed_store::IndexedStore;
use sat_lits::{InLit, List, Lit, NoMemory};
use std::alloc::Global;
use var_maps::VarMaps;

/// What a clause of the caller becomes along the stack, as it is to be stored. None comes exactly
/// where it is satisfied or a tautology. The only error is want of memory.
pub fn own_form(
    alloc: Global,
    maps: &VarMaps,
    removed: &RemovedVars,
    lits: &[Lit],
) -> Result<Option<List<InLit>>, NoMemory>
    requires there { list_all (λ l. nat_lt l.var.0 (length maps.now.outers)) lits.now ≡ true }
    requires order { IsInOrder removed.now.entries }
    requires active { option_passes (has_inner maps.now) (put_in (λ l. root removed.now.entries (own_outer maps.now l)) lits.now) ≡ true }
    ensures value { IfOk result (λ stored. option_map (own_clause maps.now) stored ≡ put_in (λ l. root removed.now.entries (own_outer maps.now l)) lits.now) }
    ensures distinct { IfOk result (λ stored. IfSome stored (λ clause. IsTrue (is_distinct clause))) }
{
    let mut roots = Vec::new(alloc);
    for lit in lits {
        roots.push(removed.root(outer_lit(maps, *lit)))?;
    }
    let Some(clause) = put_in(alloc, &roots)? else {
        return Ok(None);
    };
    let stored = in_lits(alloc, maps, clause.as_slice())?;
    Ok(Some(stored))
}

/// Adds a hard clause, if there is one. The only error is want of memory, and nothing changes then.
pub fn add_hard(store: &mut IndexedStore, clause: &Option<List<InLit>>) -> Result<(), NoMemory>
    requires { IfSome clause.now (λ lits. IsTrue (is_distinct lits)) }
    ensures ok { OnOk result (ExtendsBy store.old store.new (map hard_in (option_to_list clause.now))) }
    ensures err { OnErr result (store.new ≡ store.old) }
{
    if let Some(lits) = clause {
        store.add(lits.as_slice(), false)?;
    }
    Ok(())
}
