ghost use Rattle.std.specs.Prelude.{◌≡◌, ◌++◌, ◌∷◌, [], true, IfOk, OnOk, OnErr};
ghost use Rattle.std.specs.List.{list_all};
ghost use Rattle.rebuild_stack.specs.Roots.{root};
ghost use Rattle.rebuild_stack.specs.Values.{each_lit};
ghost use Rattle.rebuild_stack.specs.PutIn.{put_in_all, is_clean};
ghost use Rattle.state_laws.specs.Held.{has_inner};
ghost use Rattle.removed_vars.specs.Removed.{IsInOrder};
ghost use Rattle.removed_vars.specs.Fresh.{Stores};
ghost use Rattle.removed_vars.specs.Restoring.{active_in, left_by, AreOfOthers, Holds};

use crate::changes::{Fresh, add_all};
use crate::literals::in_lits;
use crate::removed::RemovedVars;
use crate::roots::put_in;
use indexed_store::IndexedStore;
use rebuild_stack::{Block, Root};
use sat_lits::{List, NoMemory, Own, OwnLit};
use std::alloc::Global;
use var_maps::VarMaps;

/// Whether a variable is there and active.
pub(crate) fn is_active(maps: &VarMaps, var: Own) -> bool
    ensures { result ≡ active_in maps.now var.0 }
{
    var.0 < maps.own_len() && maps.to_inner(var).is_some()
}

/// What a literal comes to along the entries, but for the `Gone` ones of active variables.
fn root_left(removed: &RemovedVars, maps: &VarMaps, lit: OwnLit) -> Root
    requires order { IsInOrder removed.now.entries }
    requires others { AreOfOthers maps.now (left_by maps.now removed.now.entries) }
    ensures { result ≡ root (left_by maps.now removed.now.entries) lit }
{
    let last = removed.last(lit);
    if is_active(maps, last.var) {
        Root::Last(last)
    } else {
        removed.root(last)
    }
}

/// Adds the clause of what literals come to, unless it is satisfied or a tautology.
fn add_put_in(
    alloc: Global,
    removed: &RemovedVars,
    maps: &VarMaps,
    lits: &[OwnLit],
    to: &mut Vec<List<OwnLit>>,
) -> Result<(), NoMemory>
    requires order { IsInOrder removed.now.entries }
    requires others { AreOfOthers maps.now (left_by maps.now removed.now.entries) }
    ensures { IfOk result (λ _. to.new.items ≡ to.old.items ++ put_in_all (root (left_by maps.now removed.now.entries)) (lits.now ∷ [])) }
{
    let mut roots = Vec::new(alloc);
    for lit in lits {
        roots.push(root_left(removed, maps, *lit))?;
    }
    if let Some(clause) = put_in(alloc, &roots)? {
        to.push(clause)?;
    }
    Ok(())
}

/// What clauses come to along the entries, but for the `Gone` ones of active variables. The only error
/// is want of memory.
fn put_in_block(
    alloc: Global,
    removed: &RemovedVars,
    maps: &VarMaps,
    block: &Block,
) -> Result<Vec<List<OwnLit>>, NoMemory>
    requires order { IsInOrder removed.now.entries }
    requires others { AreOfOthers maps.now (left_by maps.now removed.now.entries) }
    ensures { IfOk result (λ clauses. clauses.items ≡ put_in_all (root (left_by maps.now removed.now.entries)) block.now) }
{
    let mut clauses = Vec::new(alloc);
    'each: for at in 0..block.len() {
        add_put_in(alloc, removed, maps, block.get(at), &mut clauses)?;
    }
    Ok(clauses)
}

/// Clauses over active variables as hard ones that are to be stored.
fn hard_fresh(
    alloc: Global,
    maps: &VarMaps,
    clauses: &[List<OwnLit>],
) -> Result<Vec<Fresh>, NoMemory>
    requires active { each_lit (has_inner maps.now) clauses.now ≡ true }
    requires clean { list_all is_clean clauses.now ≡ true }
    ensures { IfOk result (λ fresh. Stores maps.now fresh.items clauses.now) }
{
    let mut fresh = Vec::new(alloc);
    'each: for clause in clauses {
        let lits = in_lits(alloc, maps, clause.as_slice())?;
        fresh.push(Fresh {
            learned: false,
            lits,
        })?;
    }
    Ok(fresh)
}

/// Adds clauses over active variables as hard ones, or none of them. The only error is want of memory.
fn hold_all(
    alloc: Global,
    maps: &VarMaps,
    store: &mut IndexedStore,
    clauses: &[List<OwnLit>],
) -> Result<(), NoMemory>
    requires active { each_lit (has_inner maps.now) clauses.now ≡ true }
    requires clean { list_all is_clean clauses.now ≡ true }
    ensures ok { OnOk result (Holds maps.now store.old store.new clauses.now) }
    ensures err { OnErr result (store.new.held ≡ store.old.held) }
    ensures mark { store.new.mark ≡ store.old.mark }
{
    let fresh = hard_fresh(alloc, maps, clauses)?;
    // What the store keeps is known from here on.
    let _clauses = store.store();
    let _ids = add_all(alloc, store, &fresh)?;
    Ok(())
}

/// Adds as hard ones what the clauses of an entry come to along the entries, but for the `Gone` ones of
/// active variables, or none of them. The only error is want of memory.
pub fn hold_block(
    alloc: Global,
    removed: &RemovedVars,
    maps: &VarMaps,
    store: &mut IndexedStore,
    block: &Block,
) -> Result<(), NoMemory>
    requires order { IsInOrder removed.now.entries }
    requires others { AreOfOthers maps.now (left_by maps.now removed.now.entries) }
    requires active { each_lit (has_inner maps.now) (put_in_all (root (left_by maps.now removed.now.entries)) block.now) ≡ true }
    ensures ok { OnOk result (Holds maps.now store.old store.new (put_in_all (root (left_by maps.now removed.now.entries)) block.now)) }
    ensures err { OnErr result (store.new.held ≡ store.old.held) }
    ensures mark { store.new.mark ≡ store.old.mark }
{
    let clauses = put_in_block(alloc, removed, maps, block)?;
    hold_all(alloc, maps, store, &clauses)
}
