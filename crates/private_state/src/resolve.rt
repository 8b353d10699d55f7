ghost use Rattle.std.specs.Prelude.{◌≡◌, ◌++◌, ◌∷◌, true, option_to_list, [], length, nat_le, is_some, IfOk, IfSome};
ghost use Rattle.std.specs.List.{list_all};
ghost use Rattle.rebuild_stack.specs.Values.{each_lit};
ghost use Rattle.rebuild_stack.specs.PutIn.{put_in};
ghost use Rattle.rebuild_stack.specs.declared.entry.Root.TheVariants.{Last};
ghost use Rattle.state_laws.specs.Held.{has_inner};
ghost use Rattle.state_laws.specs.Resolution.{has_sign, without_var, rests, joins, resolvents};
ghost use Rattle.indexed_store.specs.Bounds.{are_bounded};
ghost use Rattle.removed_vars.specs.Fresh.{Stores};
ghost use Rattle.private_state.specs.Resolving.{Clauses};

use crate::bound::{are_few, are_short};
use rebuild_stack::{Block, Root};
use removed_vars::{Fresh, in_lits, put_in};
use sat_lits::{List, NoMemory, Own, OwnLit};
use std::alloc::Global;
use var_maps::VarMaps;

/// Whether a clause holds the literal of a variable that is negative, or positive.
pub(crate) fn has_sign(lits: &[OwnLit], var: Own, negative: bool) -> bool
    ensures { result ≡ has_sign var.0 negative lits.now }
{
    lits.iter()
        .any(|lit| lit.var == var && negative == lit.negative)
}

/// A clause without the literals of a variable.
fn without_var(alloc: Global, lits: &[OwnLit], var: Own) -> Result<List<OwnLit>, NoMemory>
    ensures { IfOk result (λ rest. rest ≡ without_var var.0 lits.now) }
{
    let mut rest = List::new(alloc);
    'each: for lit in lits {
        if lit.var != var {
            rest.push(*lit)?;
        }
    }
    Ok(rest)
}

/// Adds what is left of a clause where a variable gets a value, unless the clause is true then.
fn add_rest(
    alloc: Global,
    lits: &[OwnLit],
    var: Own,
    value: bool,
    to: &mut Vec<List<OwnLit>>,
) -> Result<(), NoMemory>
    ensures { IfOk result (λ _. to.new.items ≡ to.old.items ++ rests var.0 value (lits.now ∷ [])) }
{
    if !has_sign(lits, var, !value) {
        let rest = without_var(alloc, lits, var)?;
        to.push(rest)?;
    }
    Ok(())
}

/// What is left of clauses where a variable gets a value.
fn rests(alloc: Global, block: &Block, var: Own, value: bool) -> Result<Vec<List<OwnLit>>, NoMemory>
    ensures { IfOk result (λ lists. lists.items ≡ rests var.0 value block.now) }
{
    let mut lists = Vec::new(alloc);
    'each: for at in 0..block.len() {
        add_rest(alloc, block.get(at), var, value, &mut lists)?;
    }
    Ok(lists)
}

/// Two clauses as one. None comes exactly where that is a tautology.
fn join(alloc: Global, left: &[OwnLit], right: &[OwnLit]) -> Result<Option<List<OwnLit>>, NoMemory>
    ensures { IfOk result (λ clause. clause ≡ put_in Last (left.now ++ right.now)) }
{
    let mut roots = Vec::new(alloc);
    'left: for lit in left {
        roots.push(Root::Last(*lit))?;
    }
    'right: for lit in right {
        roots.push(Root::Last(*lit))?;
    }
    let clause = put_in(alloc, &roots)?;
    Ok(clause)
}

/// Adds two clauses joined, as a hard clause to be stored, unless that is a tautology.
fn add_joined(
    alloc: Global,
    maps: &VarMaps,
    left: &[OwnLit],
    right: &[OwnLit],
    to: &mut Vec<Fresh>,
) -> Result<(), NoMemory>
    requires left { list_all (has_inner maps.now) left.now ≡ true }
    requires right { list_all (has_inner maps.now) right.now ≡ true }
    ensures { IfOk result (λ _. (cs : Clauses) → Stores maps.now to.old.items cs → Stores maps.now to.new.items (cs ++ option_to_list (put_in Last (left.now ++ right.now)))) }
{
    let Some(clause) = join(alloc, left, right)? else {
        return Ok(());
    };
    let lits = in_lits(alloc, maps, clause.as_slice())?;
    to.push(Fresh {
        learned: false,
        lits,
    })?;
    Ok(())
}

/// Adds a clause joined with each of others.
fn add_each_joined(
    alloc: Global,
    maps: &VarMaps,
    left: &[OwnLit],
    rights: &[List<OwnLit>],
    to: &mut Vec<Fresh>,
) -> Result<(), NoMemory>
    requires left { list_all (has_inner maps.now) left.now ≡ true }
    requires rights { each_lit (has_inner maps.now) rights.now ≡ true }
    ensures { IfOk result (λ _. (cs : Clauses) → Stores maps.now to.old.items cs → Stores maps.now to.new.items (cs ++ joins (left.now ∷ []) rights.now)) }
{
    'each: for right in rights {
        add_joined(alloc, maps, left, right.as_slice(), to)?;
    }
    Ok(())
}

/// Each clause of one list joined with each of another.
fn join_all(
    alloc: Global,
    maps: &VarMaps,
    lefts: &[List<OwnLit>],
    rights: &[List<OwnLit>],
) -> Result<Vec<Fresh>, NoMemory>
    requires lefts { each_lit (has_inner maps.now) lefts.now ≡ true }
    requires rights { each_lit (has_inner maps.now) rights.now ≡ true }
    ensures { IfOk result (λ fresh. Stores maps.now fresh.items (joins lefts.now rights.now)) }
{
    let mut fresh = Vec::new(alloc);
    'each: for left in lefts {
        add_each_joined(alloc, maps, left.as_slice(), rights, &mut fresh)?;
    }
    Ok(fresh)
}

/// The resolvents of clauses on a variable, as they are to be stored.
pub(crate) fn resolve(
    alloc: Global,
    maps: &VarMaps,
    block: &Block,
    var: Own,
) -> Result<Vec<Fresh>, NoMemory>
    requires { each_lit (has_inner maps.now) block.now ≡ true }
    ensures { IfOk result (λ fresh. Stores maps.now fresh.items (resolvents var.0 block.now)) }
{
    let lefts = rests(alloc, block, var, false)?;
    let rights = rests(alloc, block, var, true)?;
    let fresh = join_all(alloc, maps, &lefts, &rights)?;
    Ok(fresh)
}

/// Each clause of one list joined with each of another, where these are at most `most` clauses. None
/// comes exactly where they are more. So it stops soon after it has met too many.
fn join_within(
    alloc: Global,
    maps: &VarMaps,
    lefts: &[List<OwnLit>],
    rights: &[List<OwnLit>],
    most: usize,
) -> Result<Option<Vec<Fresh>>, NoMemory>
    requires lefts { each_lit (has_inner maps.now) lefts.now ≡ true }
    requires rights { each_lit (has_inner maps.now) rights.now ≡ true }
    ensures few { IfOk result (λ fresh. is_some fresh ≡ nat_le (length (joins lefts.now rights.now)) most) }
    ensures value { IfOk result (λ fresh. IfSome fresh (λ clauses. Stores maps.now clauses.items (joins lefts.now rights.now))) }
{
    let mut fresh = Vec::new(alloc);
    'each: for left in lefts {
        add_each_joined(alloc, maps, left.as_slice(), rights, &mut fresh)?;
        if fresh.len() > most {
            return Ok(None);
        }
    }
    Ok(Some(fresh))
}

/// The resolvents of clauses on a variable, as they are to be stored, where they are not more than
/// these clauses. None comes exactly where they are more.
fn resolve_few(
    alloc: Global,
    maps: &VarMaps,
    block: &Block,
    var: Own,
) -> Result<Option<Vec<Fresh>>, NoMemory>
    requires { each_lit (has_inner maps.now) block.now ≡ true }
    ensures few { IfOk result (λ fresh. is_some fresh ≡ nat_le (length (resolvents var.0 block.now)) (length block.now)) }
    ensures value { IfOk result (λ fresh. IfSome fresh (λ clauses. Stores maps.now clauses.items (resolvents var.0 block.now))) }
{
    let lefts = rests(alloc, block, var, false)?;
    let rights = rests(alloc, block, var, true)?;
    let fresh = join_within(alloc, maps, &lefts, &rights, block.len())?;
    Ok(fresh)
}

/// The resolvents of clauses on a variable, as they are to be stored, where the clauses meet the
/// bound of elimination. None comes exactly where they do not.
pub(crate) fn resolve_within_bound(
    alloc: Global,
    maps: &VarMaps,
    block: &Block,
    var: Own,
) -> Result<Option<Vec<Fresh>>, NoMemory>
    requires { each_lit (has_inner maps.now) block.now ≡ true }
    ensures bound { IfOk result (λ fresh. is_some fresh ≡ are_bounded var.0 block.now) }
    ensures value { IfOk result (λ fresh. IfSome fresh (λ clauses. Stores maps.now clauses.items (resolvents var.0 block.now))) }
{
    if !are_few(block, var) {
        return Ok(None);
    }
    let Some(fresh) = resolve_few(alloc, maps, block, var)? else {
        return Ok(None);
    };
    if !are_short(&fresh) {
        return Ok(None);
    }
    Ok(Some(fresh))
}
