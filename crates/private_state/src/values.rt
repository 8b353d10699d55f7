ghost use Rattle.std.specs.Prelude.{◌≡◌, map, IfOk};
ghost use Rattle.rebuild_stack.specs.Values.{values_of};
ghost use Rattle.var_maps.specs.Maps.{Matched};
ghost use Rattle.state_laws.specs.Held.{inner_value};

use sat_lits::{List, NoMemory, Own, Var};
use std::alloc::Global;
use var_maps::VarMaps;

fn value_of(values: &[bool], var: Own) -> bool
    ensures { result ≡ values_of values.now var.0 }
{
    values.get(var.0 as usize).copied().unwrap_or(false)
}

/// Own values from inner ones: false for a variable that is not active.
pub(crate) fn own_values(
    alloc: Global,
    maps: &VarMaps,
    inner: &[bool],
) -> Result<Vec<bool>, NoMemory>
    ensures values { IfOk result (λ own. own.items ≡ map (inner_value inner.now) maps.now.inners) }
    ensures matched { Matched maps.now }
{
    let mut own = Vec::new(alloc);
    for var in 0..maps.own_len() {
        let value = match maps.to_inner(Own(var)) {
            Some(at) => inner.get(at.0 as usize).copied().unwrap_or(false),
            None => false,
        };
        own.push(value)?;
    }
    Ok(own)
}

/// The values of the outer variables, in order.
pub(crate) fn outer_values(
    alloc: Global,
    maps: &VarMaps,
    own: &[bool],
) -> Result<List<bool>, NoMemory>
    ensures { IfOk result (λ outer. outer ≡ map (λ v. values_of own.now v.0) maps.now.outers) }
{
    let mut outer = List::new(alloc);
    for var in 0..maps.outer_count() {
        outer.push(value_of(own, maps.to_own(Var(var))))?;
    }
    Ok(outer)
}
