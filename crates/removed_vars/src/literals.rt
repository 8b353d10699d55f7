ghost use Rattle.std.specs.Prelude.{◌≡◌, ◌<◌, true, length, IfOk};
ghost use Rattle.std.specs.List.{list_all};
ghost use Rattle.var_maps.specs.Maps.{Matched};
ghost use Rattle.state_laws.specs.Held.{own_of, own_clause, own_outer, has_inner};

use sat_lits::{InLit, List, Lit, NoMemory, Own, OwnLit};
use std::alloc::Global;
use var_maps::VarMaps;

/// A stored literal in own numbers. Where no variable has its inner number, it is one of the variable
/// that comes after all.
pub fn own_lit(maps: &VarMaps, lit: InLit) -> OwnLit
    ensures { result ≡ own_of maps.now lit }
{
    let var = match maps.at_inner(lit.var) {
        Some(own) => own,
        None => Own(maps.own_len()),
    };
    OwnLit {
        var,
        negative: lit.negative,
    }
}

/// A stored clause in own literals. The only error is want of memory.
pub fn own_lits(alloc: Global, maps: &VarMaps, lits: &[InLit]) -> Result<List<OwnLit>, NoMemory>
    ensures own { IfOk result (λ own. own ≡ own_clause maps.now lits.now) }
    ensures matched { Matched maps.now }
{
    // That the maps match is known from here on, also where there is no literal.
    let _len = maps.inner_len();
    let mut own = List::new(alloc);
    for lit in lits {
        own.push(own_lit(maps, *lit))?;
    }
    Ok(own)
}

/// A literal of an active variable as it is stored.
fn in_lit(maps: &VarMaps, lit: OwnLit) -> InLit
    requires { has_inner maps.now lit ≡ true }
    ensures { own_of maps.now result ≡ lit }
{
    InLit {
        var: maps.to_inner(lit.var).unwrap(),
        negative: lit.negative,
    }
}

/// A clause over active variables as it is stored. The only error is want of memory.
pub fn in_lits(alloc: Global, maps: &VarMaps, lits: &[OwnLit]) -> Result<List<InLit>, NoMemory>
    requires { list_all (has_inner maps.now) lits.now ≡ true }
    ensures { IfOk result (λ stored. own_clause maps.now stored ≡ lits.now) }
{
    let mut stored = List::new(alloc);
    for lit in lits {
        stored.push(in_lit(maps, *lit))?;
    }
    Ok(stored)
}

/// A literal of the caller in own numbers.
pub fn outer_lit(maps: &VarMaps, lit: Lit) -> OwnLit
    requires { lit.var.0 < length maps.now.outers }
    ensures { result ≡ own_outer maps.now lit }
{
    OwnLit {
        var: maps.to_own(lit.var),
        negative: lit.negative,
    }
}
