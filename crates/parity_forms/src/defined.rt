ghost use Rattle.std.specs.Prelude.{◌≡◌, ◌∷◌, ◌++◌, [], true, false, map, IfOk, OnOk};
ghost use Rattle.std.specs.List.{list_all};
ghost use Rattle.sat_lits.specs.declared.literal.OwnLit.{OwnLit};
ghost use Rattle.var_maps.specs.Maps.{Matched};
ghost use Rattle.removed_vars.specs.Fresh.{in_clauses, hard_in};
ghost use Rattle.parity_forms.specs.Parities.{in_lit_of, variables_of};
ghost use Rattle.parity_forms.specs.InMaps.{may_be_named, stored_lit, in_negated, stored_xor, stored_and, stored_definition};

use crate::forms::{add_forms, inner_numbers, number_of};
use crate::made::Made;
use removed_vars::Fresh;
use sat_lits::{InLit, Inner, List, NoMemory, Own, OwnLit};
use state_laws::Definition;
use std::alloc::Global;
use var_maps::VarMaps;

/// An equal definition.
fn copy(definition: &Definition) -> Result<Definition, NoMemory>
    ensures { IfOk result (λ copy. copy ≡ definition.now) }
{
    match definition {
        Definition::Xor { vars } => {
            let vars = vars.copy()?;
            Ok(Definition::Xor { vars })
        }
        Definition::And { lits } => {
            let lits = lits.copy()?;
            Ok(Definition::And { lits })
        }
    }
}

/// The clauses by which the next variable is the exclusive or of others.
fn xor_clauses(alloc: Global, maps: &VarMaps, vars: &[Own]) -> Result<Vec<Fresh>, NoMemory>
    requires { list_all (may_be_named maps.now) vars.now ≡ true }
    ensures { IfOk result (λ clauses. in_clauses clauses.items ≡ map hard_in (stored_xor maps.now vars.now)) }
{
    let mut all = List::from_slice(alloc, vars)?;
    all.push(Own(maps.own_len()))?;
    let numbers = inner_numbers(alloc, maps, all.as_slice())?;
    let mut clauses = Vec::new(alloc);
    add_forms(alloc, &[], numbers.as_slice(), false, &mut clauses)?;
    Ok(clauses)
}

/// A literal of a variable that may be named, as it is stored.
fn stored_lit(maps: &VarMaps, lit: OwnLit) -> InLit
    requires { may_be_named maps.now lit.var ≡ true }
    ensures { result ≡ stored_lit maps.now lit }
{
    InLit {
        var: number_of(maps, lit.var),
        negative: lit.negative,
    }
}

fn stored_lits(alloc: Global, maps: &VarMaps, lits: &[OwnLit]) -> Result<List<InLit>, NoMemory>
    requires { list_all (λ (l : OwnLit). may_be_named maps.now l.var) lits.now ≡ true }
    ensures { IfOk result (λ stored. stored ≡ map (stored_lit maps.now) lits.now) }
{
    let mut stored = List::new(alloc);
    for lit in lits {
        stored.push(stored_lit(maps, *lit))?;
    }
    Ok(stored)
}

/// The clause that a variable is true where all the literals are.
fn if_all(alloc: Global, var: Inner, lits: &[InLit]) -> Result<List<InLit>, NoMemory>
    ensures { IfOk result (λ clause. clause ≡ in_lit_of var false ∷ map in_negated lits.now) }
{
    let mut clause = List::new(alloc);
    clause.push(InLit {
        var,
        negative: false,
    })?;
    for lit in lits {
        clause.push(InLit {
            var: lit.var,
            negative: !lit.negative,
        })?;
    }
    Ok(clause)
}

/// Adds the clause that a literal is true where a variable is.
fn add_implied(alloc: Global, var: Inner, lit: InLit, to: &mut Vec<Fresh>) -> Result<(), NoMemory>
    ensures { OnOk result (in_clauses to.new.items ≡ in_clauses to.old.items ++ hard_in (in_lit_of var true ∷ lit ∷ []) ∷ []) }
{
    let mut lits = List::new(alloc);
    lits.push(InLit {
        var,
        negative: true,
    })?;
    lits.push(lit)?;
    to.push(Fresh {
        learned: false,
        lits,
    })?;
    Ok(())
}

/// The clauses by which the next variable is true where all the literals are.
fn and_clauses(alloc: Global, maps: &VarMaps, lits: &[OwnLit]) -> Result<Vec<Fresh>, NoMemory>
    requires { list_all (λ (l : OwnLit). may_be_named maps.now l.var) lits.now ≡ true }
    ensures { IfOk result (λ clauses. in_clauses clauses.items ≡ map hard_in (stored_and maps.now lits.now)) }
{
    let next = number_of(maps, Own(maps.own_len()));
    let stored = stored_lits(alloc, maps, lits)?;
    let first = if_all(alloc, next, stored.as_slice())?;
    let mut clauses = Vec::new(alloc);
    clauses.push(Fresh {
        learned: false,
        lits: first,
    })?;
    'each: for lit in stored.as_slice() {
        add_implied(alloc, next, *lit, &mut clauses)?;
    }
    Ok(clauses)
}

fn defining_clauses(
    alloc: Global,
    maps: &VarMaps,
    definition: &Definition,
) -> Result<Vec<Fresh>, NoMemory>
    requires { list_all (may_be_named maps.now) (variables_of definition.now) ≡ true }
    ensures { IfOk result (λ clauses. in_clauses clauses.items ≡ map hard_in (stored_definition maps.now definition.now)) }
{
    match definition {
        Definition::Xor { vars } => xor_clauses(alloc, maps, vars.as_slice()),
        Definition::And { lits } => and_clauses(alloc, maps, lits.as_slice()),
    }
}

/// The next variable with its definition, and the clauses that define it. The only error is want of
/// memory.
pub fn made_by(alloc: Global, maps: &VarMaps, definition: &Definition) -> Result<Made, NoMemory>
    requires { list_all (may_be_named maps.now) (variables_of definition.now) ≡ true }
    ensures definitions { IfOk result (λ made. made.definitions.items ≡ definition.now ∷ []) }
    ensures clauses { IfOk result (λ made. in_clauses made.clauses.items ≡ map hard_in (stored_definition maps.now definition.now)) }
    ensures matched { Matched maps.now }
{
    // That the maps match is known from here on.
    let _len = maps.inner_len();
    let clauses = defining_clauses(alloc, maps, definition)?;
    let copy = copy(definition)?;
    let mut definitions = Vec::new(alloc);
    definitions.push(copy)?;
    Ok(Made {
        definitions,
        clauses,
    })
}
