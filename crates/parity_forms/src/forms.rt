ghost use Rattle.std.specs.Prelude.{◌≡◌, ◌∷◌, ◌++◌, [], true, map, option_to_list, IfOk, OnOk};
ghost use Rattle.std.specs.List.{list_all};
ghost use Rattle.var_maps.specs.Maps.{Matched};
ghost use Rattle.xor_cut.specs.declared.piece.Piece.{Piece};
ghost use Rattle.removed_vars.specs.Fresh.{in_clauses, hard_in};
ghost use Rattle.parity_forms.specs.Parities.{in_lit_of, parity_forms, number_of, piece_definition, definitions_of};
ghost use Rattle.parity_forms.specs.InMaps.{may_be_named, stored_forms, all_stored_forms};

use crate::made::Made;
use removed_vars::Fresh;
use sat_lits::{InLit, Inner, List, NoMemory, Own};
use state_laws::Definition;
use std::alloc::Global;
use var_maps::VarMaps;
use xor_cut::{Piece, Pieces};

/// The inner number of an active variable, or the one that a variable will have that is to be made.
pub(crate) fn number_of(maps: &VarMaps, var: Own) -> Inner
    requires { may_be_named maps.now var ≡ true }
    ensures { result ≡ number_of maps.now var }
{
    if var.0 < maps.own_len() {
        return maps.to_inner(var).unwrap();
    }
    Inner(maps.inner_len() + (var.0 - maps.own_len()))
}

/// The inner numbers of variables.
pub(crate) fn inner_numbers(
    alloc: Global,
    maps: &VarMaps,
    vars: &[Own],
) -> Result<List<Inner>, NoMemory>
    requires { list_all (may_be_named maps.now) vars.now ≡ true }
    ensures { IfOk result (λ numbers. numbers ≡ map (number_of maps.now) vars.now) }
{
    let mut numbers = List::new(alloc);
    for var in vars {
        numbers.push(number_of(maps, *var))?;
    }
    Ok(numbers)
}

/// A clause with one more literal.
fn with_lit(
    alloc: Global,
    front: &[InLit],
    var: Inner,
    negative: bool,
) -> Result<List<InLit>, NoMemory>
    ensures { IfOk result (λ lits. lits ≡ front.now ++ in_lit_of var negative ∷ []) }
{
    let mut lits = List::from_slice(alloc, front)?;
    lits.push(InLit { var, negative })?;
    Ok(lits)
}

/// Adds the clauses of a parity over a few variables, each behind the literals of `front`.
pub(crate) fn add_forms(
    alloc: Global,
    front: &[InLit],
    vars: &[Inner],
    rhs: bool,
    to: &mut Vec<Fresh>,
) -> Result<(), NoMemory>
    ensures { OnOk result (in_clauses to.new.items ≡ in_clauses to.old.items ++ map hard_in (parity_forms in_lit_of front.now vars.now rhs)) }
{
    let Some((var, others)) = vars.split_first() else {
        if rhs {
            let lits = List::from_slice(alloc, front)?;
            to.push(Fresh {
                learned: false,
                lits,
            })?;
        }
        return Ok(());
    };
    let positive = with_lit(alloc, front, *var, false)?;
    add_forms(alloc, positive.as_slice(), others, rhs, to)?;
    let negative = with_lit(alloc, front, *var, true)?;
    add_forms(alloc, negative.as_slice(), others, !rhs, to)
}

/// Adds the clauses of a piece.
fn add_piece(
    alloc: Global,
    maps: &VarMaps,
    piece: &Piece,
    to: &mut Vec<Fresh>,
) -> Result<(), NoMemory>
    requires { list_all (may_be_named maps.now) piece.now.vars ≡ true }
    ensures { OnOk result (in_clauses to.new.items ≡ in_clauses to.old.items ++ map hard_in (stored_forms maps.now piece.now)) }
{
    let numbers = inner_numbers(alloc, maps, piece.vars.as_slice())?;
    add_forms(alloc, &[], numbers.as_slice(), piece.rhs, to)
}

/// The clauses of all pieces, as they are to be stored.
fn piece_clauses(alloc: Global, maps: &VarMaps, pieces: &Pieces) -> Result<Vec<Fresh>, NoMemory>
    requires { list_all (λ (p : Piece). list_all (may_be_named maps.now) p.vars) pieces.now ≡ true }
    ensures { IfOk result (λ clauses. in_clauses clauses.items ≡ map hard_in (all_stored_forms maps.now pieces.now)) }
{
    let mut clauses = Vec::new(alloc);
    'each: for at in 0..pieces.len() {
        add_piece(alloc, maps, pieces.get(at), &mut clauses)?;
    }
    Ok(clauses)
}

/// The definition of the fresh variable of a piece, if it has one: the exclusive or of the others.
fn piece_definition(alloc: Global, piece: &Piece) -> Result<Option<Definition>, NoMemory>
    ensures { IfOk result (λ definition. definition ≡ piece_definition piece.now) }
{
    if piece.fresh.is_none() {
        return Ok(None);
    }
    let vars = piece.vars.as_slice();
    let vars = List::from_slice(alloc, &vars[..vars.len().min(3)])?;
    Ok(Some(Definition::Xor { vars }))
}

fn add_definition(alloc: Global, piece: &Piece, to: &mut Vec<Definition>) -> Result<(), NoMemory>
    ensures { OnOk result (to.new.items ≡ to.old.items ++ option_to_list (piece_definition piece.now)) }
{
    if let Some(definition) = piece_definition(alloc, piece)? {
        to.push(definition)?;
    }
    Ok(())
}

/// The definitions of the fresh variables of the pieces, in order.
fn definitions_of(alloc: Global, pieces: &Pieces) -> Result<Vec<Definition>, NoMemory>
    ensures { IfOk result (λ definitions. definitions.items ≡ definitions_of pieces.now) }
{
    let mut definitions = Vec::new(alloc);
    'each: for at in 0..pieces.len() {
        add_definition(alloc, pieces.get(at), &mut definitions)?;
    }
    Ok(definitions)
}

/// The private variables and the clauses that pieces ask for. The only error is want of memory.
pub fn made_of(alloc: Global, maps: &VarMaps, pieces: &Pieces) -> Result<Made, NoMemory>
    requires { list_all (λ (p : Piece). list_all (may_be_named maps.now) p.vars) pieces.now ≡ true }
    ensures definitions { IfOk result (λ made. made.definitions.items ≡ definitions_of pieces.now) }
    ensures clauses { IfOk result (λ made. in_clauses made.clauses.items ≡ map hard_in (all_stored_forms maps.now pieces.now)) }
    ensures matched { Matched maps.now }
{
    // That the maps match is known from here on.
    let _len = maps.inner_len();
    let definitions = definitions_of(alloc, pieces)?;
    let clauses = piece_clauses(alloc, maps, pieces)?;
    Ok(Made {
        definitions,
        clauses,
    })
}
