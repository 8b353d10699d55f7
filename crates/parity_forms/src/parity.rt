ghost use Rattle.std.specs.Prelude.{◌≡◌, ◌+◌, ◌≤◌, ◌^◌, ◌++◌, ◌<◌, true, length, map, filter_map, nat_lt, option_to_list, IfOk, OnOk};
ghost use Rattle.std.specs.List.{list_all};
ghost use Rattle.sat_lits.specs.Truth.{signed};
ghost use Rattle.sat_lits.specs.Conflicts.{odd_vars, cuts_of_count};
ghost use Rattle.xor_cut.specs.Pieces.{own_var, pieces};
ghost use Rattle.removed_vars.specs.Removed.{IsInOrder};
ghost use Rattle.parity_forms.specs.Parities.{left_number, turns, left_vars, left_rhs};
ghost use Rattle.parity_forms.specs.InMaps.{outer_root};

use crate::odd::odd_numbers;
use rebuild_stack::Root;
use removed_vars::{RemovedVars, outer_lit};
use sat_lits::{List, Lit, NoMemory, Own, Var};
use std::alloc::Global;
use var_maps::VarMaps;
use xor_cut::{Pieces, cut};

/// A parity over different own variables.
#[derive(Drop)]
struct OwnParity {
    vars: List<Own>,
    rhs: bool,
}

/// What is left of the variables of a parity, by own numbers, and its right side.
#[derive(Drop)]
struct Left {
    numbers: List<u32>,
    rhs: bool,
}

fn var_numbers(alloc: Global, vars: &[Var]) -> Result<List<u32>, NoMemory>
    ensures { IfOk result (λ numbers. numbers ≡ map (λ v. v.0) vars.now) }
{
    let mut numbers = List::new(alloc);
    for var in vars {
        numbers.push(var.0)?;
    }
    Ok(numbers)
}

fn own_vars(alloc: Global, numbers: &[u32]) -> Result<List<Own>, NoMemory>
    ensures { IfOk result (λ vars. vars ≡ map own_var numbers.now) }
{
    let mut vars = List::new(alloc);
    for number in numbers {
        vars.push(Own(*number))?;
    }
    Ok(vars)
}

/// What an outer variable comes to along the stack.
fn outer_root(maps: &VarMaps, removed: &RemovedVars, number: u32) -> Root
    requires there { number < length maps.now.outers }
    requires order { IsInOrder removed.now.entries }
    ensures { result ≡ outer_root maps.now removed.now.entries number }
{
    removed.root(outer_lit(
        maps,
        Lit {
            var: Var(number),
            negative: false,
        },
    ))
}

/// Puts into a parity what one of its variables came to.
fn put_root(left: &mut Left, root: Root) -> Result<(), NoMemory>
    ensures numbers { OnOk result (left.new.numbers ≡ left.old.numbers ++ option_to_list (left_number root)) }
    ensures rhs { OnOk result (left.new.rhs ≡ signed (turns root) left.old.rhs) }
{
    let turns = match root {
        Root::Known(value) => value,
        Root::Lost(_) => false,
        Root::Last(lit) => {
            left.numbers.push(lit.var.0)?;
            lit.negative
        }
    };
    if turns {
        left.rhs = !left.rhs;
    }
    Ok(())
}

/// Puts into a parity what its variables come to.
fn put_roots(
    alloc: Global,
    maps: &VarMaps,
    removed: &RemovedVars,
    numbers: &[u32],
    rhs: bool,
) -> Result<Left, NoMemory>
    requires there { list_all (λ n. nat_lt n (length maps.now.outers)) numbers.now ≡ true }
    requires order { IsInOrder removed.now.entries }
    ensures numbers { IfOk result (λ left. left.numbers ≡ filter_map left_number (map (outer_root maps.now removed.now.entries) numbers.now)) }
    ensures rhs { IfOk result (λ left. left.rhs ≡ left_rhs (map (outer_root maps.now removed.now.entries) numbers.now) rhs) }
{
    let mut left = Left {
        numbers: List::new(alloc),
        rhs,
    };
    'each: for number in numbers {
        put_root(&mut left, outer_root(maps, removed, *number))?;
    }
    Ok(left)
}

/// A parity of the caller in own variables, each once: repeats are cancelled, and fixed and replaced
/// variables are put in with their signs.
fn own_parity(
    alloc: Global,
    maps: &VarMaps,
    removed: &RemovedVars,
    vars: &[Var],
    rhs: bool,
) -> Result<OwnParity, NoMemory>
    requires there { list_all (λ v. nat_lt v.0 (length maps.now.outers)) vars.now ≡ true }
    requires order { IsInOrder removed.now.entries }
    ensures vars { IfOk result (λ parity. parity.vars ≡ left_vars (map (outer_root maps.now removed.now.entries) (odd_vars vars.now))) }
    ensures rhs { IfOk result (λ parity. parity.rhs ≡ left_rhs (map (outer_root maps.now removed.now.entries) (odd_vars vars.now)) rhs) }
{
    let numbers = var_numbers(alloc, vars)?;
    let odd = odd_numbers(alloc, numbers.as_slice())?;
    let left = put_roots(alloc, maps, removed, odd.as_slice(), rhs)?;
    let own = odd_numbers(alloc, left.numbers.as_slice())?;
    let vars = own_vars(alloc, own.as_slice())?;
    Ok(OwnParity {
        vars,
        rhs: left.rhs,
    })
}

/// The pieces of a parity of the caller in own variables: repeats are cancelled, fixed and replaced
/// variables are put in, and what is left is cut. The fresh variables are the next own ones. The
/// only error is want of memory.
pub fn own_pieces(
    alloc: Global,
    maps: &VarMaps,
    removed: &RemovedVars,
    vars: &[Var],
    rhs: bool,
) -> Result<Pieces, NoMemory>
    requires there { list_all (λ v. nat_lt v.0 (length maps.now.outers)) vars.now ≡ true }
    requires order { IsInOrder removed.now.entries }
    requires below { list_all (λ v. nat_lt v.0 (length maps.now.inners)) (left_vars (map (outer_root maps.now removed.now.entries) (odd_vars vars.now))) ≡ true }
    requires room { length maps.now.inners + cuts_of_count (length (left_vars (map (outer_root maps.now removed.now.entries) (odd_vars vars.now)))) ≤ 2 ^ 32 }
    ensures { IfOk result (λ ps. ps ≡ pieces (left_vars (map (outer_root maps.now removed.now.entries) (odd_vars vars.now))) (left_rhs (map (outer_root maps.now removed.now.entries) (odd_vars vars.now)) rhs) (length maps.now.inners)) }
{
    let parity = own_parity(alloc, maps, removed, vars, rhs)?;
    let pieces = cut(alloc, parity.vars.as_slice(), parity.rhs, maps.own_len())?;
    Ok(pieces)
}
