ghost use Rattle.std.specs.Prelude.{◌≡◌, ◌<◌, ◌==◌, ◌||◌, ◌&&◌, ℕ, false, not, length, slice_index_or, IfOk, OnErr, IsTrue, IsFalse};
ghost use Rattle.std.specs.List.{list_any};
ghost use Rattle.var_maps.specs.Maps.{outer_at};
ghost use Rattle.state_laws.specs.Moves.{eliminated};
ghost use Rattle.state_laws.specs.Kernel.{state_of, plain_kernel, TookSame};
ghost use Rattle.sync_laws.specs.Met.{KeepsMet};
ghost use Rattle.var_elim.specs.Eliminating.{Eliminates, NoneCanGo, can_go, keeps, is_left};

use private_state::PrivateState;
use sat_lits::{NoMemory, Own};
use std::alloc::Global;
use var_maps::VarMaps;

/// Whether a solver keeps a variable: an outer one, by its number.
fn keeps(maps: &VarMaps, solver: u32, var: Own) -> bool
    requires { var.0 < length maps.now.inners }
    ensures { result ≡ keeps solver (outer_at maps.now var.0) }
{
    match maps.to_outer(var) {
        Some(outer) => (u64::from(outer.0) + u64::from(solver)) % 4 == 3,
        None => false,
    }
}

/// By own variable, whether a solver keeps it.
fn kept_vars(alloc: Global, maps: &VarMaps, solver: u32) -> Result<Vec<bool>, NoMemory>
    ensures long { IfOk result (λ table. length table.items ≡ length maps.now.inners) }
    ensures told { IfOk result (λ table. (v : ℕ) → v < length maps.now.inners → slice_index_or table.items v false ≡ keeps solver (outer_at maps.now v)) }
{
    let len = maps.own_len();
    let mut table = vec![in alloc; false; len as usize]?;
    'each: for var in 0..len {
        table[var as usize] = keeps(maps, solver, Own(var));
    }
    Ok(table)
}

/// By own variable, whether it is frozen or a solver keeps it.
fn left_vars(
    alloc: Global,
    maps: &VarMaps,
    frozen: &[Own],
    solver: u32,
) -> Result<Vec<bool>, NoMemory>
    ensures long { IfOk result (λ table. length table.items ≡ length maps.now.inners) }
    ensures told { IfOk result (λ table. (v : ℕ) → v < length maps.now.inners → slice_index_or table.items v false ≡ is_left maps.now frozen.now solver v) }
{
    let mut table = kept_vars(alloc, maps, solver)?;
    'each: for var in frozen {
        let at = var.0 as usize;
        if at < table.len() {
            table[at] = true;
        }
    }
    Ok(table)
}

/// Eliminates a variable exactly where it is active and meets the bound, and tells whether it did.
fn eliminate_if(state: &mut PrivateState, var: Own) -> Result<bool, NoMemory>
    ensures can { IfOk result (λ done. done ≡ can_go (state_of state.old) var.0) }
    ensures gone { IfOk result (λ done. IsTrue done → state_of state.new ≡ eliminated var (state_of state.old)) }
    ensures same { IfOk result (λ done. IsFalse done → state.new ≡ state.old) }
    ensures err { OnErr result (plain_kernel state.new ≡ plain_kernel state.old) }
{
    if !state.is_active(var) {
        return Ok(false);
    }
    let done = state.eliminate_within_bound(var)?;
    Ok(done)
}

/// The same but where a table has the variable: then it is left.
fn eliminate_unless(state: &mut PrivateState, left: &[bool], var: Own) -> Result<bool, NoMemory>
    requires { var.0 < length left.now }
    ensures can { IfOk result (λ done. done ≡ (not (slice_index_or left.now var.0 false) && can_go (state_of state.old) var.0)) }
    ensures gone { IfOk result (λ done. IsTrue done → state_of state.new ≡ eliminated var (state_of state.old)) }
    ensures same { IfOk result (λ done. IsFalse done → state.new ≡ state.old) }
    ensures err { OnErr result (plain_kernel state.new ≡ plain_kernel state.old) }
{
    if left[var.0 as usize] {
        return Ok(false);
    }
    let done = eliminate_if(state, var)?;
    Ok(done)
}

/// Eliminates active variables that meet the bound, one after another, and tells how many (Eén and
/// Biere, 2005): none that is frozen, and none that the solver `kept_by` keeps. It looks at each
/// variable once, and in a later call at one that is left only where a hard clause that holds it was
/// added or dropped. Where none is eliminated, no other active variable meets the bound; else another
/// call may find more. The only error is want of memory, and some may be eliminated then.
pub fn eliminate_some(
    alloc: Global,
    state: &mut PrivateState,
    frozen: &[Own],
    kept_by: u32,
) -> Result<u64, NoMemory>
    ensures done { IfOk result (λ n. Eliminates n (is_left state.old.maps frozen.now kept_by) (state_of state.old) (state_of state.new)) }
    ensures none { IfOk result (λ n. n ≡ 0 → NoneCanGo state.new frozen.now kept_by) }
    ensures some { (n : ℕ) × Eliminates n (is_left state.old.maps frozen.now kept_by) (state_of state.old) (state_of state.new) }
    ensures same { TookSame state.old state.new }
    ensures met { KeepsMet (state_of state.old) (state_of state.new) }
{
    let left = left_vars(alloc, state.maps(), frozen, kept_by)?;
    let mut count = 0;
    'each: for var in 0..state.maps().own_len() {
        if eliminate_unless(state, &left, Own(var))? {
            count += 1;
        }
    }
    Ok(count)
}
