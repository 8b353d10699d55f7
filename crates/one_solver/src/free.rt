ghost use Rattle.std.specs.Prelude.{◌≡◌, ◌<◌, ◌++◌, true, nat_lt, IfOk, OnOk, IsTrue};
ghost use Rattle.std.specs.List.{list_all};
ghost use Rattle.sat_lits.specs.Formulas.{names_known};
ghost use Rattle.sat_lits.specs.declared.formula.Item.TheVariants.{Clause, Parity};
ghost use Rattle.state_laws.specs.State.{outer_count};
ghost use Rattle.state_laws.specs.Kernel.{state_of};
ghost use Rattle.sync_laws.specs.Met.{KeepsMet};
ghost use Rattle.one_solver.specs.Basic.{IsBasic};
ghost use Rattle.one_solver.specs.Roots.{root_in, is_free, lost_var, last_var, lost_vars, last_vars, lits_of, all_lits};
ghost use Rattle.one_solver.specs.Settled.{CameBack};

use private_state::PrivateState;
use rebuild_stack::Root;
use removed_vars::outer_lit;
use restore_var::restore;
use sat_lits::{Item, Lit, NoMemory, Own, Var};
use std::alloc::Global;

/// What a literal of the caller comes to.
fn root_of(state: &PrivateState, lit: Lit) -> Root
    requires { lit.var.0 < outer_count state.now.definitions }
    ensures { result ≡ root_in state.now lit }
{
    state.root(outer_lit(state.maps(), lit))
}

/// Notes the eliminated variable to which a literal came, if there is one.
fn note_lost(lost: &mut Vec<Own>, root: Root) -> Result<(), NoMemory>
    ensures { OnOk result (lost.new.items ≡ lost.old.items ++ lost_var root) }
{
    if let Root::Lost(var) = root {
        lost.push(var)?;
    }
    Ok(())
}

/// Notes the variable that is left of a literal, if one is.
fn note_last(last: &mut Vec<Own>, root: Root) -> Result<(), NoMemory>
    ensures { OnOk result (last.new.items ≡ last.old.items ++ last_var root) }
{
    if let Root::Last(lit) = root {
        last.push(lit.var)?;
    }
    Ok(())
}

/// Notes the eliminated variables to which literals come.
fn note_lits(lost: &mut Vec<Own>, state: &PrivateState, lits: &[Lit]) -> Result<(), NoMemory>
    requires { IsTrue (list_all (λ l. nat_lt l.var.0 (outer_count state.now.definitions)) lits.now) }
    ensures { OnOk result (lost.new.items ≡ lost.old.items ++ lost_vars state.now lits.now) }
{
    for lit in lits {
        note_lost(lost, root_of(state, *lit))?;
    }
    Ok(())
}

/// Notes the eliminated variables to which the variables of a parity come.
fn note_vars(lost: &mut Vec<Own>, state: &PrivateState, vars: &[Var]) -> Result<(), NoMemory>
    requires { IsTrue (list_all (λ v. nat_lt v.0 (outer_count state.now.definitions)) vars.now) }
    ensures { OnOk result (lost.new.items ≡ lost.old.items ++ lost_vars state.now (lits_of (Parity vars.now true))) }
{
    for var in vars {
        let lit = Lit {
            var: *var,
            negative: false,
        };
        note_lost(lost, root_of(state, lit))?;
    }
    Ok(())
}

/// Notes the eliminated variables to which the literals of an item come.
fn note_item(lost: &mut Vec<Own>, state: &PrivateState, item: &Item) -> Result<(), NoMemory>
    requires { IsTrue (names_known (outer_count state.now.definitions) item.now) }
    ensures { OnOk result (lost.new.items ≡ lost.old.items ++ lost_vars state.now (lits_of item.now)) }
{
    match item {
        Item::Clause(lits) => note_lits(lost, state, lits.as_slice()),
        Item::Parity { vars, .. } => note_vars(lost, state, vars.as_slice()),
    }
}

/// The eliminated variables to which the literals of items come. The only error is want of memory.
fn lost_in(alloc: Global, state: &PrivateState, items: &[Item]) -> Result<Vec<Own>, NoMemory>
    requires { IsTrue (list_all (names_known (outer_count state.now.definitions)) items.now) }
    ensures { IfOk result (λ lost. lost.items ≡ lost_vars state.now (all_lits items.now)) }
{
    let mut lost = Vec::new(alloc);
    for item in items {
        note_item(&mut lost, state, item)?;
    }
    Ok(lost)
}

/// Brings variables back, so that no literal of these items comes to an eliminated one, and none but
/// those to which one came and what their clauses need. After want of memory some may be back.
///
/// Where the literals come to no eliminated variable it costs a walk over them.
pub fn free_items(alloc: Global, state: &mut PrivateState, items: &[Item]) -> Result<(), NoMemory>
    requires basic { IsBasic state.old }
    requires known { IsTrue (list_all (names_known (outer_count state.old.definitions)) items.now) }
    ensures basic { IsBasic state.new }
    ensures back { CameBack state.old state.new }
    ensures met { KeepsMet (state_of state.old) (state_of state.new) }
    ensures free { OnOk result (IsTrue (list_all (is_free state.new) (all_lits items.now))) }
{
    let lost = lost_in(alloc, state, items)?;
    restore(alloc, state, &lost)
}

/// The same for literals.
pub fn free_lits(alloc: Global, state: &mut PrivateState, lits: &[Lit]) -> Result<(), NoMemory>
    requires basic { IsBasic state.old }
    requires known { IsTrue (names_known (outer_count state.old.definitions) (Clause lits.now)) }
    ensures basic { IsBasic state.new }
    ensures back { CameBack state.old state.new }
    ensures met { KeepsMet (state_of state.old) (state_of state.new) }
    ensures free { OnOk result (IsTrue (list_all (is_free state.new) lits.now)) }
{
    let mut lost = Vec::new(alloc);
    note_lits(&mut lost, state, lits)?;
    restore(alloc, state, &lost)
}

/// The variables that are left of literals. The only error is want of memory.
pub fn last_vars(alloc: Global, state: &PrivateState, lits: &[Lit]) -> Result<Vec<Own>, NoMemory>
    requires { IsTrue (list_all (λ l. nat_lt l.var.0 (outer_count state.now.definitions)) lits.now) }
    ensures { IfOk result (λ last. last.items ≡ last_vars state.now lits.now) }
{
    let mut last = Vec::new(alloc);
    for lit in lits {
        note_last(&mut last, root_of(state, *lit))?;
    }
    Ok(last)
}
