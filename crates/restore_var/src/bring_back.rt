ghost use Rattle.std.specs.Prelude.{◌≡◌, ◌<◌, true, length, filter, slice_get, Some, IfOk, OnOk};
ghost use Rattle.std.specs.List.{list_any};
ghost use Rattle.rebuild_stack.specs.Entries.{is_block_of};
ghost use Rattle.rebuild_stack.specs.declared.entry.Entry.{Entry};
ghost use Rattle.state_laws.specs.Kernel.{state_of, Standing};
ghost use Rattle.sync_laws.specs.Met.{KeepsMet};
ghost use Rattle.restore_var.specs.Marks.{is_marked};
ghost use Rattle.removed_vars.specs.Restoring.{stays};
ghost use Rattle.restore_var.specs.Needs.{none_gone, is_closed, marked_block, AreFree};
ghost use Rattle.restore_var.specs.Restored.{AreMarkedGone, RestoresMarked, RestoresNeeded};

use crate::marks::is_marked;
use crate::needed::mark_needed;
use private_state::PrivateState;
use rebuild_stack::Entry;
use sat_lits::{NoMemory, Own};
use std::alloc::Global;
use std::collections::HashMap;

/// The marked variable whose `Gone` entry stands at a place, if one does.
fn marked_at(state: &PrivateState, marks: &HashMap<u32, bool>, at: usize) -> Option<Own>
    requires { at < length state.now.stack }
    ensures { (e : Entry) → slice_get state.now.stack at ≡ Some e → result ≡ marked_block (is_marked marks.now) e }
{
    let Entry::Gone { var, .. } = &state.stack().entries()[at] else {
        return None;
    };
    if is_marked(marks, *var) {
        Some(*var)
    } else {
        None
    }
}

/// The marked variables that are eliminated, from the one of the newest entry to that of the oldest.
fn marked_gone(
    alloc: Global,
    state: &PrivateState,
    marks: &HashMap<u32, bool>,
) -> Result<Vec<Own>, NoMemory>
    requires standing { Standing state.now }
    requires closed { is_closed (is_marked marks.now) state.now.stack ≡ true }
    ensures { IfOk result (λ vars. AreMarkedGone (is_marked marks.now) (state_of state.now) vars.items) }
{
    let mut vars = Vec::new(alloc);
    let count = state.stack().entries().len();
    'down: for at in (0..count).rev() {
        if let Some(var) = marked_at(state, marks, at) {
            vars.push(var)?;
        }
    }
    Ok(vars)
}

/// Restores the marked variables that are eliminated, from the newest entry to the oldest. Whatever
/// the clauses of a marked one need is marked.
fn restore_marked(
    alloc: Global,
    state: &mut PrivateState,
    marks: &HashMap<u32, bool>,
) -> Result<(), NoMemory>
    requires standing { Standing state.old }
    requires closed { is_closed (is_marked marks.now) state.old.stack ≡ true }
    ensures stack { OnOk result (state.new.stack ≡ filter (stays (is_marked marks.now)) state.old.stack) }
    ensures moves { RestoresMarked (is_marked marks.now) (state_of state.old) (state_of state.new) }
{
    let vars = marked_gone(alloc, state, marks)?;
    state.restore_all(&vars)
}

/// Whether one of these variables is eliminated.
fn any_gone(state: &PrivateState, vars: &[Own]) -> bool
    ensures { result ≡ list_any (λ v. list_any (is_block_of v) state.now.stack) vars.now }
{
    vars.iter().any(|var| state.is_eliminated(*var))
}

/// Brings back the variables that are eliminated, and first every newer eliminated one that their
/// clauses need, each as `restore_one` does. Where none of them is eliminated it does nothing. Afterwards
/// none of them is eliminated, and no literal that came to one of them comes to an eliminated variable.
/// The only error is want of memory: then some of these variables may have come back. Each shared
/// clause that was met stays so, then too.
///
/// A call that brings back variables walks over the stack a few times, however many they are, and
/// moves each entry once at most.
pub fn restore(alloc: Global, state: &mut PrivateState, vars: &[Own]) -> Result<(), NoMemory>
    ensures back { OnOk result (none_gone state.new.stack vars.now ≡ true) }
    ensures free { OnOk result (AreFree vars.now state.old.stack state.new.stack) }
    ensures moves { RestoresNeeded vars.now (state_of state.old) (state_of state.new) }
    ensures kept { KeepsMet (state_of state.old) (state_of state.new) }
{
    if !any_gone(state, vars) {
        return Ok(());
    }
    let marks = mark_needed(alloc, state, vars)?;
    restore_marked(alloc, state, &marks)
}
