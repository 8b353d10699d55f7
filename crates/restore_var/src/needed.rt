ghost use Rattle.std.specs.Prelude.{◌≡◌, IfOk, OnOk};
ghost use Rattle.rebuild_stack.specs.Roots.{root};
ghost use Rattle.state_laws.specs.Kernel.{Standing};
ghost use Rattle.restore_var.specs.Marks.{is_marked};
ghost use Rattle.restore_var.specs.Needs.{leads_to, clause_leads, block_leads, hands_on, GrowsFor, AreNeeded};

use crate::marks::{is_marked, mark, marks_of};
use private_state::PrivateState;
use rebuild_stack::{Block, Entry, Root};
use sat_lits::{NoMemory, Own, OwnLit};
use std::alloc::Global;
use std::collections::HashMap;

/// Marks the eliminated variable that a literal comes to, if it comes to one.
fn mark_lost(
    state: &PrivateState,
    lit: OwnLit,
    marks: &mut HashMap<u32, bool>,
) -> Result<(), NoMemory>
    ensures { OnOk result (GrowsFor (λ p. leads_to p (root state.now.stack lit)) (is_marked marks.old) (is_marked marks.new)) }
{
    match state.root(lit) {
        Root::Lost(var) => mark(marks, var),
        Root::Known(_) | Root::Last(_) => Ok(()),
    }
}

/// Marks the eliminated variables that a clause needs.
fn mark_clause(
    state: &PrivateState,
    lits: &[OwnLit],
    marks: &mut HashMap<u32, bool>,
) -> Result<(), NoMemory>
    ensures { OnOk result (GrowsFor (clause_leads state.now.stack lits.now) (is_marked marks.old) (is_marked marks.new)) }
{
    'each: for lit in lits {
        mark_lost(state, *lit, marks)?;
    }
    Ok(())
}

/// Marks the eliminated variables that clauses need.
fn mark_block(
    state: &PrivateState,
    block: &Block,
    marks: &mut HashMap<u32, bool>,
) -> Result<(), NoMemory>
    ensures { OnOk result (GrowsFor (block_leads state.now.stack block.now) (is_marked marks.old) (is_marked marks.new)) }
{
    'each: for at in 0..block.len() {
        mark_clause(state, block.get(at), marks)?;
    }
    Ok(())
}

/// Marks what the clauses of an entry need, where its variable is marked.
fn mark_entry(
    state: &PrivateState,
    entry: &Entry,
    marks: &mut HashMap<u32, bool>,
) -> Result<(), NoMemory>
    ensures { OnOk result (GrowsFor (λ p. hands_on p state.now.stack entry.now) (is_marked marks.old) (is_marked marks.new)) }
{
    let Entry::Gone { var, clauses } = entry else {
        return Ok(());
    };
    if !is_marked(marks, *var) {
        return Ok(());
    }
    mark_block(state, clauses, marks)
}

/// Marks variables, and with each what its clauses need. An entry needs newer ones alone, so one walk
/// from the oldest to the newest finds all.
pub(crate) fn mark_needed(
    alloc: Global,
    state: &PrivateState,
    vars: &[Own],
) -> Result<HashMap<u32, bool>, NoMemory>
    ensures needed { IfOk result (λ marks. AreNeeded vars.now state.now.stack (is_marked marks)) }
    ensures standing { Standing state.now }
{
    // That the state stands is known from here on.
    let _okay = state.okay();
    let mut marks = marks_of(alloc, vars)?;
    'up: for entry in state.stack().entries() {
        mark_entry(state, entry, &mut marks)?;
    }
    Ok(marks)
}
