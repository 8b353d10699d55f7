ghost use Rattle.std.specs.Prelude.{◌≤◌, [], length, IfOk, OnOk, IsTrue};
ghost use Rattle.trail.specs.Trail.{IsKept, false_in};
ghost use Rattle.propagate.specs.Reasons.{reasoned};
ghost use Rattle.analyze.specs.FinalSets.{IsFinalSet};
ghost use Rattle.analyze.specs.Deciding.{AtDecisions, Covers};

use crate::marks::Marks;
use clause_store::ClauseStore;
use sat_lits::{InLit, List, NoMemory};
use smallvec::SmallVec;
use trail::Trail;

/// The levels, rising, of the decisions that make a literal false by the clauses.
pub fn deciding_levels(
    marks: &mut Marks,
    store: &ClauseStore,
    trail: &Trail,
    lit: InLit,
) -> Result<List<u32>, NoMemory>
    requires reasoned { IsTrue (reasoned store.now.held trail.now.steps) }
    requires false_lit { IsTrue (false_in trail.now.steps lit) }
    ensures { IfOk result (IsFinalSet store.now.held trail.now.steps lit) }
{
    marks.start(trail.reserved())?;
    let _level = marks.mark(trail, lit.var)?;
    let mut levels = falling_levels(marks, store, trail, lit)?;
    levels.as_mut_slice().reverse();
    List::from_slice(marks.allocator(), levels.as_slice())
}

/// The levels, falling, of the decisions to which the reasons of the marked literals lead back.
fn falling_levels(
    marks: &mut Marks,
    store: &ClauseStore,
    trail: &Trail,
    lit: InLit,
) -> Result<SmallVec<u32, 8>, NoMemory>
    requires reasoned { IsTrue (reasoned store.now.held trail.now.steps) }
    requires start { AtDecisions store.now.held trail.now lit marks.old (length trail.now.steps) [] }
    ensures { IfOk result (λ levels. AtDecisions store.now.held trail.now lit marks.new 0 levels.items) }
{
    let mut levels = SmallVec::new(marks.allocator());
    let lits = trail.lits();
    let mut left = lits.len();
    'back: while left > 0 {
        left -= 1;
        let var = lits[left].var;
        if marks.contains(var) {
            match trail.reason_of(var) {
                Some(id) => mark_all(marks, trail, store.lits(id))?,
                None => levels.push(trail.level_of(var).unwrap_or(0))?,
            }
        }
    }
    Ok(levels)
}

/// Marks the variables of literals.
fn mark_all(marks: &mut Marks, trail: &Trail, lits: &[InLit]) -> Result<(), NoMemory>
    requires kept { IsKept trail.now }
    requires room { trail.now.reserved ≤ marks.old.room }
    ensures { OnOk result (Covers trail.now lits.now marks.old marks.new) }
{
    for lit in lits {
        let _level = marks.mark(trail, lit.var)?;
    }
    Ok(())
}
