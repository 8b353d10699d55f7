ghost use Rattle.std.specs.Prelude.{◌≡◌, ◌<◌, ◌∷◌, [], IfOk, OnOk, IsTrue};
ghost use Rattle.std.specs.List.{list_all};
ghost use Rattle.trail.specs.Trail.{level_of};
ghost use Rattle.propagate.specs.Reasons.{reasoned};

use crate::marks::Marks;
use clause_store::ClauseStore;
use sat_lits::{InLit, NoMemory};
use smallvec::SmallVec;
use std::alloc::Global;
use trail::Trail;

/// A walk back over a trail, from a conflict to the first literal of the present level through which
/// all ways from the decision to the conflict lead.
#[derive(Debug, Drop)]
pub struct Walk {
    // The variables of the clause that was resolved so far, and of the literals that it was
    // resolved on.
    pub marks: Marks,
    // The present level of the trail.
    pub level: u32,
    // How many literals of the trail, oldest first, are still to be walked.
    pub left: usize,
    // How many of these are marked and of the present level.
    pub pending: usize,
    // The literals of lower levels in the clause that was resolved so far.
    pub others: SmallVec<InLit, 8>,
}

impl Walk {
    ghost use Rattle.analyze.specs.Walks.{IsWalkOn, IsStart, MarkedAll, AtWalk, IsTaken, AtEnd, may_mark};

    /// It takes no memory.
    pub fn new(alloc: Global) -> Walk
        ensures { result.marks.vars ≡ [] }
    {
        Walk {
            marks: Marks::new(alloc),
            level: 0,
            left: 0,
            pending: 0,
            others: SmallVec::new(alloc),
        }
    }

    /// Goes to the newest literal of a trail, with no marks.
    pub fn start(&mut self, trail: &Trail) -> Result<(), NoMemory>
        ensures { OnOk result (IsStart trail.now self.new) }
    {
        self.marks.start(trail.reserved())?;
        self.level = trail.level();
        self.left = trail.lits().len();
        self.pending = 0;
        self.others.clear();
        Ok(())
    }

    /// Marks the variables of literals that are false in the rest of the walk.
    pub fn mark_all(&mut self, trail: &Trail, lits: &[InLit]) -> Result<(), NoMemory>
        requires stands { IsWalkOn trail.now self.old }
        requires known { IsTrue (list_all (may_mark trail.now.steps self.old) lits.now) }
        ensures { OnOk result (MarkedAll trail.now lits.now self.old self.new) }
    {
        for lit in lits {
            self.mark(trail, *lit)?;
        }
        Ok(())
    }

    fn mark(&mut self, trail: &Trail, lit: InLit) -> Result<(), NoMemory>
        requires stands { IsWalkOn trail.now self.old }
        requires known { IsTrue (may_mark trail.now.steps self.old lit) }
        ensures { OnOk result (MarkedAll trail.now (lit ∷ []) self.old self.new) }
    {
        if let Some(level) = self.marks.mark(trail, lit.var)? {
            if level == self.level {
                self.pending += 1;
            } else {
                self.others.push(lit)?;
            }
        }
        Ok(())
    }

    /// Walks back until one marked literal of the present level is left, and gives its negation.
    pub fn first_uip(&mut self, store: &ClauseStore, trail: &Trail) -> Result<InLit, NoMemory>
        requires reasoned { IsTrue (reasoned store.now.held trail.now.steps) }
        requires level { 0 < level_of trail.now.steps }
        requires walk { AtWalk store.now.held trail.now self.old }
        ensures { IfOk result (AtEnd store.now.held trail.now self.new) }
    {
        let lits = trail.lits();
        'back: loop {
            self.left -= 1;
            let lit = lits[self.left];
            if self.marks.contains(lit.var) {
                self.pending -= 1;
                if self.pending == 0 {
                    return Ok(InLit {
                        var: lit.var,
                        negative: !lit.negative,
                    });
                }
                self.resolve(store, trail, lit)?;
            }
        }
    }

    /// Marks the other literals of the reason of a literal.
    fn resolve(&mut self, store: &ClauseStore, trail: &Trail, lit: InLit) -> Result<(), NoMemory>
        requires reasoned { IsTrue (reasoned store.now.held trail.now.steps) }
        requires taken { IsTaken store.now.held trail.now self.old lit }
        ensures walk { OnOk result (AtWalk store.now.held trail.now self.new) }
        ensures left { OnOk result (self.new.left ≡ self.old.left) }
    {
        match trail.reason_of(lit.var) {
            Some(id) => self.mark_all(trail, store.lits(id)),
            None => unreachable!(),
        }
    }
}
