ghost use Rattle.std.specs.Prelude.{◌≡◌, ◌<◌, [], IfOk, OnOk, OnErr, IsTrue};
ghost use Rattle.sat_lits.specs.InLits.{is_distinct};
ghost use Rattle.trail.specs.Trail.{false_in, level_of, back_to};
ghost use Rattle.clause_store.specs.Store.{IsKept};
ghost use Rattle.propagate.specs.Units.{false_clause};
ghost use Rattle.propagate.specs.Reasons.{names, reasoned};
ghost use Rattle.analyze.specs.Falsity.{has_present};
ghost use Rattle.analyze.specs.LearnedClauses.{IsLearned, unit_by_first};
ghost use Rattle.analyze.specs.FinalSets.{IsFinalSet};
ghost use Rattle.analyze.specs.Met.{are_set, lits_met};
ghost use Rattle.analyze.specs.Counting.{saturated};

use crate::chains::Chains;
use crate::deciding::deciding_levels;
use crate::tally::Tally;
use crate::walk::Walk;
use clause_store::ClauseStore;
use sat_lits::{ClauseId, InLit, Inner, List, NoMemory};
use std::alloc::Global;
use std::marker::Model;
use trail::Trail;

/// A clause that was learned from a conflict.
#[derive(Debug, Drop)]
pub struct Learned {
    /// The literal of the present level first.
    pub lits: List<InLit>,
    /// The greatest level of the others, or 0 where there is none. After the way back to it the
    /// clause is unit by its first literal.
    pub back: u32,
}

/// Finds what follows from a conflict, and keeps which variables it met. Its marks stay allocated
/// between calls.
#[derive(Debug, Drop)]
pub struct Analyzer {
    walk: Walk,
    chains: Chains,
}

impl Model for Analyzer {
    ghost use Rattle.std.specs.Prelude.{List};
    ghost use Rattle.sat_lits.specs.declared.literal.Inner.{Inner};

    ghost Value = { List Inner };

    ghost use Rattle.analyze.specs.InAnalyzer.{met_of};

    ghost view = { met_of };
}

impl Analyzer {
    /// It has met no variable, and takes no memory.
    pub fn new(alloc: Global) -> Analyzer
        ensures { result ≡ [] }
    {
        Analyzer {
            walk: Walk::new(alloc),
            chains: Chains::new(alloc),
        }
    }

    /// Learns a clause from one that is false in a trail and holds a literal of the present level,
    /// which is 1 or more, and counts it.
    ///
    /// The false clause is resolved with the reasons of its literals, from the newest to the oldest,
    /// until one literal of the present level is left (Marques-Silva and Sakallah, 1996; Zhang,
    /// Madigan, Moskewicz and Malik, 2001), and literals that the others imply along whole chains of
    /// reasons are left out (Sörensson and Biere, 2009). The only error is want of memory, and the
    /// tally stays then.
    pub fn learn(
        &mut self,
        store: &ClauseStore,
        trail: &Trail,
        conflict: ClauseId,
        tally: &mut Tally,
    ) -> Result<Learned, NoMemory>
        requires reasoned { IsTrue (reasoned store.now.held trail.now.steps) }
        requires level { 0 < level_of trail.now.steps }
        requires all_false { IsTrue (names store.now.held conflict (false_clause trail.now.steps)) }
        requires present { IsTrue (names store.now.held conflict (has_present trail.now.steps)) }
        ensures learned { IfOk result (λ learned. IsLearned store.now.held trail.now.steps learned.lits learned.back) }
        ensures distinct { IfOk result (λ learned. IsTrue (is_distinct learned.lits)) }
        ensures unit { IfOk result (λ learned. IsTrue (unit_by_first (back_to learned.back trail.now.steps) learned.lits)) }
        ensures set { OnOk result (IsTrue (are_set trail.now.steps self.new)) }
        ensures met { IfOk result (λ learned. IsTrue (lits_met self.new learned.lits)) }
        ensures kept { OnOk result (IsKept store.now) }
        ensures counted { OnOk result (tally.new ≡ saturated tally.old 1) }
        ensures err { OnErr result (tally.new ≡ tally.old) }
    {
        self.walk.start(trail)?;
        self.walk.mark_all(trail, store.lits(conflict))?;
        let first = self.walk.first_uip(store, trail)?;
        let learned = self.chains.shorten(&self.walk, store, trail, first)?;
        tally.raise();
        Ok(learned)
    }

    /// The variables that the last call met, those of level 0 aside, each once. Of `learn` these are
    /// the variables of the false clause and of the reasons that it was resolved with, which a search
    /// prefers from then on (Eén and Sörensson, 2003).
    pub fn met(&self) -> &[Inner]
        ensures { result.now ≡ self.now }
    {
        self.walk.marks.vars()
    }

    /// The levels, rising, of decisions that make a literal false by the clauses of a store, where
    /// the literal is false in a reasoned trail. The only error is want of memory.
    ///
    /// (The final conflict clause: Eén and Sörensson, 2003.)
    pub fn final_set(
        &mut self,
        store: &ClauseStore,
        trail: &Trail,
        lit: InLit,
    ) -> Result<List<u32>, NoMemory>
        requires reasoned { IsTrue (reasoned store.now.held trail.now.steps) }
        requires false_lit { IsTrue (false_in trail.now.steps lit) }
        ensures { IfOk result (IsFinalSet store.now.held trail.now.steps lit) }
    {
        deciding_levels(&mut self.walk.marks, store, trail, lit)
    }
}
