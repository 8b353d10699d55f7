ghost use Rattle.std.specs.Prelude.{◌≡◌, ◌+◌, ◌<◌, ◌≤◌, ◌∷◌, [], None, max, min, drop, OnOk, OnErr, IsTrue};
ghost use Rattle.trail.specs.Trail.{IsKept, value_in, unset_in, step_in, level_in, reason_in, level_of, shaped_step, back_to, lits_of};

use sat_lits::{ClauseId, InLit, Inner, NoMemory};
use std::alloc::Global;
use std::marker::Model;

/// An assigned literal with its level and its reason, the clause that gave it, if a clause did.
#[derive(Clone, Copy, Debug, PartialEq, Eq)]
pub struct Step {
    pub lit: InLit,
    pub level: u32,
    pub reason: Option<ClauseId>,
}

/// The assigned literals in order of assignment. No variable is assigned twice.
#[derive(Debug, Drop)]
pub struct Trail {
    // Oldest first, with room for every reserved variable.
    lits: Vec<InLit>,
    // By variable, its step where it is assigned.
    by_variable: Vec<Option<Step>>,
}

impl Model for Trail {
    ghost use Rattle.trail.specs.Trail.{Assignment};

    ghost Value = { Assignment };

    ghost use Rattle.trail.specs.Inside.{assignment_of, IsTied};

    ghost view = { assignment_of };

    ghost invariant = { IsTied };
}

impl Trail {
    /// A trail on which nothing is assigned and no variable is reserved. It takes no memory.
    pub fn new(alloc: Global) -> Trail
        ensures { result ≡ record { steps = []; reserved = 0 } }
    {
        Trail {
            lits: Vec::new(alloc),
            by_variable: Vec::new(alloc),
        }
    }

    /// Makes room for the variables below a number, so that assigning one takes no memory. Room is
    /// never given back. The only error is want of memory, and nothing changes then.
    pub fn reserve(&mut self, variables: u32) -> Result<(), NoMemory>
        ensures ok { OnOk result (self.new ≡ record self.old { reserved = max self.old.reserved variables }) }
        ensures err { OnErr result (self.new ≡ self.old) }
    {
        let variables = variables as usize;
        if variables <= self.by_variable.len() {
            return Ok(());
        }
        self.lits.reserve(variables - self.lits.len())?;
        self.by_variable.resize(variables, None)?;
        Ok(())
    }

    /// The number below which all variables are reserved.
    pub fn reserved(&self) -> u32
        ensures value { result ≡ self.now.reserved }
        ensures kept { IsKept self.now }
    {
        self.by_variable.len() as u32
    }

    /// Assigns a literal at the present level, where its variable is reserved and unset.
    pub fn assign(&mut self, lit: InLit, reason: Option<ClauseId>)
        requires reserved { lit.var.0 < self.old.reserved }
        requires unset { IsTrue (unset_in self.old.steps lit) }
        ensures { self.new ≡ record self.old { steps = record { lit = lit; level = level_of self.old.steps; reason = reason } ∷ self.old.steps } }
    {
        let level = self.level();
        self.push(Step { lit, level, reason });
    }

    /// Opens the next level with a literal, where its variable is reserved and unset.
    pub fn decide(&mut self, lit: InLit)
        requires reserved { lit.var.0 < self.old.reserved }
        requires unset { IsTrue (unset_in self.old.steps lit) }
        ensures { self.new ≡ record self.old { steps = record { lit = lit; level = level_of self.old.steps + 1; reason = None } ∷ self.old.steps } }
    {
        let level = self.level() + 1;
        self.push(Step {
            lit,
            level,
            reason: None,
        });
    }

    /// Takes back the literals of all levels above one. Nothing changes where the present level is
    /// not above it.
    pub fn back_to(&mut self, level: u32)
        ensures steps { self.new ≡ record self.old { steps = back_to level self.old.steps } }
        ensures level { level_of self.new.steps ≡ min level (level_of self.old.steps) }
        ensures same { level_of self.old.steps ≤ level → self.new ≡ self.old }
    {
        while level < self.level() {
            self.take_back();
        }
    }

    /// Whether a literal is true, or None exactly where its variable is unset, which one that is not
    /// reserved always is.
    pub fn value(&self, lit: InLit) -> Option<bool>
        ensures { result ≡ value_in self.now.steps lit }
    {
        let step = self.step_of(lit.var)?;
        Some(step.lit.negative == lit.negative)
    }

    /// The level at which a variable is assigned, or None exactly where it is unset.
    pub fn level_of(&self, var: Inner) -> Option<u32>
        ensures { result ≡ level_in self.now.steps var.0 }
    {
        Some(self.step_of(var)?.level)
    }

    /// The clause that gave a variable its value, or None where it is unset or no clause did.
    pub fn reason_of(&self, var: Inner) -> Option<ClauseId>
        ensures { result ≡ reason_in self.now.steps var.0 }
    {
        self.step_of(var)?.reason
    }

    /// The present level, which is that of the newest literal, or 0 where none is assigned.
    pub fn level(&self) -> u32
        ensures value { result ≡ level_of self.now.steps }
        ensures kept { IsKept self.now }
    {
        match self.lits.last() {
            Some(lit) => self.level_of(lit.var).unwrap_or(0),
            None => 0,
        }
    }

    /// The assigned literals, oldest first.
    pub fn lits(&self) -> &[InLit]
        ensures value { result.now ≡ lits_of self.now.steps }
        ensures kept { IsKept self.now }
    {
        &self.lits
    }

    /// The step of a variable, or None where it is unset or not reserved.
    fn step_of(&self, var: Inner) -> Option<Step>
        ensures value { result ≡ step_in self.now.steps var.0 }
        ensures kept { IsKept self.now }
    {
        let place = var.0 as usize;
        if place < self.by_variable.len() {
            self.by_variable[place]
        } else {
            None
        }
    }

    /// Takes a step as the newest one.
    fn push(&mut self, step: Step)
        requires reserved { step.lit.var.0 < self.old.reserved }
        requires shaped { IsTrue (shaped_step self.old.steps step) }
        ensures { self.new ≡ record self.old { steps = step ∷ self.old.steps } }
    {
        self.lits.push_reserved(step.lit);
        self.by_variable[step.lit.var.0 as usize] = Some(step);
    }

    /// Takes the newest step back, if there is one.
    fn take_back(&mut self)
        ensures { self.new ≡ record self.old { steps = drop 1 self.old.steps } }
    {
        if let Some(lit) = self.lits.pop() {
            self.by_variable[lit.var.0 as usize] = None;
        }
    }
}

#[cfg(test)]
mod tests {
    use super::*;
    use std::test::Fail;

    const fn literal(var: u32, negative: bool) -> InLit
        ensures { result ≡ record { var = record { 0 = var }; negative = negative } }
    {
        InLit {
            var: Inner(var),
            negative,
        }
    }

    #[test]
    fn a_trail_goes_up_and_back(rt: HostRuntime) -> Result<(), Fail> {
        let mut trail = Trail::new(rt.alloc());
        trail.reserve(4)?;
        trail.reserve(2)?;
        assert_eq!(rt; trail.reserved(), 4);
        trail.assign(literal(3, false), None);
        trail.decide(literal(0, true));
        trail.assign(literal(2, false), Some(ClauseId(7)));
        trail.decide(literal(1, false));

        let rows = [
            (0, Some(false), Some(1), None),
            (1, Some(true), Some(2), None),
            (2, Some(true), Some(1), Some(ClauseId(7))),
            (3, Some(true), Some(0), None),
            (4, None, None, None),
        ];
        for (var, value, level, reason) in rows {
            assert_eq!(rt; trail.value(literal(var, false)), value, "of {var}");
            assert_eq!(rt;
                trail.value(literal(var, true)),
                value.map(|v| !v),
                "of not {var}"
            );
            assert_eq!(rt; trail.level_of(Inner(var)), level, "of {var}");
            assert_eq!(rt; trail.reason_of(Inner(var)), reason, "of {var}");
        }

        let oldest_first = [
            literal(3, false),
            literal(0, true),
            literal(2, false),
            literal(1, false),
        ];
        for (level, count) in [(5, 4), (2, 4), (1, 3), (0, 1)] {
            trail.back_to(level);
            assert_eq!(rt;
                trail.lits(),
                oldest_first.get(..count).unwrap_or(&[]),
                "at {level}"
            );
            assert_eq!(rt; trail.level(), level.min(2));
        }
        Ok(())
    }
}
