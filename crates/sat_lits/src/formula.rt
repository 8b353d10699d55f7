ghost use Rattle.std.specs.Prelude.{◌≡◌, ◌≢◌, ◌+◌, ◌<◌, ◌≤◌, ◌↔◌, ℕ, true, Some, None, Err, length, IsTrue, IfErr, OnOk, OnErr, map};
ghost use Rattle.sat_lits.specs.declared.formula.Item.TheVariants.{Clause, Parity};
ghost use Rattle.sat_lits.specs.Meaning.{IsModel};
ghost use Rattle.sat_lits.specs.Formulas.{Bounded, IsWithinLimits, no_problem, with_vars, with_item, first_unknown, numbers_of, names_known, lit_count};

use crate::limits::Limits;
use crate::list::{List, NoMemory};
use crate::literal::{Lit, Var};
use crate::satisfaction::satisfies_all;
use std::alloc::Global;
use std::marker::Model;
use thiserror::Error;

/// What a formula asks of an assignment.
#[derive(Debug, Drop)]
pub enum Item {
    /// One of the literals is true.
    Clause(List<Lit>),
    /// The number of true variables, counted with repeats, is odd exactly if `rhs`.
    Parity { vars: List<Var>, rhs: bool },
}

/// A call on a formula was refused.
#[derive(Clone, Copy, Debug, PartialEq, Eq, Error)]
pub enum FormulaError {
    /// A variable is not there; `var` is the number of the first such.
    #[error("NoSuchVar {var}")]
    NoSuchVar { var: u32 },
    /// There would be more variables than the limit.
    #[error("TooManyVars")]
    TooManyVars,
    /// There would be more literals than the limit.
    #[error("TooManyLits")]
    TooManyLits,
    /// Memory ran out.
    #[error("Memory")]
    Memory,
}

impl From<NoMemory> for FormulaError {
    ghost use Rattle.std.specs.Prelude.{◌≡◌};
    ghost use Rattle.sat_lits.specs.declared.formula.FormulaError.TheVariants.{Memory};

    ghost from_gives = { λ _ error. error ≡ Memory };

    fn from(_error: NoMemory) -> FormulaError {
        FormulaError::Memory
    }
}

/// Variables, and clauses and parities over them, within limits. These are at most the standard
/// ones, so there are fewer than 2^24 variables.
#[derive(Debug, Drop)]
pub struct Formula {
    alloc: Global,
    limits: Limits,
    vars: u32,
    lits: u64,
    items: Vec<Item>,
}

impl Model for Formula {
    ghost use Rattle.sat_lits.specs.Formulas.{Bounded};

    ghost Value = { Bounded };

    ghost use Rattle.sat_lits.specs.Kept.{value_of_formula, IsKept};

    ghost view = { value_of_formula };

    ghost invariant = { IsKept };
}

impl Formula {
    /// No variables and no items. It takes no memory.
    pub fn new(alloc: Global, limits: Limits) -> Formula
        ensures { result ≡ record { problem = no_problem; limits = limits } }
    {
        Formula {
            alloc,
            limits,
            vars: 0,
            lits: 0,
            items: Vec::new(alloc),
        }
    }

    /// Adds `by` variables. `TooManyVars` comes exactly where there would be more than the limit.
    pub fn grow(&mut self, by: u32) -> Result<(), FormulaError>
        ensures ok { OnOk result (self.new.problem ≡ with_vars by self.old.problem) }
        ensures limits { self.new.limits ≡ self.old.limits }

        ensures too_many_vars { (result ≡ Err FormulaError.TooManyVars) ↔ (self.old.limits.vars < self.old.problem.vars + by) }
        ensures only { IfErr result (λ e. e ≡ FormulaError.TooManyVars) }
        ensures err { OnErr result (self.new ≡ self.old) }
    {
        if by > self.limits.vars() - self.vars {
            return Err(FormulaError::TooManyVars);
        }
        self.vars += by;
        Ok(())
    }

    /// Appends a clause as given, with repeats, also the empty one.
    ///
    /// `NoSuchVar` comes exactly where a variable is not there, and names the first such;
    /// `TooManyLits` exactly where else the literals of all items would be more than the limit;
    /// `Memory` last.
    #[tactic(auto, using(crate::specs::Laws::known_where_none))]
    pub fn push_clause(&mut self, lits: &[Lit]) -> Result<(), FormulaError>
        ensures ok { OnOk result (self.new.problem ≡ with_item (Clause lits.now) self.old.problem) }
        ensures limits { self.new.limits ≡ self.old.limits }

        ensures no_such_var { (n : ℕ) → (result ≡ Err (FormulaError.NoSuchVar n))
            ↔ (first_unknown self.old.problem.vars (numbers_of (Clause lits.now)) ≡ Some n) }
        ensures too_many_lits { (result ≡ Err FormulaError.TooManyLits)
            ↔ ((first_unknown self.old.problem.vars (numbers_of (Clause lits.now)) ≡ None)
            × (self.old.limits.lits < lit_count self.old.problem.items + length lits.now)) }
        ensures no_other { result ≢ Err FormulaError.TooManyVars }
        ensures err { OnErr result (self.new ≡ self.old) }
    {
        if let Some(var) = unknown_lit(self.vars, lits) {
            return Err(FormulaError::NoSuchVar { var });
        }
        let count = lits.len() as u64;
        if count > self.limits.lits() - self.lits {
            return Err(FormulaError::TooManyLits);
        }
        let clause = List::from_slice(self.alloc, lits)?;
        self.push_item(Item::Clause(clause), count)?;
        Ok(())
    }

    /// Appends a parity as given, with repeats: the number of true variables, each counted as
    /// often as it stands, is odd exactly if `rhs`.
    ///
    /// The refusals are those of a clause, where each variable counts as one literal.
    #[tactic(auto, using(crate::specs::Laws::known_where_none))]
    pub fn push_parity(&mut self, vars: &[Var], rhs: bool) -> Result<(), FormulaError>
        ensures ok { OnOk result (self.new.problem ≡ with_item (Parity vars.now rhs) self.old.problem) }
        ensures limits { self.new.limits ≡ self.old.limits }

        ensures no_such_var { (n : ℕ) → (result ≡ Err (FormulaError.NoSuchVar n))
            ↔ (first_unknown self.old.problem.vars (numbers_of (Parity vars.now rhs)) ≡ Some n) }
        ensures too_many_lits { (result ≡ Err FormulaError.TooManyLits)
            ↔ ((first_unknown self.old.problem.vars (numbers_of (Parity vars.now rhs)) ≡ None)
            × (self.old.limits.lits < lit_count self.old.problem.items + length vars.now)) }
        ensures no_other { result ≢ Err FormulaError.TooManyVars }
        ensures err { OnErr result (self.new ≡ self.old) }
    {
        if let Some(var) = unknown_var(self.vars, vars) {
            return Err(FormulaError::NoSuchVar { var });
        }
        let count = vars.len() as u64;
        if count > self.limits.lits() - self.lits {
            return Err(FormulaError::TooManyLits);
        }
        let vars = List::from_slice(self.alloc, vars)?;
        self.push_item(Item::Parity { vars, rhs }, count)?;
        Ok(())
    }

    /// Appends an item of `count` literals.
    fn push_item(&mut self, item: Item, count: u64) -> Result<(), NoMemory>
        requires known { names_known self.old.problem.vars item ≡ true }
        requires counted { count ≡ length (numbers_of item) }
        requires few { lit_count self.old.problem.items + count ≤ self.old.limits.lits }
        ensures ok { OnOk result (self.new ≡ record { problem = with_item item self.old.problem; limits = self.old.limits }) }
        ensures err { OnErr result (self.new ≡ self.old) }
    {
        self.items.push(item)?;
        self.lits += count;
        Ok(())
    }

    /// Whether an assignment, one value for each variable in order, satisfies every item. A
    /// parity counts its true variables with repeats, so a variable that stands twice cancels.
    pub fn satisfied_by(&self, values: &[bool]) -> bool
        requires { length values.now ≡ self.now.problem.vars }
        ensures { IsTrue result ↔ IsModel self.now.problem values.now }
    {
        satisfies_all(values, &self.items)
    }

    /// The number of variables.
    pub fn vars(&self) -> u32
        ensures value { result ≡ self.now.problem.vars }
        ensures within { IsWithinLimits self.now }
    {
        self.vars
    }

    /// The number of literals over all items; each variable of a parity counts as one.
    pub fn lits(&self) -> u64
        ensures value { result ≡ lit_count self.now.problem.items }
        ensures within { IsWithinLimits self.now }
    {
        self.lits
    }

    /// The items, in the order in which they were appended.
    pub fn items(&self) -> &[Item]
        ensures value { result.now ≡ self.now.problem.items }
        ensures within { IsWithinLimits self.now }
    {
        &self.items
    }
}

/// The number of the first variable that is not among the first `known`.
fn unknown_lit(known: u32, lits: &[Lit]) -> Option<u32>
    ensures { result ≡ first_unknown known (map (λ l. l.var.0) lits.now) }
{
    lits.iter().map(|lit| lit.var.0).find(|var| known <= *var)
}

/// The same over variables.
fn unknown_var(known: u32, vars: &[Var]) -> Option<u32>
    ensures { result ≡ first_unknown known (map (λ v. v.0) vars.now) }
{
    vars.iter().map(|var| var.0).find(|var| known <= *var)
}

#[cfg(test)]
mod tests {
    use super::*;
    use std::test::Fail;

    /// The literals of these numbers, as in DIMACS texts.
    fn clause(alloc: Global, numbers: &[i32]) -> Result<List<Lit>, NoMemory> {
        let mut lits = List::new(alloc);
        for number in numbers {
            lits.push(Lit {
                var: Var(number.unsigned_abs().saturating_sub(1)),
                negative: *number < 0,
            })?;
        }
        Ok(lits)
    }

    #[test]
    fn a_formula_grows_to_its_limit(rt: HostRuntime) {
        let mut formula = Formula::new(rt.alloc(), Limits::standard());
        assert_eq!(rt; formula.grow(16_777_215), Ok(()));
        assert_eq!(rt; formula.grow(1), Err(FormulaError::TooManyVars));
        assert_eq!(rt; formula.vars(), 16_777_215);
    }

    #[test]
    fn a_refused_clause_is_not_appended(rt: HostRuntime) -> Result<(), Fail> {
        let limits = Limits::new(2, 3, 1, 100).ok_or("within the standard limits")?;
        let mut formula = Formula::new(rt.alloc(), limits);
        formula.grow(2)?;
        let rows = [
            ([1, 2, 1, 2].as_slice(), Err(FormulaError::TooManyLits)),
            ([-4, 3].as_slice(), Err(FormulaError::NoSuchVar { var: 3 })),
            ([1, -2].as_slice(), Ok(())),
            ([2, 2].as_slice(), Err(FormulaError::TooManyLits)),
            ([].as_slice(), Ok(())),
            ([2].as_slice(), Ok(())),
        ];
        for (numbers, answer) in rows {
            let lits = clause(rt.alloc(), numbers)?;
            assert_eq!(rt;
                formula.push_clause(lits.as_slice()),
                answer,
                "at {numbers:?}"
            );
        }
        assert_eq!(rt; formula.items().len(), 3);
        assert_eq!(rt; formula.lits(), 3);
        assert_eq!(rt;
            formula.push_parity(&[Var(0)], true),
            Err(FormulaError::TooManyLits)
        );
        assert_eq!(rt;
            formula.push_parity(&[Var(2)], true),
            Err(FormulaError::NoSuchVar { var: 2 })
        );
        Ok(())
    }

    #[test]
    fn clauses_and_parities_are_satisfied_by_their_solutions(rt: HostRuntime) -> Result<(), Fail> {
        let mut formula = Formula::new(rt.alloc(), Limits::standard());
        formula.grow(3)?;
        formula.push_clause(clause(rt.alloc(), &[1, -2])?.as_slice())?;
        formula.push_parity(&[Var(0), Var(1), Var(0), Var(2)], true)?;
        let rows = [
            ([false, false, false], false),
            ([false, false, true], true),
            ([false, true, false], false),
            ([true, true, false], true),
            ([true, true, true], false),
            ([true, false, true], true),
        ];
        for (values, is_model) in rows {
            assert_eq!(rt; formula.satisfied_by(&values), is_model, "at {values:?}");
        }
        formula.push_clause(&[])?;
        assert!(rt; !formula.satisfied_by(&[true, false, true]));
        Ok(())
    }

    #[test]
    fn a_formula_of_a_million_literals_is_judged(rt: HostRuntime) -> Result<(), Fail> {
        let mut formula = Formula::new(rt.alloc(), Limits::standard());
        formula.grow(1000)?;
        let mut lits = [Lit {
            var: Var(0),
            negative: false,
        }; 4];
        lits[3].negative = true;
        for number in 0..250_000_u32 {
            lits[0].var = Var(number % 1000);
            lits[1].var = Var(number % 999);
            lits[2].var = Var(number % 998);
            lits[3].var = Var(number % 997);
            formula.push_clause(&lits)?;
        }
        assert_eq!(rt; formula.lits(), 1_000_000);
        let values = vec![in rt.alloc(); false; formula.vars() as usize]?;
        assert!(rt; formula.satisfied_by(&values));
        Ok(())
    }

    #[test]
    fn errors_are_told_by_name(rt: HostRuntime) -> Result<(), Fail> {
        let rows = [
            (FormulaError::NoSuchVar { var: 7 }, "NoSuchVar 7"),
            (FormulaError::TooManyVars, "TooManyVars"),
            (FormulaError::TooManyLits, "TooManyLits"),
            (FormulaError::Memory, "Memory"),
        ];
        for (error, text) in rows {
            assert_eq!(rt; error.to_string(rt.alloc())?.as_str(), text);
        }
        Ok(())
    }
}
