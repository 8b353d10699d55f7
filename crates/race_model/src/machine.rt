ghost use Rattle.std.specs.Prelude.{◌≡◌, ◌<◌, ◌≤◌, true, length, IfOk, OnOk, OnErr, is_ok};
ghost use Rattle.std.specs.Result.{ForErr};
ghost use Rattle.sat_lits.specs.Limits.{standard_limits};
ghost use Rattle.sat_lits.specs.Formulas.{names_known, with_item};
ghost use Rattle.race_model.specs.States.{start, with_all_items, with_place};
ghost use Rattle.race_model.specs.Events.{is_known, with_given, after_event};
ghost use Rattle.race_model.specs.Events.{IsAllowed, HasRoom, LeavesRoom};

use crate::event::Event;
use crate::taken::Taken;
use sat_lits::{Formula, FormulaError, Item, Limits, List, Lit, NoMemory, Shared};
use std::alloc::Global;
use std::marker::Model;

/// A formula, a log of the clauses that solvers of it gave, and what each solver took of both.
#[derive(Debug, Drop)]
pub struct Machine {
    formula: Formula,
    log: Vec<Shared>,
    taken: Vec<Taken>,
}

impl Model for Machine {
    ghost use Rattle.std.specs.Prelude.{◌≡◌};
    ghost use Rattle.sat_lits.specs.Limits.{standard_limits};
    ghost use Rattle.race_model.specs.States.{State};

    ghost Value = { State };

    ghost view = { λ m.
        record { formula = m.formula.problem; log = m.log.items; taken = m.taken.items } };

    ghost invariant = { λ m. m.formula.limits ≡ standard_limits };
}

impl Machine {
    /// A formula of `vars` variables without items, an empty log, and `solvers` solvers that have
    /// taken nothing. The formula has the standard limits. The only error is want of memory.
    pub fn new(alloc: Global, solvers: u32, vars: u32) -> Result<Machine, NoMemory>
        requires { vars ≤ standard_limits.vars }
        ensures { IfOk result (λ machine. machine ≡ start solvers vars) }
    {
        let mut formula = Formula::new(alloc, Limits::standard());
        formula.grow(vars).unwrap();
        let mut taken = Vec::new(alloc);
        'each: for _ in 0..solvers {
            taken.push(Taken {
                items: 0,
                places: List::new(alloc),
            })?;
        }
        Ok(Machine {
            formula,
            log: Vec::new(alloc),
            taken,
        })
    }

    /// Lets an event happen that is allowed now. An item that is added must leave the formula's
    /// literals within the standard limit. The only error is want of memory; the machine is then as
    /// it was.
    ///
    /// A Give walks over the log to see whether it has the clause.
    pub fn step(&mut self, event: &Event) -> Result<(), NoMemory>
        requires allowed { IsAllowed self.old event.now }
        requires room { LeavesRoom self.old event.now }
        ensures ok { OnOk result (self.new ≡ after_event self.old event.now) }
        ensures err { OnErr result (self.new ≡ self.old) }
    {
        match event {
            Event::Add(item) => self.add(item),
            Event::Absorb { solver } => {
                self.absorb(*solver);
                Ok(())
            }
            Event::Give { solver, clause } => self.give(*solver, clause.as_slice()),
            Event::Take { solver, at } => self.take(*solver, *at),
            Event::Say { .. } => Ok(()),
        }
    }

    /// The entries that were given, in order.
    pub fn log(&self) -> &[Shared]
        ensures { result.now ≡ self.now.log }
    {
        &self.log
    }

    /// The formula, with the items that were added, in order.
    pub fn formula(&self) -> &Formula
        ensures value { result.now.problem ≡ self.now.formula }
        ensures limits { result.now.limits ≡ standard_limits }
    {
        &self.formula
    }

    /// Appends an item whose variables are there. The only error is want of memory.
    fn add(&mut self, item: &Item) -> Result<(), NoMemory>
        requires known { names_known self.old.formula.vars item.now ≡ true }
        requires room { HasRoom self.old.formula item.now }
        ensures ok { OnOk result (self.new
            ≡ record self.old { formula = with_item item.now self.old.formula }) }
        ensures err { OnErr result (self.new ≡ self.old) }
    {
        match item {
            Item::Clause(lits) => only_memory(self.formula.push_clause(lits.as_slice())),
            Item::Parity { vars, rhs } => only_memory(
                self.formula.push_parity(vars.as_slice(), *rhs),
            ),
        }
    }

    /// A solver takes all items.
    fn absorb(&mut self, solver: u32)
        requires { solver < length self.old.taken }
        ensures { self.new ≡ with_all_items self.old solver }
    {
        let items = self.formula.items().len() as u64;
        self.taken[solver as usize].items = items;
    }

    /// A solver takes the entry at a place. The only error is want of memory.
    fn take(&mut self, solver: u32, at: u64) -> Result<(), NoMemory>
        requires { solver < length self.old.taken }
        ensures ok { OnOk result (self.new ≡ with_place self.old solver at) }
        ensures err { OnErr result (self.new ≡ self.old) }
    {
        self.taken[solver as usize].places.push(at)
    }

    /// Appends an entry with the clause, unless an entry has it. The only error is want of memory.
    fn give(&mut self, solver: u32, clause: &[Lit]) -> Result<(), NoMemory>
        ensures ok { OnOk result (self.new
            ≡ record self.old { log = with_given self.old.log solver clause.now }) }
        ensures err { OnErr result (self.new ≡ self.old) }
    {
        if is_known(&self.log, clause) {
            return Ok(());
        }
        let entry = Shared {
            solver,
            after: self.log.len() as u64,
            clause: List::from_slice(*self.log.allocator(), clause)?,
        };
        self.log.push(entry)?;
        Ok(())
    }
}

/// Whether an entry has the clause.
fn is_known(log: &[Shared], clause: &[Lit]) -> bool
    ensures { result ≡ is_known log.now clause.now }
{
    log.iter().any(|entry| entry.clause.as_slice() == clause)
}

/// The answer of a call on a formula that nothing but want of memory may have refused.
fn only_memory(answer: Result<(), FormulaError>) -> Result<(), NoMemory>
    requires { ForErr answer (λ error. error ≡ FormulaError.Memory) }
    ensures { is_ok result ≡ is_ok answer }
{
    match answer {
        Ok(()) => Ok(()),
        Err(FormulaError::Memory) => Err(NoMemory),
        Err(_) => unreachable!(),
    }
}
