ghost use Rattle.std.specs.Prelude.{◌≡◌, ◌≤◌, ◌↔◌, true, false, [], ◌∷◌, ◌++◌, Ok, length, drop, OnOk, OnErr};
ghost use Rattle.share_store.specs.Log.{entry_of, CanBeShared, HasClause, LacksClause, IsKept};

use sat_lits::{List, Lit, NoMemory, Shared};
use std::alloc::Global;
use std::collections::BTreeSet;
use std::marker::Model;

/// What an offer of a clause comes to.
#[derive(Clone, Copy, Debug, PartialEq, Eq)]
pub enum Offer {
    /// The clause was new and is the last entry now.
    Added,
    /// An entry has the clause already.
    Known,
}

/// The clauses that solvers gave to one another, in order. No clause stands twice.
#[derive(Debug, Drop)]
pub struct Store {
    log: Vec<Shared>,
    // The clauses of the log, so that a known one is found without a walk over it.
    clauses: BTreeSet<Vec<Lit>>,
}

impl Model for Store {
    ghost use Rattle.std.specs.Prelude.{List};
    ghost use Rattle.sat_lits.specs.declared.shared.Shared.{Shared};
    ghost use Rattle.share_store.specs.Inside.{IsIndexed};

    ghost Value = { List Shared };

    ghost view = { λ store. store.log.items };

    ghost invariant = { IsIndexed };
}

impl Store {
    /// The empty log. It takes no memory.
    pub fn new(alloc: Global) -> Store
        ensures { result ≡ [] }
    {
        Store {
            log: Vec::new(alloc),
            clauses: BTreeSet::new(alloc),
        }
    }

    /// Offers a clause that follows from the formula and the log's first `after` entries. It is
    /// appended, unless an entry has it already. The only error is want of memory.
    pub fn offer(&mut self, solver: u32, after: u64, clause: &[Lit]) -> Result<Offer, NoMemory>
        requires form { CanBeShared clause.now }
        requires earlier { after ≤ length self.old }

        ensures known { (result ≡ Ok Offer.Known) ↔ HasClause self.old clause.now }
        ensures unchanged { result ≡ Ok Offer.Known → self.new ≡ self.old }

        ensures fresh { result ≡ Ok Offer.Added → LacksClause self.old clause.now }
        ensures appended { result ≡ Ok Offer.Added → self.new ≡ self.old ++ entry_of solver after clause.now ∷ [] }

        ensures err { OnErr result (self.new ≡ self.old) }
    {
        if self.has(clause) {
            return Ok(Offer::Known);
        }
        self.append(solver, after, clause)?;
        Ok(Offer::Added)
    }

    /// The entries from a place of the log on, where the first entry stands at 0.
    pub fn from(&self, cursor: u64) -> &[Shared]
        requires { cursor ≤ length self.now }
        ensures value { result.now ≡ drop cursor self.now }
        ensures kept { IsKept self.now }
    {
        &self.log[cursor as usize..]
    }

    /// The number of entries.
    pub fn len(&self) -> u64
        ensures value { result ≡ length self.now }
        ensures kept { IsKept self.now }
    {
        self.log.len() as u64
    }

    /// Whether an entry has the clause.
    fn has(&self, clause: &[Lit]) -> bool
        ensures yes { result ≡ true → HasClause self.now clause.now }
        ensures no { result ≡ false → LacksClause self.now clause.now }
    {
        self.clauses.contains(clause)
    }

    /// Appends an entry with a clause that no entry has. The only error is want of memory.
    fn append(&mut self, solver: u32, after: u64, clause: &[Lit]) -> Result<(), NoMemory>
        requires form { CanBeShared clause.now }
        requires earlier { after ≤ length self.old }
        requires fresh { LacksClause self.old clause.now }
        ensures ok { OnOk result (self.new ≡ self.old ++ entry_of solver after clause.now ∷ []) }
        ensures err { OnErr result (self.new ≡ self.old) }
    {
        let alloc = *self.log.allocator();
        let entry = Shared {
            solver,
            after,
            clause: List::from_slice(alloc, clause)?,
        };
        self.log.reserve(1)?;
        self.clauses.insert(Vec::from_slice(alloc, clause)?)?;
        self.log.push_reserved(entry);
        Ok(())
    }
}
