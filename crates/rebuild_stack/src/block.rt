ghost use Rattle.std.specs.Prelude.{◌≡◌, ◌<◌, [], ◌∷◌, ◌++◌, Some, length, slice_get, OnOk, OnErr};

use sat_lits::{List, NoMemory, OwnLit};
use std::alloc::Global;
use std::marker::Model;

/// The clauses that held a variable when it was taken out of a solver's clauses.
#[derive(Debug, Drop)]
pub struct Block {
    clauses: Vec<List<OwnLit>>,
}

impl Model for Block {
    ghost use Rattle.std.specs.Prelude.{List};
    ghost use Rattle.sat_lits.specs.declared.literal.OwnLit.{OwnLit};

    ghost Value = { List (List OwnLit) };

    ghost view = { λ block. block.clauses.items };
}

impl Block {
    /// No clauses. It takes no memory.
    pub fn new(alloc: Global) -> Block
        ensures { result ≡ [] }
    {
        Block {
            clauses: Vec::new(alloc),
        }
    }

    /// Appends a clause. For want of memory the block stays as it was.
    pub fn push(&mut self, lits: &[OwnLit]) -> Result<(), NoMemory>
        ensures ok { OnOk result (self.new ≡ self.old ++ lits.now ∷ []) }
        ensures err { OnErr result (self.new ≡ self.old) }
    {
        let clause = List::from_slice(*self.clauses.allocator(), lits)?;
        self.clauses.push(clause)?;
        Ok(())
    }

    /// The number of clauses.
    pub fn len(&self) -> usize
        ensures { result ≡ length self.now }
    {
        self.clauses.len()
    }

    /// The literals of the clause at a place, counted from 0.
    pub fn get(&self, at: usize) -> &[OwnLit]
        requires { at < length self.now }
        ensures { slice_get self.now at ≡ Some result.now }
    {
        self.clauses[at].as_slice()
    }

    /// The clauses, in the order in which they were pushed.
    pub(crate) fn clauses(&self) -> &[List<OwnLit>]
        ensures { result.now ≡ self.now }
    {
        &self.clauses
    }
}
