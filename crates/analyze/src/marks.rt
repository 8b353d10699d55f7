ghost use Rattle.std.specs.Prelude.{◌≡◌, ◌<◌, ◌≤◌, ◌∷◌, ◌++◌, [], IfOk, OnOk};
ghost use Rattle.trail.specs.Trail.{IsKept};
ghost use Rattle.analyze.specs.Marking.{is_marked, IsFresh, MarksNew};

use sat_lits::{Inner, NoMemory};
use std::alloc::Global;
use std::marker::Model;
use trail::Trail;

/// A set of variables. Its table stays allocated when the set is emptied.
#[derive(Debug, Drop)]
pub struct Marks {
    // By variable, whether it is marked.
    table: Vec<bool>,
    // The marked variables, so that no other place of the table has to be cleared.
    marked: Vec<Inner>,
}

impl Model for Marks {
    ghost use Rattle.analyze.specs.Marking.{Marking};

    ghost Value = { Marking };

    ghost use Rattle.analyze.specs.Inside.{marking_of, Agrees};

    ghost view = { marking_of };

    ghost invariant = { Agrees };
}

impl Marks {
    /// No marks. It takes no memory.
    pub fn new(alloc: Global) -> Marks
        ensures { result ≡ record { vars = []; room = 0 } }
    {
        Marks {
            table: Vec::new(alloc),
            marked: Vec::new(alloc),
        }
    }

    pub fn allocator(&self) -> Global {
        *self.table.allocator()
    }

    /// Takes all marks away, and makes room for the variables below a number. The only error is want
    /// of memory.
    pub fn start(&mut self, variables: u32) -> Result<(), NoMemory>
        ensures { OnOk result (IsFresh variables self.new) }
    {
        self.clear();
        let variables = variables as usize;
        if self.table.len() < variables {
            self.table.resize(variables, false)?;
        }
        Ok(())
    }

    /// Takes all marks away.
    fn clear(&mut self)
        ensures { self.new ≡ record self.old { vars = [] } }
    {
        'unmark: while let Some(var) = self.marked.pop() {
            self.table[var.0 as usize] = false;
        }
    }

    pub fn contains(&self, var: Inner) -> bool
        ensures { result ≡ is_marked self.now var.0 }
    {
        let place = var.0 as usize;
        place < self.table.len() && self.table[place]
    }

    /// The marked variables, each once.
    pub fn vars(&self) -> &[Inner]
        ensures { result.now ≡ self.now.vars }
    {
        self.marked.as_slice()
    }

    /// Marks a variable if it is of a level above 0 and not marked, and tells its level then. The
    /// only error is want of memory.
    pub fn mark(&mut self, trail: &Trail, var: Inner) -> Result<Option<u32>, NoMemory>
        requires kept { IsKept trail.now }
        requires room { trail.now.reserved ≤ self.old.room }
        ensures { IfOk result (MarksNew trail.now.steps var self.old self.new) }
    {
        let level = trail.level_of(var).unwrap_or(0);
        if level == 0 || self.contains(var) {
            return Ok(None);
        }
        self.insert(var)?;
        Ok(Some(level))
    }

    fn insert(&mut self, var: Inner) -> Result<(), NoMemory>
        requires { var.0 < self.old.room }
        ensures { OnOk result (self.new ≡ record self.old { vars = self.old.vars ++ var ∷ [] }) }
    {
        self.marked.push(var)?;
        self.table[var.0 as usize] = true;
        Ok(())
    }
}
