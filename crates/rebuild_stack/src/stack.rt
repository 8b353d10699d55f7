ghost use Rattle.std.specs.Prelude.{◌≡◌, ◌<◌, ◌↔◌, [], ◌∷◌, ◌++◌, Some, true, false, length, slice_get, IsNone, IfSome, OnOk, OnErr};
ghost use Rattle.std.specs.List.{list_all, list_any};
ghost use Rattle.std.specs.Fn.{CalledAt};
ghost use Rattle.std.specs.List.Retain.{IsFiltered};
ghost use Rattle.rebuild_stack.specs.Values.{values_of};
ghost use Rattle.rebuild_stack.specs.Entries.{rebuild, is_within, is_block_of, IsNewestBlock};

use crate::entry::Entry;
use crate::values::undo;
use sat_lits::{NoMemory, Own};
use std::alloc::Global;
use std::marker::Model;

/// The entries of one solver, from the oldest to the newest.
#[derive(Debug, Drop)]
pub struct RebuildStack {
    entries: Vec<Entry>,
}

impl Model for RebuildStack {
    ghost use Rattle.std.specs.Prelude.{List};
    ghost use Rattle.rebuild_stack.specs.declared.entry.Entry.{Entry};

    ghost Value = { List Entry };

    ghost view = { λ stack. stack.entries.items };
}

impl RebuildStack {
    /// No entries. It takes no memory.
    pub fn new(alloc: Global) -> RebuildStack
        ensures { result ≡ [] }
    {
        RebuildStack {
            entries: Vec::new(alloc),
        }
    }

    /// Pushes an entry as the newest. For want of memory the stack stays as it was, and the entry
    /// is dropped.
    pub fn push(&mut self, entry: Entry) -> Result<(), NoMemory>
        ensures ok { OnOk result (self.new ≡ self.old ++ entry ∷ []) }
        ensures err { OnErr result (self.new ≡ self.old) }
    {
        self.entries.push(entry)?;
        Ok(())
    }

    /// Takes out each entry that does not pass the test. The others close up. It takes no memory, and
    /// one walk over the entries.
    pub fn retain<F: FnMut(&Entry) -> bool>(&mut self, stays: F)
        requires { F.IsAlwaysCallable stays }
        ensures { IsFiltered (CalledAt F.FnMut) stays self.old self.new }
    {
        self.entries.retain(stays);
    }

    /// Rebuilds the values of the variables that the entries name, from the newest entry to the
    /// oldest. `values` has the value of each own variable, by its number. It takes no memory, and
    /// time linear in the number of the entries' literals.
    pub fn rebuild(&self, values: &mut [bool])
        requires { list_all (is_within (length values.old)) self.now ≡ true }
        ensures { values_of values.new ≡ rebuild self.now (values_of values.old) }
    {
        for at in (0..self.entries.len()).rev() {
            undo(&self.entries[at], values);
        }
    }

    /// The place of the newest `Gone` entry of a variable, counted from the oldest entry. None
    /// comes exactly where there is no such entry.
    pub fn block_of(&self, var: Own) -> Option<usize>
        ensures none { IsNone result ↔ (list_any (is_block_of var) self.now ≡ false) }
        ensures newest { IfSome result (IsNewestBlock var self.now) }
    {
        for at in (0..self.entries.len()).rev() {
            if is_block_of(var, &self.entries[at]) {
                return Some(at);
            }
        }
        None
    }

    /// The entries, from the oldest to the newest.
    pub fn entries(&self) -> &[Entry]
        ensures { result.now ≡ self.now }
    {
        &self.entries
    }
}

fn is_block_of(var: Own, entry: &Entry) -> bool
    ensures { result ≡ is_block_of var entry.now }
{
    match entry {
        Entry::Gone { var: gone, .. } => *gone == var,
        _ => false,
    }
}
