use crate::roots::var_of;
use rebuild_stack::Entry;
use sat_lits::{NoMemory, Own};
use std::alloc::Global;

/// A number for each entry of a stack, rising from the oldest to the newest, so that the entry of a
/// variable is found by its number. It gives guesses, which their reader looks at; so no contract
/// rests on what is kept here.
#[derive(Debug, Drop)]
pub(crate) struct Stamps {
    /// The numbers of the entries, in order.
    stamps: Vec<u64>,
    /// The number of each variable's last entry, by own number.
    of_var: Vec<u64>,
}

impl Stamps {
    /// No entries and no variables. It takes no memory.
    pub(crate) fn new(alloc: Global) -> Stamps {
        Stamps {
            stamps: Vec::new(alloc),
            of_var: Vec::new(alloc),
        }
    }

    /// Makes room for this many variables in all.
    pub(crate) fn make_vars(&mut self, vars: usize) -> Result<(), NoMemory> {
        self.of_var.resize(vars, 0)?;
        Ok(())
    }

    /// Appends an entry of a variable.
    pub(crate) fn push(&mut self, var: Own) -> Result<(), NoMemory> {
        let stamp = match self.stamps.last() {
            Some(last) => last.saturating_add(1),
            None => 0,
        };
        self.stamps.push(stamp)?;
        if let Some(place) = self.of_var.get_mut(var.0 as usize) {
            *place = stamp;
        }
        Ok(())
    }

    /// Takes back the last entry.
    pub(crate) fn pop(&mut self) {
        self.stamps.pop();
    }

    /// Numbers the entries anew, after some were taken out.
    pub(crate) fn number(&mut self, entries: &[Entry]) {
        self.stamps.truncate(entries.len());
        for (at, entry) in entries.iter().enumerate() {
            if let Some(stamp) = self.stamps.get_mut(at) {
                *stamp = at as u64;
            }
            if let Some(place) = self.of_var.get_mut(var_of(entry).0 as usize) {
                *place = at as u64;
            }
        }
    }

    /// Where the entry of a variable stands, if it has one.
    pub(crate) fn guess(&self, var: Own) -> usize {
        let stamp = self.of_var.get(var.0 as usize).copied().unwrap_or(0);
        match self.stamps.binary_search(&stamp) {
            Ok(at) => at,
            Err(at) => at,
        }
    }
}
