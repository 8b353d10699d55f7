ghost use Rattle.std.specs.Prelude.{◌≡◌, ℕ, ◌+◌, ◌<◌, ◌∷◌, ◌++◌, ◌↔◌, [], false, Some, length, take, slice_index_or, IsNone, IfSome, OnOk, OnErr};
ghost use Rattle.std.specs.List.{list_any};
ghost use Rattle.sat_lits.specs.Truth.{signed};
ghost use Rattle.rebuild_stack.specs.Entries.{named, names, is_block_of};
ghost use Rattle.rebuild_stack.specs.Roots.{root};
ghost use Rattle.state_laws.specs.RootTableLaws.{entry_of};
ghost use Rattle.removed_vars.specs.Removed.{HasBlock, IsInOrder, last_lit};
ghost use Rattle.removed_vars.specs.Restoring.{stays, active_in, left_by};
ghost use Rattle.removed_vars.specs.Statuses.{status_of, status_without, IsEnd};

use crate::restoring::is_active;
use crate::roots::{turned, var_of};
use crate::stamps::Stamps;
use rebuild_stack::{Entry, RebuildStack, Root};
use sat_lits::{NoMemory, Own, OwnLit};
use std::alloc::Global;
use std::marker::Model;
use var_maps::VarMaps;

/// What the entry of an own variable says of it.
#[derive(Clone, Copy, Debug, PartialEq, Eq)]
pub enum Status {
    /// No entry names it.
    Kept,
    /// It is fixed to this value.
    Fixed(bool),
    /// It is replaced by this literal.
    Replaced(OwnLit),
    /// It was eliminated.
    Eliminated,
}

/// The stack of the variables that left the clauses, and what it says of each own variable.
#[derive(Debug, Drop)]
pub struct RemovedVars {
    stack: RebuildStack,
    /// What the stack says of each variable, by own number.
    statuses: Vec<Status>,
    stamps: Stamps,
}

impl Model for RemovedVars {
    ghost use Rattle.removed_vars.specs.Removed.{Removed};

    ghost Value = { Removed };

    ghost use Rattle.removed_vars.specs.RemovedKept.{removed_of, TellsEntries};

    ghost view = { removed_of };

    ghost invariant = { TellsEntries };
}

/// The value, or its opposite where `negative`.
fn signed(negative: bool, value: bool) -> bool
    ensures { result ≡ signed negative value }
{
    if negative { !value } else { value }
}

/// What an entry says of its variable.
fn status_of(entry: &Entry) -> Status
    ensures { result ≡ status_of (Some entry.now) }
{
    match entry {
        Entry::Fix(lit) => Status::Fixed(!lit.negative),
        Entry::Equal { lit, .. } => Status::Replaced(*lit),
        Entry::Gone { .. } => Status::Eliminated,
    }
}

/// Whether an entry stays where the `Gone` entries of active variables go.
fn stays(maps: &VarMaps, entry: &Entry) -> bool
    ensures { result ≡ stays (active_in maps.now) entry.now }
{
    match entry {
        Entry::Gone { var, .. } => !is_active(maps, *var),
        Entry::Fix(_) | Entry::Equal { .. } => true,
    }
}

/// How many entries stay where the `Gone` entries of active variables go.
fn count_staying(entries: &[Entry], maps: &VarMaps) -> usize
    ensures { result ≡ length (left_by maps.now entries.now) }
{
    entries.iter().filter(|entry| stays(maps, entry)).count()
}

/// Says of the variable of an entry that goes that no entry names it.
fn forget(statuses: &mut [Status], entry: &Entry, maps: &VarMaps)
    ensures { (k : ℕ) → slice_index_or statuses.new k Status.Kept ≡ status_without (active_in maps.now) k (entry.now ∷ []) (slice_index_or statuses.old k Status.Kept) }
{
    if stays(maps, entry) {
        return;
    }
    let at = var_of(entry).0 as usize;
    if at < statuses.len() {
        statuses[at] = Status::Kept;
    }
}

/// Says of the variable of each entry that goes that no entry names it.
fn forget_all(statuses: &mut [Status], entries: &[Entry], maps: &VarMaps)
    ensures { (k : ℕ) → slice_index_or statuses.new k Status.Kept ≡ status_without (active_in maps.now) k entries.now (slice_index_or statuses.old k Status.Kept) }
{
    'each: for entry in entries {
        forget(statuses, entry, maps);
    }
}

impl RemovedVars {
    /// No variables. It takes no memory.
    pub fn new(alloc: Global) -> RemovedVars
        ensures { result ≡ record { entries = []; vars = 0 } }
    {
        RemovedVars {
            stack: RebuildStack::new(alloc),
            statuses: Vec::new(alloc),
            stamps: Stamps::new(alloc),
        }
    }

    /// Adds this many variables, which no entry names. The only error is want of memory, and nothing
    /// changes then.
    pub fn add_vars(&mut self, more: u32) -> Result<(), NoMemory>
        ensures ok { OnOk result (self.new ≡ record self.old { vars = self.old.vars + more }) }
        ensures err { OnErr result (self.new ≡ self.old) }
    {
        let vars = self.statuses.len() + more as usize;
        self.stamps.make_vars(vars)?;
        self.statuses.resize(vars, Status::Kept)?;
        Ok(())
    }

    /// Pushes an entry of a variable that no entry names. The only error is want of memory, and
    /// nothing changes then.
    pub fn push(&mut self, entry: Entry) -> Result<(), NoMemory>
        requires there { named entry < self.old.vars }
        requires unnamed { list_any (names (named entry)) self.old.entries ≡ false }
        ensures ok { OnOk result (self.new ≡ record self.old { entries = self.old.entries ++ entry ∷ [] }) }
        ensures err { OnErr result (self.new ≡ self.old) }
    {
        let var = var_of(&entry);
        let status = status_of(&entry);
        self.stamps.push(var)?;
        if let Err(error) = self.stack.push(entry) {
            self.stamps.pop();
            return Err(error);
        }
        self.statuses[var.0 as usize] = status;
        Ok(())
    }

    /// How many of the oldest `count` entries `take_out_active` leaves.
    pub fn count_left(&self, maps: &VarMaps, count: usize) -> usize
        ensures { result ≡ length (left_by maps.now (take count self.now.entries)) }
    {
        let entries = self.stack.entries();
        let end = count.min(entries.len());
        count_staying(&entries[..end], maps)
    }

    /// Takes out each `Gone` entry whose variable is active. The others close up. It takes no memory,
    /// and walks over the entries a few times, however many go.
    pub fn take_out_active(&mut self, maps: &VarMaps)
        requires { IsInOrder self.old.entries }
        ensures { self.new ≡ record self.old { entries = left_by maps.now self.old.entries } }
    {
        forget_all(&mut self.statuses, self.stack.entries(), maps);
        self.stack.retain(|entry| stays(maps, entry));
        self.stamps.number(self.stack.entries());
    }

    /// The place of a `Gone` entry of a variable, counted from the oldest entry. None comes exactly
    /// where there is no such entry. It takes time logarithmic in the number of entries.
    pub fn block_of(&self, var: Own) -> Option<usize>
        ensures none { IsNone result ↔ (list_any (is_block_of var) self.now.entries ≡ false) }
        ensures entry { IfSome result (HasBlock var self.now.entries) }
    {
        let at = self.stamps.guess(var);
        if let Some(Entry::Gone { var: gone, .. }) = self.stack.entries().get(at) {
            if *gone == var {
                return Some(at);
            }
        }
        self.stack.block_of(var)
    }

    /// The entries, oldest first.
    pub fn stack(&self) -> &RebuildStack
        ensures { result.now ≡ self.now.entries }
    {
        &self.stack
    }

    /// What the stack says of a variable.
    pub fn status(&self, var: Own) -> Status
        ensures { result ≡ status_of (entry_of var.0 self.now.entries) }
    {
        self.statuses
            .get(var.0 as usize)
            .copied()
            .unwrap_or(Status::Kept)
    }

    /// Follows replacements to the last literal, in as many steps as there are on its way.
    pub fn last(&self, lit: OwnLit) -> OwnLit
        requires { IsInOrder self.now.entries }
        ensures last { result ≡ last_lit self.now.entries lit }
        ensures root { root self.now.entries result ≡ root self.now.entries lit }
        ensures end { IsEnd (status_of (entry_of result.var.0 self.now.entries)) }
    {
        let mut last = lit;
        'follow: while let Status::Replaced(by) = self.status(last.var) {
            last = turned(last.negative, by);
        }
        last
    }

    /// What a literal comes to along the entries.
    pub fn root(&self, lit: OwnLit) -> Root
        requires { IsInOrder self.now.entries }
        ensures { result ≡ root self.now.entries lit }
    {
        let last = self.last(lit);
        match self.status(last.var) {
            Status::Kept => Root::Last(last),
            Status::Fixed(value) => Root::Known(signed(last.negative, value)),
            Status::Eliminated => Root::Lost(last.var),
            Status::Replaced(_) => unreachable!(),
        }
    }
}
