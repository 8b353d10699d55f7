ghost use Rattle.std.specs.Prelude.{◌≡◌, ◌+◌, ◌-◌, ◌≤◌, ◌^◌, ◌∷◌, ◌++◌, [], Some, length, filter, drop, sum_by, true, false, IsTrue, IfOk, OnOk, OnErr};
ghost use Rattle.std.specs.List.{list_any};
ghost use Rattle.sat_lits.specs.Truth.{clauses_value};
ghost use Rattle.sat_lits.specs.Meaning.{IsModel};
ghost use Rattle.rebuild_stack.specs.Entries.{named, is_block_of};
ghost use Rattle.rebuild_stack.specs.Roots.{root};
ghost use Rattle.rebuild_stack.specs.declared.entry.Entry.TheVariants.{Fix, Equal};
ghost use Rattle.clause_store.specs.Store.{IsKept, contents, marked, hard_of, held_as, without};
ghost use Rattle.indexed_store.specs.Occurrences.{clauses_at, occurrences, is_pair};
ghost use Rattle.indexed_store.specs.Lists.{ids_rise};
ghost use Rattle.var_maps.specs.Maps.{plain, retired};
ghost use Rattle.state_laws.specs.State.{is_active, outer_count, problem_of};
ghost use Rattle.state_laws.specs.Conditions.{IsContradicted, EntryFollows, Pushable, Takable, Learnable};
ghost use Rattle.state_laws.specs.Moves.{put_into, taken, extended, learning, grown};
ghost use Rattle.state_laws.specs.Held.{in_value, own_clause};
ghost use Rattle.state_laws.specs.Kernel.{Standing, no_kernel, state_of, plain_kernel, Learns, Keeps, Longer, IsLearnedId, IsImplied};
ghost use Rattle.state_laws.specs.RootTableLaws.{entry_of};
ghost use Rattle.removed_vars.specs.Removed.{last_lit, fixed_value};
ghost use Rattle.removed_vars.specs.Statuses.{status_of, IsEnd};
ghost use Rattle.private_state.specs.Rebuilt.{rebuilt_values};
ghost use Rattle.private_state.specs.Taking.{IsTakable, item_taken, MapsAfter};
ghost use Rattle.parity_forms.specs.Parities.{ParityTakable, parity_taken, IsDefinable, defining_clauses};

use crate::values::{outer_values, own_values};
use clause_store::ClauseStore;
use indexed_store::{IndexedStore, ShortId};
use parity_forms::{add_made, made_by, made_of, own_pieces};
use rebuild_stack::{Entry, RebuildStack, Root};
use removed_vars::{
    RemovedVars, Status, add_all, add_hard, collect, drop_all, in_lits, own_form, var_of,
};
use sat_lits::{ClauseId, InLit, Inner, Item, List, Lit, NoMemory, Own, OwnLit, Shared, Var};
use state_laws::Definition;
use std::alloc::Global;
use std::marker::Model;
use var_maps::VarMaps;

/// What one solver took, its own variables, and the clauses that it holds.
///
/// A literal or a clause in own numbers is one over own variables. A variable is eliminated where
/// a `Gone` entry of the stack names it.
#[derive(Debug, Drop)]
pub struct PrivateState {
    pub(crate) alloc: Global,
    items: Vec<Item>,
    pub(crate) entries: Vec<Shared>,
    definitions: Vec<Option<Definition>>,
    pub(crate) maps: VarMaps,
    pub(crate) store: IndexedStore,
    pub(crate) removed: RemovedVars,
    okay: bool,
    // How many of the oldest entries of the stack stood there at the last mark.
    pub(crate) stack_mark: usize,
}

impl Model for PrivateState {
    ghost use Rattle.state_laws.specs.Kernel.{Kernel};

    ghost Value = { Kernel };

    ghost use Rattle.private_state.specs.Kept.{kernel_of, IsKept};

    ghost view = { kernel_of };

    ghost invariant = { IsKept };
}

impl PrivateState {
    /// A state that took nothing. It takes no memory.
    pub fn new(alloc: Global) -> PrivateState
        ensures { plain_kernel result ≡ plain_kernel no_kernel }
    {
        PrivateState {
            alloc,
            items: Vec::new(alloc),
            entries: Vec::new(alloc),
            definitions: Vec::new(alloc),
            maps: VarMaps::new(alloc),
            store: IndexedStore::new(alloc),
            removed: RemovedVars::new(alloc),
            okay: true,
            stack_mark: 0,
        }
    }

    /// Whether the state was not refuted.
    pub fn okay(&self) -> bool
        ensures value { result ≡ self.now.okay }
        ensures standing { Standing self.now }
    {
        self.okay
    }

    /// The number of items taken.
    pub fn taken(&self) -> usize
        ensures { result ≡ length self.now.items }
    {
        self.items.len()
    }

    /// Whether a variable is there and active.
    pub fn is_active(&self, own: Own) -> bool
        ensures { result ≡ is_active (state_of self.now) own.0 }
    {
        own.0 < self.maps.own_len() && self.maps.to_inner(own).is_some()
    }

    /// Whether a `Gone` entry of the stack names a variable.
    pub fn is_eliminated(&self, own: Own) -> bool
        ensures { result ≡ list_any (is_block_of own) self.now.stack }
    {
        matches!(self.removed.status(own), Status::Eliminated)
    }

    /// The value to which a variable is fixed. None comes exactly where it is not fixed.
    pub fn value_of(&self, own: Own) -> Option<bool>
        ensures { result ≡ fixed_value (entry_of own.0 self.now.stack) }
    {
        match self.removed.status(own) {
            Status::Fixed(value) => Some(value),
            _ => None,
        }
    }

    /// The literal to which replacements lead from a literal, itself where its variable is not
    /// replaced.
    pub fn root_of(&self, lit: OwnLit) -> OwnLit
        ensures last { result ≡ last_lit self.now.stack lit }
        ensures root { root self.now.stack result ≡ root self.now.stack lit }
        ensures end { IsEnd (status_of (entry_of result.var.0 self.now.stack)) }
    {
        self.removed.last(lit)
    }

    /// What a literal comes to along the stack, in as many steps as there are replacements on its way.
    pub fn root(&self, lit: OwnLit) -> Root
        ensures { result ≡ root self.now.stack lit }
    {
        self.removed.root(lit)
    }

    /// The numbers of the variables.
    pub fn maps(&self) -> &VarMaps
        ensures value { result.now ≡ self.now.maps }
        ensures standing { Standing self.now }
    {
        &self.maps
    }

    /// The clauses that are held, in inner literals.
    pub fn clauses(&self) -> &ClauseStore
        ensures value { result.now ≡ self.now.store }
        ensures standing { Standing self.now }
    {
        self.store.store()
    }

    /// The ids of the clauses that hold a variable, in order of addition. Among them may be ids
    /// that are not live.
    pub fn occurrences(&self, var: Inner) -> &[ShortId]
        ensures value { clauses_at self.now.store.held result.now ≡ occurrences var.0 self.now.store.held }
        ensures kept { IsKept self.now.store }
    {
        self.store.occurrences(var)
    }

    /// The variables that left the clauses, and how their values are rebuilt.
    pub fn stack(&self) -> &RebuildStack
        ensures { result.now ≡ self.now.stack }
    {
        self.removed.stack()
    }

    /// The ids of the learned clauses of two literals, in order of addition. Among them may be ids
    /// that are not live.
    pub fn pairs(&self) -> &[ShortId]
        ensures value { clauses_at self.now.store.held result.now ≡ filter is_pair self.now.store.held }
        ensures rises { ids_rise result.now ≡ true }
        ensures kept { IsKept self.now.store }
    {
        self.store.pairs()
    }

    /// The entries of the stack that came after the last mark, or all where there was none.
    pub fn new_entries(&self) -> &[Entry]
        ensures { result.now ≡ drop self.now.stack_mark self.now.stack }
    {
        &self.removed.stack().entries()[self.stack_mark..]
    }

    /// Marks all that is there: the clauses that are held, and the entries of the stack. Which are
    /// new since then is known until the next mark: the clauses whose ids are from `mark` of the
    /// clauses on, and `new_entries`.
    pub fn set_mark(&mut self)
        ensures value { self.new ≡ record self.old { store = record self.old.store { mark = self.old.store.given }; stack_mark = length self.old.stack } }
        ensures state { state_of self.new ≡ record (state_of self.old) { marked_learned = (state_of self.old).learned; marked_stack = self.old.stack } }
    {
        // What the store keeps is known from here on.
        let _clauses = self.store.store();
        self.store.set_mark();
        self.stack_mark = self.removed.stack().entries().len();
    }

    /// Adds outer variables, active, until there are `vars`; with fewer it changes nothing. The
    /// only error is want of memory, and nothing changes then.
    pub fn grow(&mut self, vars: u32) -> Result<(), NoMemory>
        requires { length self.old.definitions + (vars - outer_count self.old.definitions) ≤ 2 ^ 31 }
        ensures ok { OnOk result (state_of self.new ≡ grown (vars - outer_count self.old.definitions) (state_of self.old)) }
        ensures clauses { self.new.store ≡ self.old.store }
        ensures err { OnErr result (plain_kernel self.new ≡ plain_kernel self.old) }
    {
        let more = vars.saturating_sub(self.maps.outer_count());
        self.maps.reserve(more)?;
        self.definitions.reserve(more as usize)?;
        self.removed.add_vars(more)?;
        'each: for _ in 0..more {
            self.maps.add_outer().unwrap();
            self.definitions.push(None).unwrap();
        }
        Ok(())
    }

    /// Takes an item. Its variables are there, and none of them is eliminated, nor replaced by an
    /// eliminated one. Fixed variables are put in and replaced ones substituted. What is left of a
    /// clause is held as a hard clause. A parity is cancelled and cut: the fresh variable of each cut
    /// becomes a private one, and each piece is held as its clauses. So a parity of which no variable
    /// is left is the empty clause where its right side is true, and adds none where it is false.
    /// The only error is want of memory, and nothing changes then.
    pub fn take_input(&mut self, item: &Item) -> Result<(), NoMemory>
        requires { IsTakable (state_of self.old) item.now }
        ensures ok { OnOk result (state_of self.new ≡ item_taken item.now (state_of self.old)) }
        ensures ids { OnOk result (Longer self.old self.new) }
        ensures maps { MapsAfter item.now self.old.maps self.new.maps }
        ensures err { OnErr result (plain_kernel self.new ≡ plain_kernel self.old) }
    {
        match item {
            Item::Clause(lits) => self.take_clause(lits.as_slice()),
            Item::Parity { vars, rhs } => self.take_parity(vars.as_slice(), *rhs),
        }
    }

    fn take_parity(&mut self, vars: &[Var], rhs: bool) -> Result<(), NoMemory>
        requires { ParityTakable (state_of self.old) vars.now rhs }
        ensures ok { OnOk result (state_of self.new ≡ parity_taken vars.now rhs (state_of self.old)) }
        ensures ids { OnOk result (Longer self.old self.new) }
        ensures outers { self.new.maps.outers ≡ self.old.maps.outers }
        ensures err { OnErr result (plain_kernel self.new ≡ plain_kernel self.old) }
    {
        let alloc = self.alloc;
        let vars = List::from_slice(alloc, vars)?;
        let pieces = own_pieces(alloc, &self.maps, &self.removed, vars.as_slice(), rhs)?;
        let made = made_of(alloc, &self.maps, &pieces)?;
        self.items.reserve(1)?;
        add_made(
            alloc,
            &mut self.maps,
            &mut self.store,
            &mut self.removed,
            &mut self.definitions,
            made,
        )?;
        self.items.push(Item::Parity { vars, rhs }).unwrap();
        Ok(())
    }

    fn take_clause(&mut self, lits: &[Lit]) -> Result<(), NoMemory>
        requires { Takable (state_of self.old) lits.now }
        ensures ok { OnOk result (state_of self.new ≡ taken lits.now (state_of self.old)) }
        ensures ids { OnOk result (Longer self.old self.new) }
        ensures maps { self.new.maps ≡ self.old.maps }
        ensures err { OnErr result (plain_kernel self.new ≡ plain_kernel self.old) }
    {
        let item = Item::Clause(List::from_slice(self.alloc, lits)?);
        let clause = own_form(self.alloc, &self.maps, &self.removed, lits)?;
        self.items.reserve(1)?;
        add_hard(&mut self.store, &clause)?;
        self.items.push(item).unwrap();
        Ok(())
    }

    /// Makes a private variable with a definition over one to four different active variables, and
    /// adds the clauses that define it (Tseitin, 1968). The new variable is the next own one. The
    /// only error is want of memory, and nothing changes then.
    pub fn define_private(&mut self, definition: &Definition) -> Result<Own, NoMemory>
        requires { IsDefinable (state_of self.old) definition.now }
        ensures value { IfOk result (λ own. own.0 ≡ length self.old.definitions) }
        ensures ok { OnOk result (state_of self.new ≡ extended (Some definition.now) (defining_clauses (length self.old.definitions) definition.now) (state_of self.old)) }
        ensures ids { OnOk result (Longer self.old self.new) }
        ensures outers { self.new.maps.outers ≡ self.old.maps.outers }
        ensures err { OnErr result (plain_kernel self.new ≡ plain_kernel self.old) }
    {
        let alloc = self.alloc;
        let own = Own(self.maps.own_len());
        let made = made_by(alloc, &self.maps, definition)?;
        add_made(
            alloc,
            &mut self.maps,
            &mut self.store,
            &mut self.removed,
            &mut self.definitions,
            made,
        )?;
        Ok(own)
    }

    /// Adds a learned clause, and tells its id. Its variables are active, none stands in it twice,
    /// and it follows from the hard and the learned clauses. The only error is want of memory, and
    /// nothing changes then.
    pub fn add_learned(&mut self, lits: &[OwnLit]) -> Result<ClauseId, NoMemory>
        requires { Learnable (state_of self.old) lits.now }
        ensures ok { OnOk result (state_of self.new ≡ learning lits.now (state_of self.old)) }
        ensures stored { IfOk result (λ id. Learns self.old self.new lits.now id.0) }
        ensures same { self.new ≡ record self.old { store = self.new.store } }
        ensures err { OnErr result (self.new ≡ self.old) }
    {
        let stored = in_lits(self.alloc, &self.maps, lits)?;
        let id = self.store.add(stored.as_slice(), true)?;
        Ok(id)
    }

    /// Adds a learned clause as it is to be stored, and tells its id: `add_learned` without a way
    /// through own numbers, so that the store alone takes memory. The only error is want of memory,
    /// and nothing changes then.
    pub fn learn(&mut self, lits: &[InLit]) -> Result<ClauseId, NoMemory>
        requires { Learnable (state_of self.old) (own_clause self.old.maps lits.now) }
        ensures ok { OnOk result (state_of self.new ≡ learning (own_clause self.old.maps lits.now) (state_of self.old)) }
        ensures held { IfOk result (λ id. self.new.store.held ≡ self.old.store.held ++ held_as id.0 true lits.now ∷ []) }
        ensures fresh { IfOk result (λ id. self.old.store.given ≤ id.0) }
        ensures marked { marked self.new.store ≡ marked self.old.store }
        ensures same { self.new ≡ record self.old { store = self.new.store } }
        ensures err { OnErr result (self.new ≡ self.old) }
    {
        let id = self.store.add(lits, true)?;
        Ok(id)
    }

    /// Drops a learned clause, by the id of one that is held.
    pub fn drop_learned(&mut self, id: ClauseId)
        requires { IsLearnedId self.old id.0 }
        ensures { self.new ≡ record self.old { store = record self.old.store { held = without id.0 self.old.store.held } } }
    {
        self.store.drop_clause(id);
    }

    /// Drops a hard clause that follows from the other hard clauses, by the id of one that is held.
    pub fn drop_implied(&mut self, id: ClauseId)
        requires { IsImplied self.old id.0 }
        ensures { self.new ≡ record self.old { store = record self.old.store { held = without id.0 self.old.store.held } } }
    {
        self.store.drop_clause(id)
    }

    /// Fixes a literal of an active variable, which follows from the hard and the learned clauses:
    /// pushes a `Fix` entry, drops the clauses that hold the literal, and shortens those that hold
    /// its negation. The only error is want of memory, and nothing changes then.
    pub fn fix(&mut self, lit: OwnLit) -> Result<(), NoMemory>
        requires active { IsTrue (is_active (state_of self.old) lit.var.0) }
        requires follows { EntryFollows (state_of self.old) (Fix lit) }
        ensures ok { OnOk result (state_of self.new ≡ put_into (Fix lit) (state_of self.old)) }
        ensures ids { OnOk result (Keeps self.old self.new lit.var.0) }
        ensures maps { OnOk result (plain self.new.maps ≡ plain (retired lit.var.0 self.old.maps)) }
        ensures err { OnErr result (plain_kernel self.new ≡ plain_kernel self.old) }
    {
        self.push_entry(Entry::Fix(lit))
    }

    /// Replaces an active variable by a literal of another active one, which has its value wherever
    /// the hard and the learned clauses are satisfied: pushes an `Equal` entry, and puts the literal
    /// into the clauses that hold the variable. The only error is want of memory, and nothing
    /// changes then.
    pub fn replace(&mut self, var: Own, by: OwnLit) -> Result<(), NoMemory>
        requires pushable { Pushable (state_of self.old) (Equal var by) }
        requires follows { EntryFollows (state_of self.old) (Equal var by) }
        ensures ok { OnOk result (state_of self.new ≡ put_into (Equal var by) (state_of self.old)) }
        ensures ids { OnOk result (Keeps self.old self.new var.0) }
        ensures maps { OnOk result (plain self.new.maps ≡ plain (retired var.0 self.old.maps)) }
        ensures err { OnErr result (plain_kernel self.new ≡ plain_kernel self.old) }
    {
        self.push_entry(Entry::Equal { var, lit: by })
    }

    /// Pushes an entry that follows and fixes or replaces an active variable, and puts it into the
    /// clauses that hold the variable.
    fn push_entry(&mut self, entry: Entry) -> Result<(), NoMemory>
        requires pushable { Pushable (state_of self.old) entry }
        requires follows { EntryFollows (state_of self.old) entry }
        ensures ok { OnOk result (state_of self.new ≡ put_into entry (state_of self.old)) }
        ensures ids { OnOk result (Keeps self.old self.new (named entry)) }
        ensures maps { OnOk result (plain self.new.maps ≡ plain (retired (named entry) self.old.maps)) }
        ensures err { OnErr result (plain_kernel self.new ≡ plain_kernel self.old) }
    {
        let var = var_of(&entry);
        let changes = collect(self.alloc, &self.maps, &self.store, &entry)?;
        let ids = add_all(self.alloc, &mut self.store, &changes.fresh)?;
        if let Err(error) = self.removed.push(entry) {
            drop_all(&mut self.store, &ids);
            return Err(error);
        }
        drop_all(&mut self.store, &changes.doomed);
        self.maps.retire(var);
        Ok(())
    }

    /// Gives every clause its id anew and frees the places of dropped ones, so that only as many are
    /// left as the clauses and their literals take. The clauses stay, in order. An earlier id may be given again, to another clause too, so no caller may keep one.
    /// It takes no memory.
    pub fn compact(&mut self)
        ensures same { self.new ≡ record self.old { store = self.new.store } }
        ensures clauses { contents self.new.store.held ≡ contents self.old.store.held }
        ensures marked { contents (marked self.new.store) ≡ contents (marked self.old.store) }
        ensures state { state_of self.new ≡ state_of self.old }
        ensures given { self.new.store.given ≡ sum_by (λ clause. length clause.lits + 1) self.old.store.held }
    {
        self.store.compact();
    }

    /// Makes the state not okay. The hard and the learned clauses have no solution.
    pub fn refute(&mut self)
        requires { IsContradicted (state_of self.old) }
        ensures value { self.new ≡ record self.old { okay = false } }
        ensures standing { Standing self.new }
    {
        self.okay = false;
    }

    /// The values of the outer variables, in order, rebuilt from the values of the inner ones. The
    /// state is okay, and the inner values satisfy the hard clauses. So they are a model of the items
    /// taken. The only error is want of memory.
    pub fn outer_model(&self, inner: &[bool]) -> Result<List<bool>, NoMemory>
        requires okay { IsTrue self.now.okay }
        requires long { length inner.now ≡ length self.now.maps.owners }
        requires satisfied { IsTrue (clauses_value (in_value inner.now) (hard_of self.now.store.held)) }
        ensures model { IfOk result (λ values. IsModel (problem_of (state_of self.now)) values) }
        ensures rebuilt { IfOk result (λ values. values ≡ rebuilt_values self.now inner.now) }
    {
        let mut own = own_values(self.alloc, &self.maps, inner)?;
        self.removed.stack().rebuild(&mut own);
        let outer = outer_values(self.alloc, &self.maps, &own)?;
        Ok(outer)
    }
}
