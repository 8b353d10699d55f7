ghost use Rattle.std.specs.Prelude.{◌≡◌, true, Some, None, [], ◌∷◌, length, nat_lt, option_map, find, IsTrue, IfOk, OnOk, OnErr};
ghost use Rattle.std.specs.List.{list_all};
ghost use Rattle.sat_lits.specs.InLits.{is_distinct};
ghost use Rattle.sat_lits.specs.Formulas.{names_known};
ghost use Rattle.sat_lits.specs.declared.formula.Item.TheVariants.{Clause};
ghost use Rattle.rebuild_stack.specs.Roots.{root, is_lost};
ghost use Rattle.rebuild_stack.specs.declared.entry.Entry.TheVariants.{Fix};
ghost use Rattle.state_laws.specs.State.{outer_count};
ghost use Rattle.state_laws.specs.Away.{is_away};
ghost use Rattle.state_laws.specs.Conditions.{Takable};
ghost use Rattle.state_laws.specs.Moves.{own_form, imported, put_into};
ghost use Rattle.state_laws.specs.Held.{own_clause, own_outer};
ghost use Rattle.state_laws.specs.Kernel.{state_of, plain_kernel};
ghost use Rattle.removed_vars.specs.Removed.{IsInOrder};
ghost use Rattle.private_state.specs.Importing.{import_answer, after_import, settled, Holds, Leaves, ImportLeaves};

use crate::state::PrivateState;
use rebuild_stack::Root;
use removed_vars::{RemovedVars, outer_lit, own_form, own_lit};
use sat_lits::{ClauseId, InLit, Lit, NoMemory, OwnLit, Shared, Var};
use var_maps::VarMaps;

/// What the import of a shared entry comes to.
#[derive(Clone, Copy, Debug, PartialEq, Eq)]
pub enum Import {
    /// The clause is held, with fixed literals and replacements put in.
    Taken,
    /// A fixed literal satisfies the clause, or replacements make it a tautology.
    Trivial,
    /// The variable is eliminated, or replaced by an eliminated one. Nothing changed.
    Waits { var: Var },
}

/// The variable of the first literal that comes to an eliminated variable.
fn first_away(maps: &VarMaps, removed: &RemovedVars, lits: &[Lit]) -> Option<Var>
    requires there { list_all (λ l. nat_lt l.var.0 (length maps.now.outers)) lits.now ≡ true }
    requires order { IsInOrder removed.now.entries }
    ensures { result ≡ option_map (λ l. l.var) (find (λ l. is_lost (root removed.now.entries (own_outer maps.now l))) lits.now) }
{
    for lit in lits {
        if let Root::Lost(_) = removed.root(outer_lit(maps, *lit)) {
            return Some(lit.var);
        }
    }
    None
}

impl PrivateState {
    /// Takes an entry that solvers share, whose variables are there. `Waits` comes exactly where one
    /// of them is eliminated, or replaced by an eliminated one, and names the first. Else `Trivial`
    /// comes exactly where a fixed literal satisfies the clause or replacements make it a tautology.
    /// What is left of a taken clause is held as a hard clause: one literal is fixed, and the empty
    /// clause refutes the state. Whether the clause follows from the items is for the caller to know.
    /// The only error is want of memory, and nothing changes then.
    pub fn import(&mut self, entry: &Shared) -> Result<Import, NoMemory>
        requires { names_known (outer_count self.old.definitions) (Clause entry.now.clause) ≡ true }
        ensures answer { IfOk result (λ answer. answer ≡ import_answer (state_of self.old) entry.now.clause) }
        ensures state { OnOk result (state_of self.new ≡ after_import entry.now (state_of self.old)) }
        ensures leaves { OnOk result (ImportLeaves (find (is_away (state_of self.old)) entry.now.clause) (own_form (state_of self.old) entry.now.clause) self.old self.new) }
        ensures err { OnErr result (plain_kernel self.new ≡ plain_kernel self.old) }
    {
        let lits = entry.clause.as_slice();
        if let Some(var) = first_away(&self.maps, &self.removed, lits) {
            return Ok(Import::Waits { var });
        }
        let copy = Shared {
            solver: entry.solver,
            after: entry.after,
            clause: entry.clause.copy()?,
        };
        match own_form(self.alloc, &self.maps, &self.removed, lits)? {
            None => {
                self.note_shared(copy)?;
                Ok(Import::Trivial)
            }
            Some(stored) => {
                self.take_shared(copy, stored.as_slice())?;
                Ok(Import::Taken)
            }
        }
    }

    /// Notes an entry that says nothing new.
    fn note_shared(&mut self, entry: Shared) -> Result<(), NoMemory>
        requires takable { Takable (state_of self.old) entry.clause }
        requires form { own_form (state_of self.old) entry.clause ≡ None }
        ensures ok { OnOk result (state_of self.new ≡ imported entry (state_of self.old)) }
        ensures leaves { OnOk result (Leaves None self.old self.new) }
        ensures err { OnErr result (plain_kernel self.new ≡ plain_kernel self.old) }
    {
        self.entries.push(entry)?;
        Ok(())
    }

    /// Takes an entry of which this is left, as it is stored.
    fn take_shared(&mut self, entry: Shared, stored: &[InLit]) -> Result<(), NoMemory>
        requires takable { Takable (state_of self.old) entry.clause }
        requires form { own_form (state_of self.old) entry.clause ≡ Some (own_clause self.old.maps stored.now) }
        requires distinct { IsTrue (is_distinct stored.now) }
        ensures ok { OnOk result (state_of self.new ≡ settled (Some (own_clause self.old.maps stored.now)) (imported entry (state_of self.old))) }
        ensures leaves { OnOk result (Leaves (Some (own_clause self.old.maps stored.now)) self.old self.new) }
        ensures err { OnErr result (plain_kernel self.new ≡ plain_kernel self.old) }
    {
        match stored {
            [] => self.hold_empty(entry, stored),
            [lit] => {
                let own = own_lit(&self.maps, *lit);
                self.hold_fixed(entry, stored, own)
            }
            _ => {
                self.hold_shared(entry, stored)?;
                Ok(())
            }
        }
    }

    /// Holds an entry of which nothing is left, which refutes the state.
    fn hold_empty(&mut self, entry: Shared, stored: &[InLit]) -> Result<(), NoMemory>
        requires takable { Takable (state_of self.old) entry.clause }
        requires form { own_form (state_of self.old) entry.clause ≡ Some [] }
        requires empty { stored.now ≡ [] }
        ensures ok { OnOk result (state_of self.new ≡ settled (Some []) (imported entry (state_of self.old))) }
        ensures leaves { OnOk result (Leaves (Some []) self.old self.new) }
        ensures err { OnErr result (plain_kernel self.new ≡ plain_kernel self.old) }
    {
        self.hold_shared(entry, stored)?;
        self.refute();
        Ok(())
    }

    /// Holds an entry of which one literal is left, and fixes it.
    fn hold_fixed(&mut self, entry: Shared, stored: &[InLit], lit: OwnLit) -> Result<(), NoMemory>
        requires takable { Takable (state_of self.old) entry.clause }
        requires form { own_form (state_of self.old) entry.clause ≡ Some (lit ∷ []) }
        requires one { own_clause self.old.maps stored.now ≡ lit ∷ [] }
        requires distinct { IsTrue (is_distinct stored.now) }
        ensures ok { OnOk result (state_of self.new ≡ put_into (Fix lit) (imported entry (state_of self.old))) }
        ensures leaves { OnOk result (Leaves (Some (lit ∷ [])) self.old self.new) }
        ensures err { OnErr result (plain_kernel self.new ≡ plain_kernel self.old) }
    {
        let before = self.entries.as_slice().len();
        let held = self.hold_shared(entry, stored)?;
        if let Err(error) = self.fix(lit) {
            self.store.drop_clause(held);
            self.entries.truncate(before);
            return Err(error);
        }
        Ok(())
    }

    /// Holds an entry of which this is left, as it is stored, and tells the id of the clause.
    fn hold_shared(&mut self, entry: Shared, stored: &[InLit]) -> Result<ClauseId, NoMemory>
        requires takable { Takable (state_of self.old) entry.clause }
        requires form { own_form (state_of self.old) entry.clause ≡ Some (own_clause self.old.maps stored.now) }
        requires distinct { IsTrue (is_distinct stored.now) }
        ensures ok { OnOk result (state_of self.new ≡ imported entry (state_of self.old)) }
        ensures held { IfOk result (λ id. Holds self.old self.new entry stored.now id.0) }
        ensures err { OnErr result (plain_kernel self.new ≡ plain_kernel self.old) }
    {
        self.entries.reserve(1)?;
        let id = self.store.add(stored, false)?;
        self.entries.push_reserved(entry);
        Ok(id)
    }
}
