ghost use Rattle.std.specs.Prelude.{◌≡◌, false, filter, IfOk, OnOk, OnErr, IsTrue, IsFalse};
ghost use Rattle.clause_store.specs.Store.{IsKept};
ghost use Rattle.var_maps.specs.Maps.{Matched, plain, retired};
ghost use Rattle.state_laws.specs.State.{is_active};
ghost use Rattle.state_laws.specs.Moves.{eliminated};
ghost use Rattle.state_laws.specs.Resolution.{mentions, resolvents};
ghost use Rattle.state_laws.specs.Kernel.{state_of, plain_kernel, Keeps};
ghost use Rattle.private_state.specs.Bounds.{meets_bound};
ghost use Rattle.removed_vars.specs.Fresh.{Stores};
ghost use Rattle.private_state.specs.Resolving.{TakesOut};

use crate::exceed::exceeds_bound;
use crate::resolve::{resolve, resolve_within_bound};
use crate::state::PrivateState;
use crate::take_out::{TakenOut, take_out};
use rebuild_stack::Entry;
use removed_vars::{Fresh, add_all, drop_all};
use sat_lits::{NoMemory, Own};

impl PrivateState {
    /// Takes an active variable out: its hard clauses go into a `Gone` entry, their resolvents that
    /// are no tautologies become hard clauses, and its learned clauses are dropped (Davis and
    /// Putnam, 1960). The only error is want of memory, and nothing changes then.
    pub fn eliminate(&mut self, var: Own) -> Result<(), NoMemory>
        requires { IsTrue (is_active (state_of self.old) var.0) }
        ensures ok { OnOk result (state_of self.new ≡ eliminated var (state_of self.old)) }
        ensures ids { OnOk result (Keeps self.old self.new var.0) }
        ensures maps { OnOk result (plain self.new.maps ≡ plain (retired var.0 self.old.maps)) }
        ensures err { OnErr result (plain_kernel self.new ≡ plain_kernel self.old) }
    {
        let taken = take_out(self.alloc, &self.maps, &self.store, var)?;
        let fresh = resolve(self.alloc, &self.maps, &taken.block, var)?;
        self.move_out(var, taken, fresh)
    }

    /// Eliminates an active variable exactly where it meets the bound: at most 16 hard clauses hold
    /// it with each sign, and those of their resolvents that are no tautologies are not more than
    /// these clauses, and none has more than 32 literals (Eén and Biere, 2005). It tells whether it
    /// did; else nothing changes, and the variable is looked at again only where a hard clause that
    /// holds it was added or dropped. The only error is want of memory, and nothing changes then.
    pub fn eliminate_within_bound(&mut self, var: Own) -> Result<bool, NoMemory>
        requires { IsTrue (is_active (state_of self.old) var.0) }
        ensures met { IfOk result (λ done. done ≡ meets_bound (state_of self.old) var.0) }
        ensures done { IfOk result (λ done. IsTrue done → state_of self.new ≡ eliminated var (state_of self.old)) }
        ensures ids { IfOk result (λ done. IsTrue done → Keeps self.old self.new var.0) }
        ensures maps { IfOk result (λ done. IsTrue done → plain self.new.maps ≡ plain (retired var.0 self.old.maps)) }
        ensures left { IfOk result (λ done. IsFalse done → self.new ≡ self.old) }
        ensures err { OnErr result (plain_kernel self.new ≡ plain_kernel self.old) }
    {
        if self.is_set_aside(var) {
            return Ok(false);
        }
        // Most variables go no further, so they cost no memory.
        if exceeds_bound(&self.maps, &self.store, var) {
            self.set_aside(var);
            return Ok(false);
        }
        let taken = take_out(self.alloc, &self.maps, &self.store, var)?;
        let Some(fresh) = resolve_within_bound(self.alloc, &self.maps, &taken.block, var)? else {
            self.set_aside(var);
            return Ok(false);
        };
        self.move_out(var, taken, fresh)?;
        Ok(true)
    }

    /// Whether an active variable is set aside: it did not meet the bound, and no hard clause that
    /// holds it was added or dropped since.
    fn is_set_aside(&self, var: Own) -> bool
        requires { IsTrue (is_active (state_of self.now) var.0) }
        ensures { IsTrue result → meets_bound (state_of self.now) var.0 ≡ false }
    {
        let inner = self.maps.to_inner(var).unwrap();
        self.store.is_set_aside(inner)
    }

    /// Sets an active variable aside, which does not meet the bound.
    fn set_aside(&mut self, var: Own)
        requires active { IsTrue (is_active (state_of self.old) var.0) }
        requires over { meets_bound (state_of self.old) var.0 ≡ false }
        ensures { self.new ≡ self.old }
    {
        let inner = self.maps.to_inner(var).unwrap();
        self.store.set_aside(inner);
    }

    /// Takes an active variable out, whose clauses and their resolvents are given.
    fn move_out(&mut self, var: Own, taken: TakenOut, fresh: Vec<Fresh>) -> Result<(), NoMemory>
        requires active { IsTrue (is_active (state_of self.old) var.0) }
        requires taken { TakesOut self.old.maps self.old.store.held var.0 taken }
        requires fresh { Stores self.old.maps fresh.items (resolvents var.0 (filter (mentions var.0) (state_of self.old).hard)) }
        requires matched { Matched self.old.maps }
        requires kept { IsKept self.old.store }
        ensures ok { OnOk result (state_of self.new ≡ eliminated var (state_of self.old)) }
        ensures ids { OnOk result (Keeps self.old self.new var.0) }
        ensures maps { OnOk result (plain self.new.maps ≡ plain (retired var.0 self.old.maps)) }
        ensures err { OnErr result (plain_kernel self.new ≡ plain_kernel self.old) }
    {
        let ids = add_all(self.alloc, &mut self.store, &fresh)?;
        let TakenOut { doomed, block } = taken;
        let entry = Entry::Gone {
            var,
            clauses: block,
        };
        if let Err(error) = self.removed.push(entry) {
            drop_all(&mut self.store, &ids);
            return Err(error);
        }
        drop_all(&mut self.store, &doomed);
        self.maps.retire(var);
        Ok(())
    }
}
