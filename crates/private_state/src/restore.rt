ghost use Rattle.std.specs.Prelude.{◌≡◌, true, OnOk, OnErr};
ghost use Rattle.std.specs.List.{list_any};
ghost use Rattle.rebuild_stack.specs.Entries.{is_block_of};
ghost use Rattle.state_laws.specs.Kernel.{state_of, Longer};
ghost use Rattle.removed_vars.specs.Removed.{IsInOrder};
ghost use Rattle.private_state.specs.Restoring.{CanRestore, Restores, CanRestoreAll, AreRestored, RestoresFew, AreGone, CanComeBack, ComesBack, SayTheSame};

use crate::state::PrivateState;
use indexed_store::IndexedStore;
use rebuild_stack::{Block, Entry};
use removed_vars::{RemovedVars, hold_block};
use sat_lits::{NoMemory, Own};
use std::alloc::Global;
use var_maps::VarMaps;

/// The clauses of the `Gone` entry of a variable.
fn block_of<'a>(removed: &'a RemovedVars, var: Own) -> &'a Block
    requires { list_any (is_block_of var) removed.now.entries ≡ true }
    ensures { AreGone var removed.now.entries result.now }
{
    let at = removed.block_of(var).unwrap();
    let Entry::Gone { clauses, .. } = &removed.stack().entries()[at] else {
        unreachable!()
    };
    clauses
}

/// Makes an eliminated variable active, and holds the clauses of its entry as if no `Gone` entry of an
/// active variable stood in the stack. The only error is want of memory, and no more than which inner
/// numbers are free differs then.
fn bring_back(
    alloc: Global,
    maps: &mut VarMaps,
    store: &mut IndexedStore,
    removed: &RemovedVars,
    var: Own,
) -> Result<(), NoMemory>
    requires order { IsInOrder removed.now.entries }
    requires back { CanComeBack var maps.old removed.now.entries }
    ensures ok { OnOk result (ComesBack var removed.now.entries maps.old maps.new store.old store.new) }
    ensures err { OnErr result (SayTheSame maps.old maps.new) }
    ensures held { OnErr result (store.new.held ≡ store.old.held) }
    ensures mark { store.new.mark ≡ store.old.mark }
{
    let block = block_of(removed, var);
    maps.revive(var)?;
    if let Err(error) = hold_block(alloc, removed, maps, store, block) {
        maps.retire(var);
        return Err(error);
    }
    Ok(())
}

impl PrivateState {
    /// Restores an eliminated variable: takes its `Gone` entry out of the stack, wherever it stands,
    /// makes the variable active, and holds the entry's clauses as hard ones, with the newer entries
    /// put in. None of their other variables is eliminated, nor replaced by an eliminated one. The
    /// only error is want of memory: then the state and its clauses are as before, and only which
    /// inner numbers are free may differ.
    pub fn restore_one(&mut self, var: Own) -> Result<(), NoMemory>
        requires { CanRestore (state_of self.old) var }
        ensures ok { OnOk result (Restores (state_of self.old) (state_of self.new) var) }
        ensures ids { OnOk result (Longer self.old self.new) }
        ensures err { OnErr result (state_of self.new ≡ state_of self.old) }
        ensures held { OnErr result (self.new.store.held ≡ self.old.store.held) }
    {
        bring_back(
            self.alloc,
            &mut self.maps,
            &mut self.store,
            &self.removed,
            var,
        )?;
        self.stack_mark = self.removed.count_left(&self.maps, self.stack_mark);
        self.removed.take_out_active(&self.maps);
        Ok(())
    }

    /// Restores eliminated variables one after another, each as `restore_one` does: so each can be
    /// restored once those before it are. The only error is want of memory: then the first few of them
    /// were restored. The stack is walked over once at the end, whatever the number of variables.
    pub fn restore_all(&mut self, vars: &[Own]) -> Result<(), NoMemory>
        requires { CanRestoreAll vars.now (state_of self.old) }
        ensures ok { OnOk result (AreRestored vars.now (state_of self.old) (state_of self.new)) }
        ensures err { OnErr result (RestoresFew vars.now (state_of self.old) (state_of self.new)) }
    {
        let mut done = Ok(());
        'each: for var in vars {
            done = bring_back(
                self.alloc,
                &mut self.maps,
                &mut self.store,
                &self.removed,
                *var,
            );
            if done.is_err() {
                break 'each;
            }
        }
        // After a refusal too: what came back is out of the stack.
        self.stack_mark = self.removed.count_left(&self.maps, self.stack_mark);
        self.removed.take_out_active(&self.maps);
        done
    }
}
