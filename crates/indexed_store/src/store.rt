ghost use Rattle.std.specs.Prelude.{◌≡◌, ◌<◌, ◌≤◌, ◌+◌, ◌∷◌, ◌++◌, [], true, false, filter, length, sum_by, IfOk, OnErr, IsTrue};
ghost use Rattle.sat_lits.specs.InLits.{is_distinct};
ghost use Rattle.clause_store.specs.Store.{IsKept, held_as, is_live, without, contents, hard_of, learned_of, marked};
ghost use Rattle.indexed_store.specs.Occurrences.{clauses_at, is_pair, occurrences};
ghost use Rattle.indexed_store.specs.Lists.{ids_rise};
ghost use Rattle.indexed_store.specs.Bounds.{is_bounded};

use crate::flags::{clear_flags, make_flags, write_flag};
use crate::lists::{clear_each, fill, push_each, reserve_each, sweep, sweep_list};
use crate::pairs::{push_pair, refill_pairs, reserve_pair};
use crate::short_id::ShortId;
use clause_store::ClauseStore;
use sat_lits::{ClauseId, InLit, Inner, NoMemory};
use std::alloc::Global;
use std::marker::Model;

/// The clauses of a `ClauseStore`, and for each variable the ids of those that hold it.
#[derive(Debug, Drop)]
pub struct IndexedStore {
    alloc: Global,
    store: ClauseStore,
    // By variable, in order of addition. Ids of dropped clauses may stay.
    lists: Vec<Vec<ShortId>>,
    // The ids of the learned clauses of two literals, in order. Ids of dropped clauses may stay.
    pairs: Vec<ShortId>,
    // The literals of the clauses, and of dropped ones whose ids may stand in the lists.
    live: u64,
    stale: u64,
    // By variable, whether it is set aside.
    aside: Vec<bool>,
}

impl Model for IndexedStore {
    ghost use Rattle.clause_store.specs.Store.{Store};

    ghost Value = { Store };

    ghost use Rattle.indexed_store.specs.Inside.{store_of, IsIndexed};

    ghost view = { store_of };

    ghost invariant = { IsIndexed };
}

impl IndexedStore {
    /// A store of no clause. It takes no memory.
    pub fn new(alloc: Global) -> IndexedStore
        ensures { result ≡ record { held = []; given = 0; mark = 0 } }
    {
        IndexedStore {
            alloc,
            store: ClauseStore::new(alloc),
            lists: Vec::new(alloc),
            pairs: Vec::new(alloc),
            live: 0,
            stale: 0,
            aside: Vec::new(alloc),
        }
    }

    /// The clauses.
    pub fn store(&self) -> &ClauseStore
        ensures value { result.now ≡ self.now }
        ensures kept { IsKept self.now }
    {
        &self.store
    }

    /// The ids of the clauses that hold a variable, in order of addition. Among them may be ids
    /// that are not live.
    pub fn occurrences(&self, var: Inner) -> &[ShortId]
        ensures value { clauses_at self.now.held result.now ≡ occurrences var.0 self.now.held }
        ensures kept { IsKept self.now }
    {
        match self.lists.get(var.0 as usize) {
            Some(list) => list.as_slice(),
            None => &[],
        }
    }

    /// The ids of the learned clauses of two literals, in order of addition. Among them may be ids that
    /// are not live.
    pub fn pairs(&self) -> &[ShortId]
        ensures value { clauses_at self.now.held result.now ≡ filter is_pair self.now.held }
        ensures rises { ids_rise result.now ≡ true }
        ensures kept { IsKept self.now }
    {
        self.pairs.as_slice()
    }

    /// Marks all clauses (`mark` of `ClauseStore`).
    pub fn set_mark(&mut self)
        ensures { self.new ≡ record self.old { mark = self.old.given } }
    {
        self.store.set_mark();
    }

    /// Whether a variable was set aside, and no hard clause that holds it was added or dropped since.
    /// Where it tells so, the hard clauses of the variable do not meet the bound of elimination.
    pub fn is_set_aside(&self, var: Inner) -> bool
        ensures { IsTrue result → is_bounded var.0 self.now.held ≡ false }
    {
        match self.aside.get(var.0 as usize) {
            Some(flag) => *flag,
            None => false,
        }
    }

    /// Sets a variable aside, whose hard clauses do not meet the bound of elimination. It takes no
    /// memory: a variable that no clause held yet has no place, and is not noted.
    pub fn set_aside(&mut self, var: Inner)
        requires { is_bounded var.0 self.old.held ≡ false }
        ensures { self.new ≡ self.old }
    {
        write_flag(&mut self.aside, var, true);
    }

    /// Adds a clause, in which no literal stands twice, as the last one, and tells its id, which is
    /// above all ids that were given. The only error is want of memory, and nothing changes then.
    pub fn add(&mut self, lits: &[InLit], learned: bool) -> Result<ClauseId, NoMemory>
        requires { IsTrue (is_distinct lits.now) }
        ensures held { IfOk result (λ id. self.new.held ≡ self.old.held ++ held_as id.0 learned lits.now ∷ []) }
        ensures fresh { IfOk result (λ id. self.old.given ≤ id.0) }
        ensures given { IfOk result (λ id. id.0 < self.new.given) }
        ensures mark { self.new.mark ≡ self.old.mark }
        ensures marked { marked self.new ≡ marked self.old }
        ensures err { OnErr result (self.new ≡ self.old) }
    {
        reserve_each(self.alloc, &mut self.lists, lits)?;
        reserve_pair(&mut self.pairs, lits, learned)?;
        make_flags(&mut self.aside, self.lists.len())?;
        let id = self.store.add(lits, learned)?;
        let short = ShortId::of(id);
        push_each(&mut self.lists, lits, short);
        push_pair(&mut self.pairs, lits, learned, short);
        clear_flags(&mut self.aside, lits, learned);
        self.live = self.live.saturating_add(lits.len() as u64);
        Ok(id)
    }

    /// Drops the clause of a live id. The others keep their ids and their order.
    pub fn drop_clause(&mut self, id: ClauseId)
        requires { IsTrue (is_live self.old.held id.0) }
        ensures rest { self.new ≡ record self.old { held = without id.0 self.old.held } }
        ensures kept { IsKept self.old }
    {
        let lits = self.store.lits(id);
        let count = lits.len() as u64;
        clear_flags(&mut self.aside, lits, self.store.is_learned(id));
        self.store.drop_clause(id);
        self.live = self.live.saturating_sub(count);
        self.stale = self.stale.saturating_add(count);
        self.sweep_stale();
    }

    /// Takes the stale ids away, where they pay for a walk over all lists.
    fn sweep_stale(&mut self)
        ensures { self.new ≡ self.old }
    {
        if self.stale > self.live.saturating_add(self.lists.len() as u64) {
            sweep(&self.store, &mut self.lists);
            sweep_list(&self.store, &mut self.pairs);
            self.stale = 0;
        }
    }

    /// Gives every clause its id anew and frees the places of dropped ones, so that only as many are
    /// left as the clauses and their literals take. The clauses stay, in order, and those that were marked
    /// are. An earlier id may be given again, to another clause too, so no caller may keep one. It takes
    /// no memory: the lists are made anew where they stand.
    pub fn compact(&mut self)
        ensures clauses { contents self.new.held ≡ contents self.old.held }
        ensures hard { hard_of self.new.held ≡ hard_of self.old.held }
        ensures learned { learned_of self.new.held ≡ learned_of self.old.held }
        ensures given { self.new.given ≡ sum_by (λ clause. length clause.lits + 1) self.old.held }
        ensures marked { contents (marked self.new) ≡ contents (marked self.old) }
    {
        self.store.compact();
        clear_each(&mut self.lists);
        fill(&self.store, &mut self.lists);
        refill_pairs(&self.store, &mut self.pairs);
        self.stale = 0;
    }
}

#[cfg(test)]
mod tests {
    use super::*;
    use std::test::Fail;

    const FIRST: InLit = InLit {
        var: Inner(0),
        negative: false,
    };

    const NOT_SECOND: InLit = InLit {
        var: Inner(1),
        negative: true,
    };

    #[test]
    fn a_dropped_clause_leaves_the_lists(rt: HostRuntime) -> Result<(), Fail> {
        let mut store = IndexedStore::new(rt.alloc());
        let both = store.add(&[FIRST, NOT_SECOND], false)?;
        let one = store.add(&[FIRST], true)?;
        assert_eq!(rt;
            store.occurrences(Inner(0)),
            [ShortId::of(both), ShortId::of(one)].as_slice()
        );
        assert_eq!(rt; store.occurrences(Inner(1)), [ShortId::of(both)].as_slice());
        let pair = store.add(&[NOT_SECOND, FIRST], true)?;
        assert_eq!(rt; store.pairs(), [ShortId::of(pair)].as_slice());
        assert!(rt; store.store().is_live(ShortId::of(both).whole()));
        store.drop_clause(both);
        store.compact();
        assert_eq!(rt; store.occurrences(Inner(0)).len(), 2);
        assert_eq!(rt; store.occurrences(Inner(1)).len(), 1);
        assert_eq!(rt; store.pairs().len(), 1);
        Ok(())
    }
}
