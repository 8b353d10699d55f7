ghost use Rattle.std.specs.Prelude.{◌≡◌, ◌&&◌, ◌==◌, ◌≤◌, ◌<◌, ◌++◌, true, filter, length, vec_capacity, vec_len, OnOk};
ghost use Rattle.clause_store.specs.Store.{IsKept};
ghost use Rattle.indexed_store.specs.Lists.{are_below, ids_rise};
ghost use Rattle.indexed_store.specs.Occurrences.{added_pair, clauses_at, is_pair};

use crate::lists::reserve_place;
use crate::short_id::ShortId;
use clause_store::ClauseStore;
use sat_lits::{InLit, NoMemory};

/// Whether a clause is a learned one of two literals.
fn is_pair(lits: &[InLit], learned: bool) -> bool
    ensures { result ≡ (learned && length lits.now == 2) }
{
    learned && lits.len() == 2
}

/// Makes room for one more id, where a clause is a learned one of two literals.
pub(crate) fn reserve_pair(
    pairs: &mut Vec<ShortId>,
    lits: &[InLit],
    learned: bool,
) -> Result<(), NoMemory>
    ensures items { pairs.new.items ≡ pairs.old.items }
    ensures more { OnOk result ((learned && length lits.now == 2) ≡ true → vec_len pairs.new < vec_capacity pairs.new) }
{
    if is_pair(lits, learned) {
        reserve_place(pairs)?;
    }
    Ok(())
}

/// Appends the id of a clause, where that is a learned one of two literals.
pub(crate) fn push_pair(pairs: &mut Vec<ShortId>, lits: &[InLit], learned: bool, id: ShortId)
    requires { (learned && length lits.now == 2) ≡ true → vec_len pairs.old < vec_capacity pairs.old }
    ensures items { pairs.new.items ≡ pairs.old.items ++ added_pair learned lits.now id }
    ensures places { vec_capacity pairs.new ≡ vec_capacity pairs.old }
{
    if is_pair(lits, learned) {
        pairs.push_reserved(id);
    }
}

/// Makes the list anew from all clauses. It has places for the ids, and takes no memory.
pub(crate) fn refill_pairs(store: &ClauseStore, pairs: &mut Vec<ShortId>)
    requires { length (filter is_pair store.now.held) ≤ vec_capacity pairs.old }
    ensures known { are_below store.now.given pairs.new.items ≡ true }
    ensures rises { ids_rise pairs.new.items ≡ true }
    ensures found { clauses_at store.now.held pairs.new.items ≡ filter is_pair store.now.held }
    ensures kept { IsKept store.now }
{
    pairs.clear();
    let mut at = store.first();
    'walk: while let Some(id) = at {
        push_pair(pairs, store.lits(id), store.is_learned(id), ShortId::of(id));
        at = store.after(id);
    }
}
