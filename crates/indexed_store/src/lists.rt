ghost use Rattle.std.specs.Prelude.{◌≡◌, filter, ℕ, ◌≤◌, ◌<◌, ◌++◌, [], true, false, length, vec_capacity, vec_len, OnOk};
ghost use Rattle.std.specs.List.{list_all};
ghost use Rattle.clause_store.specs.Store.{IsKept, is_live};
ghost use Rattle.indexed_store.specs.Lists.{ids_of, places_of, room_of, has_room, ends_with, with_last, added, are_below};
ghost use Rattle.indexed_store.specs.Occurrences.{clauses_at, occurrences};

use crate::short_id::ShortId;
use clause_store::ClauseStore;
use sat_lits::{InLit, Inner, NoMemory};
use std::alloc::Global;

/// Gives a variable an empty list, and each variable below it, where they have none.
fn make_place(alloc: Global, lists: &mut Vec<Vec<ShortId>>, var: Inner) -> Result<(), NoMemory>
    ensures same { (v : ℕ) → ids_of lists.new.items v ≡ ids_of lists.old.items v }
    ensures room { (v : ℕ) → room_of lists.old.items v ≤ room_of lists.new.items v }
    ensures place { OnOk result (var.0 < length lists.new.items) }
{
    'each: for _ in lists.len()..var.0 as usize + 1 {
        lists.push(Vec::new(alloc))?;
    }
    Ok(())
}

/// Makes room for one more id in a list, which doubles where it is full. So it takes at most eight
/// bytes for each id that it has held at once.
pub(crate) fn reserve_place(list: &mut Vec<ShortId>) -> Result<(), NoMemory>
    ensures items { list.new.items ≡ list.old.items }
    ensures room { vec_capacity list.old ≤ vec_capacity list.new }
    ensures more { OnOk result (vec_len list.new < vec_capacity list.new) }
{
    let count = list.len();
    if count == list.capacity() {
        list.reserve_exact(count.max(1))?;
    }
    Ok(())
}

/// Makes room for one more id in the list of a variable.
fn reserve_one(alloc: Global, lists: &mut Vec<Vec<ShortId>>, var: Inner) -> Result<(), NoMemory>
    ensures same { (v : ℕ) → ids_of lists.new.items v ≡ ids_of lists.old.items v }
    ensures room { (v : ℕ) → room_of lists.old.items v ≤ room_of lists.new.items v }
    ensures more { OnOk result (0 < room_of lists.new.items var.0) }
{
    make_place(alloc, lists, var)?;
    reserve_place(&mut lists[var.0 as usize])
}

/// Makes room for one more id in the list of each variable of a clause.
pub(crate) fn reserve_each(
    alloc: Global,
    lists: &mut Vec<Vec<ShortId>>,
    lits: &[InLit],
) -> Result<(), NoMemory>
    ensures same { (v : ℕ) → ids_of lists.new.items v ≡ ids_of lists.old.items v }
    ensures more { OnOk result (list_all (has_room lists.new.items) lits.now ≡ true) }
{
    'each: for lit in lits {
        reserve_one(alloc, lists, lit.var)?;
    }
    Ok(())
}

/// Whether an id is the last one.
fn ends_with(ids: &[ShortId], id: ShortId) -> bool
    ensures { result ≡ ends_with id ids.now }
{
    match ids.last() {
        Some(last) => *last == id,
        None => false,
    }
}

/// Appends an id, where it is not the last one.
fn push_once(list: &mut Vec<ShortId>, id: ShortId)
    requires { ends_with id list.old.items ≡ false → vec_len list.old < vec_capacity list.old }
    ensures items { list.new.items ≡ with_last id list.old.items }
    ensures places { vec_capacity list.new ≡ vec_capacity list.old }
{
    if !ends_with(list, id) {
        list.push_reserved(id);
    }
}

/// Appends an id, which is above those that are there, to the list of each variable of a clause.
pub(crate) fn push_each(lists: &mut Vec<Vec<ShortId>>, lits: &[InLit], id: ShortId)
    requires room { list_all (has_room lists.old.items) lits.now ≡ true }
    requires new { (v : ℕ) → are_below id.0 (ids_of lists.old.items v) ≡ true }
    ensures ids { (v : ℕ) → ids_of lists.new.items v ≡ ids_of lists.old.items v ++ added v lits.now id }
    ensures places { (v : ℕ) → places_of lists.new.items v ≡ places_of lists.old.items v }
{
    'each: for lit in lits {
        let list = &mut lists[lit.var.0 as usize];
        push_once(list, id);
    }
}

/// Leaves the live ids alone.
pub(crate) fn sweep_list(store: &ClauseStore, list: &mut Vec<ShortId>)
    ensures items { list.new.items ≡ filter (λ id. is_live store.now.held id.0) list.old.items }
    ensures places { vec_capacity list.new ≡ vec_capacity list.old }
{
    list.retain(|id| store.is_live(id.whole()));
}

/// Leaves the live ids alone in each list.
pub(crate) fn sweep(store: &ClauseStore, lists: &mut Vec<Vec<ShortId>>)
    ensures { (v : ℕ) → ids_of lists.new.items v ≡ filter (λ id. is_live store.now.held id.0) (ids_of lists.old.items v) }
{
    'each: for list in lists.iter_mut() {
        sweep_list(store, list);
    }
}

/// Empties each list. The lists keep their places.
pub(crate) fn clear_each(lists: &mut Vec<Vec<ShortId>>)
    ensures empty { (v : ℕ) → ids_of lists.new.items v ≡ [] }
    ensures places { (v : ℕ) → places_of lists.new.items v ≡ places_of lists.old.items v }
{
    'each: for list in lists.iter_mut() {
        list.clear();
    }
}

/// Appends the ids of all clauses to empty lists that have places for them.
pub(crate) fn fill(store: &ClauseStore, lists: &mut Vec<Vec<ShortId>>)
    requires empty { (v : ℕ) → ids_of lists.old.items v ≡ [] }
    requires places { (v : ℕ) → length (occurrences v store.now.held) ≤ places_of lists.old.items v }
    ensures known { (v : ℕ) → are_below store.now.given (ids_of lists.new.items v) ≡ true }
    ensures found { (v : ℕ) → clauses_at store.now.held (ids_of lists.new.items v) ≡ occurrences v store.now.held }
    ensures kept { IsKept store.now }
{
    let mut at = store.first();
    'walk: while let Some(id) = at {
        push_each(lists, store.lits(id), ShortId::of(id));
        at = store.after(id);
    }
}
