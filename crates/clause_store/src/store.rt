ghost use Rattle.std.specs.Prelude.{◌≡◌, ◌<◌, ◌≤◌, ◌+◌, ◌^◌, ◌∷◌, ◌++◌, [], false, Some, length, take, map, filter, nat_le, sum_by, vec_len, vec_capacity, option_map, option_to_list, IfOk, OnErr, IfSome, IsTrue};
ghost use Rattle.std.specs.List.{slice_range};
ghost use Rattle.sat_lits.specs.InLits.{is_distinct};
ghost use Rattle.clause_store.specs.Store.{IsKept, held_as, clause_at, is_live, before, without, contents, marked, hard_of, learned_of};
ghost use Rattle.clause_store.specs.Words.{AreBlocks, are_plain, can_stand, closed_up, header_of, held_from, held_in, is_header, is_live_header, length_in, places_of, stays_after, step_from};

use sat_lits::{ClauseId, InLit, Inner, NoMemory};
use std::alloc::Global;
use std::marker::Model;

/// The variables of headers are from this number on, and those of literals below it.
const FIRST_HEADER: u32 = 2147483648;

/// The most literals that a header can tell.
const MOST_LITERALS: usize = 1073741823;

/// The most words of a store, so that an id is below this number and fits four bytes.
const MOST_WORDS: usize = 4294967296;

/// Clauses in order of addition, hard and learned, each with an id.
///
/// No id comes twice before the next `compact`, even where its clause was dropped. Each id is below
/// 4294967296.
#[derive(Debug, Drop)]
pub struct ClauseStore {
    // For each clause a header and then its literals. The id of a clause is the place of its
    // header. A header looks like a literal of a variable that no clause may have, which tells how
    // many literals follow and whether the clause is learned. It is negative where the clause was
    // dropped.
    words: Vec<InLit>,
    // The number of words when the mark was set. `compact` moves it with the words.
    mark: usize,
}

impl Model for ClauseStore {
    ghost use Rattle.clause_store.specs.Store.{Store};

    ghost Value = { Store };

    ghost use Rattle.clause_store.specs.Inside.{store_of, IsArena};

    ghost view = { store_of };

    ghost invariant = { IsArena };
}

impl ClauseStore {
    /// A store of no clause. It takes no memory.
    pub fn new(alloc: Global) -> ClauseStore
        ensures { result ≡ record { held = []; given = 0; mark = 0 } }
    {
        ClauseStore {
            words: Vec::new(alloc),
            mark: 0,
        }
    }

    /// Marks all clauses. Those that are added from now on have ids from the mark on.
    pub fn set_mark(&mut self)
        ensures { self.new ≡ record self.old { mark = self.old.given } }
    {
        self.mark = self.words.len();
    }

    /// The mark: a clause was held when it was set exactly where its id is below it. It is 0 where
    /// none was set.
    pub fn mark(&self) -> u64
        ensures value { result ≡ self.now.mark }
        ensures kept { IsKept self.now }
    {
        self.mark as u64
    }

    /// Adds a clause, in which no literal stands twice, as the last one, and tells its id, which is
    /// above all ids that were given. The only error is want of memory, as which a clause of more
    /// than 1073741823 literals counts too, one with a variable from 2147483648 on, and one with
    /// which the store would be longer than 4294967296 words. A clause takes a word and one for each
    /// literal, also where it was dropped, until `compact`. Nothing changes then.
    pub fn add(&mut self, lits: &[InLit], learned: bool) -> Result<ClauseId, NoMemory>
        requires { IsTrue (is_distinct lits.now) }
        ensures held { IfOk result (λ id. self.new.held ≡ self.old.held ++ held_as id.0 learned lits.now ∷ []) }
        ensures fresh { IfOk result (λ id. self.old.given ≤ id.0) }
        ensures given { IfOk result (λ id. id.0 < self.new.given) }
        ensures mark { self.new.mark ≡ self.old.mark }
        ensures marked { marked self.new ≡ marked self.old }
        ensures err { OnErr result (self.new ≡ self.old) }
        ensures kept { IsKept self.old }
        ensures stays_kept { IsKept self.new }
    {
        let place = self.words.len();
        if !can_stand(lits) {
            return Err(NoMemory);
        }
        if lits.len() >= MOST_WORDS - place {
            return Err(NoMemory);
        }
        self.words.reserve(lits.len() + 1)?;
        append(&mut self.words, lits, learned);
        Ok(ClauseId(place as u64))
    }

    /// Drops the clause of a live id. The others keep their ids and their order.
    pub fn drop_clause(&mut self, id: ClauseId)
        requires { IsTrue (is_live self.old.held id.0) }
        ensures rest { self.new ≡ record self.old { held = without id.0 self.old.held } }
        ensures kept { IsKept self.old }
    {
        self.words[id.0 as usize].negative = true;
    }

    /// The literals of the clause of a live id, in the order in which they were added.
    pub fn lits(&self, id: ClauseId) -> &[InLit]
        requires { IsTrue (is_live self.now.held id.0) }
        ensures value { option_map (λ clause. clause.lits) (clause_at self.now.held id.0) ≡ Some result.now }
        ensures kept { IsKept self.now }
    {
        let place = id.0 as usize;
        let end = end_of(&self.words, place);
        &self.words[place + 1..end]
    }

    /// Whether the clause of a live id is a learned one.
    pub fn is_learned(&self, id: ClauseId) -> bool
        requires { IsTrue (is_live self.now.held id.0) }
        ensures value { option_map (λ clause. clause.learned) (clause_at self.now.held id.0) ≡ Some result }
        ensures kept { IsKept self.now }
    {
        self.words[id.0 as usize].var.0 % 2 == 1
    }

    /// Whether a clause that the store holds has the id.
    pub fn is_live(&self, id: ClauseId) -> bool
        ensures value { result ≡ is_live self.now.held id.0 }
        ensures kept { IsKept self.now }
    {
        let place = id.0 as usize;
        place < self.words.len() && is_live_header(self.words[place])
    }

    /// The id of the first clause, or None where there is no clause.
    pub fn first(&self) -> Option<ClauseId>
        ensures live { IfSome result (λ id. IsTrue (is_live self.now.held id.0)) }
        ensures start { before self.now.held result ≡ [] }
        ensures kept { IsKept self.now }
    {
        first_from(&self.words, 0)
    }

    /// The id of the clause that comes after that of a live id, or None after the last one.
    pub fn after(&self, id: ClauseId) -> Option<ClauseId>
        requires { IsTrue (is_live self.now.held id.0) }
        ensures live { IfSome result (λ next. IsTrue (is_live self.now.held next.0)) }
        ensures step { before self.now.held result ≡ before self.now.held (Some id) ++ option_to_list (clause_at self.now.held id.0) }
        ensures kept { IsKept self.now }
    {
        first_from(&self.words, end_of(&self.words, id.0 as usize))
    }

    /// The id of the first clause whose id is above the given one, or None where there is none. The
    /// given id may be that of a dropped clause, or of none.
    pub fn next(&self, id: ClauseId) -> Option<ClauseId>
        ensures live { IfSome result (λ next. IsTrue (is_live self.now.held next.0)) }
        ensures step { before self.now.held result ≡ filter (λ clause. nat_le clause.id id.0) self.now.held }
        ensures kept { IsKept self.now }
    {
        let place = id.0 as usize;
        if place < self.words.len() {
            first_from(&self.words, place + 1)
        } else {
            None
        }
    }

    /// Gives every clause its id anew and gives back the places of dropped ones, so that only as
    /// many are left as the clauses and their literals take. The clauses stay, in order, and those that
    /// were marked are. An earlier id may be given again, to another clause too, so no caller may keep
    /// one. It takes no memory.
    pub fn compact(&mut self)
        ensures clauses { contents self.new.held ≡ contents self.old.held }
        ensures hard { hard_of self.new.held ≡ hard_of self.old.held }
        ensures learned { learned_of self.new.held ≡ learned_of self.old.held }
        ensures given { self.new.given ≡ sum_by (λ clause. length clause.lits + 1) self.old.held }
        ensures marked { contents (marked self.new) ≡ contents (marked self.old) }
        ensures kept { IsKept self.new }
    {
        let (end, mark) = close_up(&mut self.words, self.mark);
        self.words.truncate(end);
        self.mark = mark;
    }
}

/// Whether literals can be told from headers, and a header can tell how many they are.
fn can_stand(lits: &[InLit]) -> bool
    ensures { result ≡ can_stand lits.now }
{
    lits.len() <= MOST_LITERALS && are_plain(lits)
}

/// Whether literals can be told from headers.
fn are_plain(lits: &[InLit]) -> bool
    ensures { result ≡ are_plain lits.now }
{
    lits.iter().all(|lit| lit.var.0 < FIRST_HEADER)
}

/// Appends the words of a clause, for which there is room.
fn append(words: &mut Vec<InLit>, lits: &[InLit], learned: bool)
    requires few { length lits.now < 2 ^ 30 }
    requires room { vec_len words.old + length lits.now < vec_capacity words.old }
    ensures { words.new.items ≡ words.old.items ++ (header_of (length lits.now) learned ∷ lits.now) }
{
    words.push_reserved(header_of(lits.len(), learned));
    for lit in lits {
        words.push_reserved(*lit);
    }
}

/// The header of a clause of so many literals.
fn header_of(count: usize, learned: bool) -> InLit
    requires { count < 2 ^ 30 }
    ensures { result ≡ header_of count learned }
{
    let last = if learned { 1 } else { 0 };
    InLit {
        var: Inner(FIRST_HEADER + 2 * count as u32 + last),
        negative: false,
    }
}

/// Whether a word is a header.
fn is_header(word: InLit) -> bool
    ensures { result ≡ is_header word }
{
    word.var.0 >= FIRST_HEADER
}

/// Whether a word is the header of a clause that was not dropped.
fn is_live_header(word: InLit) -> bool
    ensures { result ≡ is_live_header word }
{
    is_header(word) && !word.negative
}

/// How many literals follow a header.
fn length_in(word: InLit) -> usize
    requires { IsTrue (is_header word) }
    ensures { result ≡ length_in word }
{
    (word.var.0 - FIRST_HEADER) as usize / 2
}

/// How many words to go from a word to the next one that may be a header.
fn step_from(word: InLit) -> usize
    ensures { result ≡ step_from word }
{
    if is_header(word) {
        length_in(word) + 1
    } else {
        1
    }
}

/// The place after the literals of the clause whose header stands at a place.
fn end_of(words: &[InLit], place: usize) -> usize
    requires blocks { AreBlocks words.now 0 }
    requires live { IsTrue (is_live (held_in words.now) place) }
    ensures start { place < result }
    ensures within { result ≤ length words.now }
    ensures passed { held_from 0 (take result (places_of words.now)) ≡ held_from 0 (take (place + 1) (places_of words.now)) }
    ensures lits { option_map (λ clause. clause.lits) (clause_at (held_in words.now) place) ≡ Some (slice_range words.now (place + 1) result) }
{
    place + 1 + length_in(words[place])
}

/// The id of the first clause whose header stands at `start` or after it.
fn first_from(words: &[InLit], start: usize) -> Option<ClauseId>
    requires blocks { AreBlocks words.now 0 }
    requires start { start ≤ length words.now }
    ensures live { IfSome result (λ id. IsTrue (is_live (held_in words.now) id.0)) }
    ensures before { before (held_in words.now) result ≡ held_from 0 (take start (places_of words.now)) }
{
    let mut place = start;
    'walk: while place < words.len() {
        let word = words[place];
        if is_live_header(word) {
            return Some(ClauseId(place as u64));
        }
        place += step_from(word);
    }
    None
}

/// Moves the words of all clauses that were not dropped to the front, in order, and tells how many
/// they are, and how many of them stood before the mark.
fn close_up(words: &mut [InLit], mark: usize) -> (usize, usize)
    ensures within { result.0 ≤ length words.old }
    ensures words { take result.0 words.new ≡ closed_up false words.old }
    ensures mark { result.1 ≡ length (closed_up false (take mark words.old)) }
{
    let mut end = 0;
    let mut closed_mark = 0;
    let mut stays = false;
    for place in 0..words.len() {
        let word = words[place];
        stays = stays_after(stays, word);
        if stays {
            words[end] = word;
            end += 1;
        }
        if place < mark {
            closed_mark = end;
        }
    }
    (end, closed_mark)
}

/// Whether a word stays, where the one before it does or does not.
fn stays_after(stays: bool, word: InLit) -> bool
    ensures { result ≡ stays_after stays word }
{
    if is_header(word) {
        !word.negative
    } else {
        stays
    }
}

#[cfg(test)]
mod tests {
    use super::*;
    use std::test::Fail;

    const FIRST: InLit = InLit {
        var: Inner(0),
        negative: false,
    };

    const NOT_SECOND: InLit = InLit {
        var: Inner(1),
        negative: true,
    };

    const PAST_ALL: InLit = InLit {
        var: Inner(2147483648),
        negative: false,
    };

    #[test]
    fn clauses_are_walked_in_order(rt: HostRuntime) -> Result<(), Fail> {
        let mut store = ClauseStore::new(rt.alloc());
        assert_eq!(rt; store.mark(), 0);
        let first = store.add(&[FIRST, NOT_SECOND], false)?;
        let second = store.add(&[FIRST], true)?;
        let third = store.add(&[], false)?;
        store.set_mark();
        assert_eq!(rt; store.mark(), 6);
        assert_eq!(rt; store.add(&[FIRST, PAST_ALL], false), Err(NoMemory));
        assert!(rt; store.is_live(second));
        store.drop_clause(second);
        let fourth = store.add(&[NOT_SECOND], true)?;
        for (id, is_live) in [
            (first, true),
            (second, false),
            (third, true),
            (fourth, true),
        ] {
            assert_eq!(rt; store.is_live(id), is_live, "at {id:?}");
        }
        assert_ne!(rt; fourth, second);
        assert_eq!(rt; store.next(second), Some(third));
        assert_eq!(rt; store.next(fourth), None);

        store.compact();
        assert_eq!(rt; store.mark(), 4);
        let mut next = store.first();
        for (length, is_learned) in [(2, false), (0, false), (1, true)] {
            let id = next.ok_or("a clause less")?;
            assert!(rt; store.is_live(id));
            assert_eq!(rt; store.lits(id).len(), length, "at {id:?}");
            assert_eq!(rt; store.is_learned(id), is_learned, "at {id:?}");
            next = store.after(id);
        }
        assert_eq!(rt; next, None);
        Ok(())
    }
}
