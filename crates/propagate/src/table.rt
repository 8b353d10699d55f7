ghost use Rattle.std.specs.Prelude.{[], ◌∷◌, ◌++◌, IfOk, OnOk, vec_len, ◌≡◌, ◌<◌, ◌≤◌, ◌+◌, ◌*◌, ◌/◌, ◌^◌, ◌||◌, ℕ, List, true, false, length, min, vec_capacity, take, slice_index, slice_index_or, slice_set, IfSome, IfNone, IsTrue};
ghost use Rattle.std.specs.List.{list_any, list_all};
ghost use Rattle.sat_lits.specs.InLits.{same_lit, opposite};
ghost use Rattle.trail.specs.Trail.{IsKept, true_in, false_in, shaped, lits_of};
ghost use Rattle.clause_store.specs.Store.{is_live};
ghost use Rattle.propagate.specs.Reasons.{Extends, names};
ghost use Rattle.propagate.specs.Units.{gives, false_clause};
ghost use Rattle.propagate.specs.Starts.{ChoosesRight, StartsRight, LooksRight, AreListed};
ghost use Rattle.propagate.specs.Fine.{AllFine, IsLater};
ghost use Rattle.propagate.specs.Words.{AreWords, HasPlace, IsSame};
ghost use Rattle.propagate.specs.Watching.{IsFront, HasTakenOver, clauses_below, steps_below};
ghost use Rattle.propagate.specs.Watched.{AreWatched, code_of, negated, no_lit, cut_heads, cut_next, id_of, other_of, watch_at, open_but};
ghost use Rattle.propagate.specs.Visits.{VisitsRight};
ghost use Rattle.propagate.specs.Walks.{Keeps, WalksRight, AllGood, PassRight};

use crate::watches::Taken;
use clause_store::ClauseStore;
use sat_lits::{ClauseId, InLit, Inner, NoMemory};
use std::alloc::Global;
use trail::Trail;

/// A search in a clause that has no more literals begins at its first one.
const FEW_LITERALS: usize = 4;

/// What stands where no literal is watched.
const NO_LIT: InLit = InLit {
    var: Inner(0),
    negative: false,
};

/// The watched literals of clauses, in chains by literal.
///
/// The clause that was taken over as the nth has the entries 2n and 2n + 1, one for each of its two
/// watched literals. An entry of a clause that is not looked at whole stands in the chain of its
/// literal, once.
#[derive(Debug, Drop)]
pub struct Table {
    /// For each literal the first entry of its chain, plus one, or 0 where the chain is empty.
    pub heads: Vec<u32>,
    /// For each entry the next one of its chain, plus one, or 0 at the chain's end.
    pub next: Vec<u32>,
    /// For each entry its literal.
    pub watched: Vec<InLit>,
    /// For each clause whether it is looked at whole.
    pub whole: Vec<bool>,
    /// For each clause the place at which the last search for a literal to watch ended, where that
    /// is past the first few. Which place it is makes no difference to what is found.
    pub resume: Vec<u32>,
}

/// What a visit of a clause came to, one of whose watched literals is false.
#[derive(Clone, Copy)]
enum Visit {
    /// The other watched literal is true now.
    Kept,
    /// This literal of the clause, at this place of it, is not false, and not the other watched one.
    Moved(InLit, usize),
    /// The clause is not live.
    Lost,
    /// All its literals are false.
    AllFalse,
}

/// What is known of an entry: the one after it, plus one, and the other literal that its clause
/// watches.
#[derive(Clone, Copy)]
struct Turn {
    after: usize,
    other: InLit,
}

/// What a walk over chains came to.
#[derive(Clone, Copy)]
pub enum Walk {
    /// Every clause that was met has a true literal, or watches another one now.
    Done,
    /// The same but for clauses that were not live.
    Missed,
    /// All literals of the clause with this id are false.
    Conflict(ClauseId),
}

/// What a clause that is looked at whole gives to be watched.
#[derive(Clone, Copy)]
enum Choice {
    /// The clause is not live.
    Lost,
    /// All its literals are false.
    NoneOpen,
    /// It has one literal alone, which is true now.
    Single,
    /// The first of these is not false, and where the second is, a literal of the clause is true.
    Pair(InLit, InLit),
}

/// What a look at a whole clause came to.
#[derive(Clone, Copy)]
enum Start {
    /// It is looked at whole in the next call too.
    Stays,
    /// It is watched from now on, and this is the second of its watched literals.
    Watched(InLit),
    /// All literals of the clause with this id are false.
    Conflict(ClauseId),
}

impl Table {
    /// The words of no clause and no variable. It takes no memory.
    pub fn new(alloc: Global) -> Table
        ensures { AreWords result 0 0 }
    {
        Table {
            heads: Vec::new(alloc),
            next: Vec::new(alloc),
            watched: Vec::new(alloc),
            whole: Vec::new(alloc),
            resume: Vec::new(alloc),
        }
    }

    /// The words of clauses that are all looked at whole.
    pub fn of(alloc: Global, variables: u32, clauses: usize) -> Result<Table, NoMemory>
        requires { clauses < 2 ^ 63 }
        ensures { IfOk result (λ t. AreWords t variables clauses) }
    {
        let mut heads = Vec::new(alloc);
        heads.resize(2 * variables as usize, 0)?;
        let mut next = Vec::new(alloc);
        next.resize(2 * clauses, 0)?;
        let mut watched = Vec::new(alloc);
        watched.resize(2 * clauses, NO_LIT)?;
        let mut whole = Vec::new(alloc);
        whole.resize(clauses, true)?;
        let mut resume = Vec::new(alloc);
        resume.resize(clauses, 0)?;
        Ok(Table {
            heads,
            next,
            watched,
            whole,
            resume,
        })
    }

    /// Has one clause more, which is looked at whole.
    pub fn add_whole(&mut self)
        requires { HasPlace self.old }
        ensures heads { self.new.heads.items ≡ self.old.heads.items }
        ensures next { self.new.next.items ≡ self.old.next.items ++ 0 ∷ 0 ∷ [] }
        ensures watched { self.new.watched.items ≡ self.old.watched.items ++ no_lit ∷ no_lit ∷ [] }
        ensures whole { self.new.whole.items ≡ self.old.whole.items ++ true ∷ [] }
    {
        self.next.push_reserved(0);
        self.next.push_reserved(0);
        self.watched.push_reserved(NO_LIT);
        self.watched.push_reserved(NO_LIT);
        self.whole.push_reserved(true);
        self.resume.push_reserved(0);
    }

    /// Looks at the clauses that watch a literal, which is false. Each gives the literal up for
    /// another one, or has its other watched literal true or assigned.
    fn walk(&mut self, taken: &[Taken], store: &ClauseStore, trail: &mut Trail, lit: InLit) -> Walk
        requires watched { AreWatched self.old.heads.items self.old.next.items self.old.watched.items taken.now self.old.whole.items }
        requires taken { HasTakenOver taken.now store.now.held }
        requires few { 2 * length taken.now < 2 ^ 32 }
        requires lit_false { IsTrue (false_in trail.old.steps lit) }
        requires key { code_of lit < length self.old.heads.items }
        requires clauses { IsTrue (clauses_below (length self.old.heads.items / 2) store.now.held) }
        requires reserved { IsTrue (clauses_below trail.old.reserved store.now.held) }
        ensures watched { AreWatched self.new.heads.items self.new.next.items self.new.watched.items taken.now self.new.whole.items }
        ensures keeps { Keeps trail.old.steps self.old.watched.items self.new.watched.items }
        ensures heads { length self.new.heads.items ≡ length self.old.heads.items }
        ensures whole { self.new.whole ≡ self.old.whole }
        ensures extends { Extends store.now.held trail.old.steps trail.new.steps }
        ensures reserved { trail.new.reserved ≡ trail.old.reserved }
        ensures right { WalksRight store.now.held taken.now trail.new.steps self.new.whole.items self.new.watched.items lit result }
    {
        let key = code_of(lit);
        let mut before = 0;
        let mut entry = self.heads[key] as usize;
        let mut missed = false;
        'walk: while entry > 0 {
            let place = entry - 1;
            let turn = self.turn_at(place);
            match meet(store, trail, taken, &self.resume, place, turn.other) {
                Visit::Kept => before = entry,
                Visit::Lost => {
                    missed = true;
                    before = entry;
                }
                Visit::AllFalse => return Walk::Conflict(id_at(taken, place)),
                Visit::Moved(found, at) => self.shift(key, before, place, found, at),
            }
            entry = turn.after;
        }
        if missed { Walk::Missed } else { Walk::Done }
    }

    /// Walks over the chains of all literals that a trail makes false, from a place on.
    pub fn pass(
        &mut self,
        taken: &[Taken],
        store: &ClauseStore,
        trail: &mut Trail,
        from: usize,
    ) -> Walk
        requires watched { AreWatched self.old.heads.items self.old.next.items self.old.watched.items taken.now self.old.whole.items }
        requires taken { HasTakenOver taken.now store.now.held }
        requires few { 2 * length taken.now < 2 ^ 32 }
        requires steps { IsTrue (steps_below (length self.old.heads.items / 2) trail.old.steps) }
        requires clauses { IsTrue (clauses_below (length self.old.heads.items / 2) store.now.held) }
        requires reserved { IsTrue (clauses_below trail.old.reserved store.now.held) }
        requires good { AllGood store.now.held taken.now (take from (lits_of trail.old.steps)) trail.old.steps self.old.whole.items self.old.watched.items false }
        requires from { from ≤ length (lits_of trail.old.steps) }
        ensures watched { AreWatched self.new.heads.items self.new.next.items self.new.watched.items taken.now self.new.whole.items }
        ensures keeps { Keeps trail.old.steps self.old.watched.items self.new.watched.items }
        ensures heads { length self.new.heads.items ≡ length self.old.heads.items }
        ensures whole { self.new.whole ≡ self.old.whole }
        ensures extends { Extends store.now.held trail.old.steps trail.new.steps }
        ensures reserved { trail.new.reserved ≡ trail.old.reserved }
        ensures right { PassRight store.now.held taken.now trail.new.steps self.new.whole.items self.new.watched.items result }
    {
        let mut at = from;
        let mut missed = false;
        'literals: while let Some(lit) = literal_at(trail, at) {
            match self.walk(taken, store, trail, negation(lit)) {
                Walk::Conflict(id) => return Walk::Conflict(id),
                Walk::Missed => missed = true,
                Walk::Done => {}
            }
            at += 1;
        }
        if missed { Walk::Missed } else { Walk::Done }
    }

    /// Looks at each clause that is not watched, and watches it from now on where it can be. Tells
    /// the clause that is false, if one is.
    pub fn look_fresh(
        &mut self,
        fresh: &mut Vec<usize>,
        walked: &mut usize,
        done: &[InLit],
        taken: &[Taken],
        store: &ClauseStore,
        trail: &mut Trail,
    ) -> Option<ClauseId>
        requires watched { AreWatched self.old.heads.items self.old.next.items self.old.watched.items taken.now self.old.whole.items }
        requires listed { AreListed taken.now self.old.whole.items fresh.old.items }
        requires taken { HasTakenOver taken.now store.now.held }
        requires few { 2 * length taken.now < 2 ^ 32 }
        requires clauses { IsTrue (clauses_below (length self.old.heads.items / 2) store.now.held) }
        requires reserved { IsTrue (clauses_below trail.old.reserved store.now.held) }
        requires done { IsFront done.now (lits_of trail.old.steps) }
        requires walked { walked.old ≤ length done.now }
        requires good { AllGood store.now.held taken.now (take walked.old (lits_of trail.old.steps)) trail.old.steps self.old.whole.items self.old.watched.items false }
        ensures watched { AreWatched self.new.heads.items self.new.next.items self.new.watched.items taken.now self.new.whole.items }
        ensures listed { AreListed taken.now self.new.whole.items fresh.new.items }
        ensures heads { length self.new.heads.items ≡ length self.old.heads.items }
        ensures extends { Extends store.now.held trail.old.steps trail.new.steps }
        ensures reserved { trail.new.reserved ≡ trail.old.reserved }
        ensures less { walked.new ≤ walked.old }
        ensures good { AllGood store.now.held taken.now (take walked.old (lits_of trail.new.steps)) trail.new.steps self.new.whole.items self.new.watched.items false }
        ensures fine { (starts : List ℕ) → AllFine done.now starts walked.old taken.now self.old.whole.items self.old.watched.items
            → AllFine done.now starts walked.new taken.now self.new.whole.items self.new.watched.items }
        ensures right { LooksRight store.now.held taken.now trail.new.steps self.new.whole.items result }
    {
        let mut at = 0;
        'look: while at < fresh.len() {
            let n = fresh[at];
            if !self.whole[n] {
                fresh.swap_remove(at);
            } else {
                match self.start(taken, store, trail, n) {
                    Start::Conflict(id) => return Some(id),
                    Start::Stays => at += 1,
                    Start::Watched(two) => {
                        *walked = walked_before(done, *walked, two);
                        fresh.swap_remove(at);
                    }
                }
            }
        }
        None
    }

    /// Looks at a whole clause, assigns what it gives, and watches two of its literals from now on
    /// where it has two.
    fn start(&mut self, taken: &[Taken], store: &ClauseStore, trail: &mut Trail, n: usize) -> Start
        requires watched { AreWatched self.old.heads.items self.old.next.items self.old.watched.items taken.now self.old.whole.items }
        requires n { n < length taken.now }
        requires whole { slice_index_or self.old.whole.items n true ≡ true }
        requires taken { HasTakenOver taken.now store.now.held }
        requires few { 2 * length taken.now < 2 ^ 32 }
        requires clauses { IsTrue (clauses_below (length self.old.heads.items / 2) store.now.held) }
        requires reserved { IsTrue (clauses_below trail.old.reserved store.now.held) }
        ensures watched { AreWatched self.new.heads.items self.new.next.items self.new.watched.items taken.now self.new.whole.items }
        ensures heads { length self.new.heads.items ≡ length self.old.heads.items }
        ensures extends { Extends store.now.held trail.old.steps trail.new.steps }
        ensures reserved { trail.new.reserved ≡ trail.old.reserved }
        ensures right { StartsRight store.now.held taken.now n trail.old.steps trail.new.steps self.old self.new result }
    {
        let id = taken[n].id();
        match choose(store, trail, id) {
            Choice::Lost => Start::Stays,
            Choice::Single => Start::Stays,
            Choice::NoneOpen => Start::Conflict(id),
            Choice::Pair(one, two) => {
                self.watch(n, one, two);
                Start::Watched(two)
            }
        }
    }

    /// Watches two literals of a clause that no chain has.
    fn watch(&mut self, n: usize, one: InLit, two: InLit)
        requires next { 2 * n + 1 < length self.old.next.items }
        requires watched { 2 * n + 1 < length self.old.watched.items }
        requires whole { n < length self.old.whole.items }
        requires one { code_of one < length self.old.heads.items }
        requires two { code_of two < length self.old.heads.items }
        requires few { 2 * n + 1 + 1 < 2 ^ 32 }
        ensures heads { self.new.heads.items ≡ slice_set (slice_set self.old.heads.items (code_of one) (2 * n + 1)) (code_of two) ((2 * n + 1) + 1) }
        ensures next { self.new.next.items ≡ slice_set (slice_set self.old.next.items (2 * n) (slice_index self.old.heads.items (code_of one))) (2 * n + 1)
            (slice_index (slice_set self.old.heads.items (code_of one) (2 * n + 1)) (code_of two)) }
        ensures watched { self.new.watched.items ≡ slice_set (slice_set self.old.watched.items (2 * n) one) (2 * n + 1) two }
        ensures whole { self.new.whole.items ≡ slice_set self.old.whole.items n false }
    {
        self.put(2 * n, one);
        self.put(2 * n + 1, two);
        self.whole[n] = false;
    }

    /// What is known of an entry.
    fn turn_at(&self, place: usize) -> Turn
        requires next { place < length self.now.next.items }
        requires watched { other_of place < length self.now.watched.items }
        requires range { place + 1 < 2 ^ 64 }
        ensures after { result.after ≡ slice_index self.now.next.items place }
        ensures other { result.other ≡ watch_at self.now.watched.items (other_of place) }
    {
        Turn {
            after: self.next[place] as usize,
            other: self.watched[other_of(place)],
        }
    }

    /// Remembers where the search in the clause of an entry ended, where that is past the first few
    /// literals.
    fn resume_at(&mut self, place: usize, at: usize)
        ensures { self.new ≡ record self.old { resume = self.new.resume } }
    {
        if at >= FEW_LITERALS {
            if let Some(word) = self.resume.get_mut(place / 2) {
                *word = u32::try_from(at).unwrap_or(0);
            }
        }
    }

    /// Takes an entry out of a chain, where it comes after another one, and puts it in front of the
    /// chain of another literal, which stands at a place of the clause.
    fn shift(&mut self, key: usize, before: usize, place: usize, lit: InLit, at: usize)
        requires key { key < length self.old.heads.items }
        requires before { before ≤ length self.old.next.items }
        requires place { place < length self.old.next.items }
        requires watched { place < length self.old.watched.items }
        requires lit { code_of lit < length self.old.heads.items }
        requires few { place + 1 < 2 ^ 32 }
        ensures heads { self.new.heads.items ≡ slice_set (cut_heads self.old.heads.items self.old.next.items key before place) (code_of lit) (place + 1) }
        ensures next { self.new.next.items ≡ slice_set (cut_next self.old.next.items before place) place
            (slice_index (cut_heads self.old.heads.items self.old.next.items key before place) (code_of lit)) }
        ensures watched { self.new.watched.items ≡ slice_set self.old.watched.items place lit }
        ensures whole { self.new.whole ≡ self.old.whole }
    {
        let after = self.next[place];
        if before == 0 {
            self.heads[key] = after;
        } else {
            self.next[before - 1] = after;
        }
        self.resume_at(place, at);
        self.put(place, lit);
    }

    /// Puts an entry in front of the chain of a literal.
    fn put(&mut self, place: usize, lit: InLit)
        requires place { place < length self.old.next.items }
        requires watched { place < length self.old.watched.items }
        requires lit { code_of lit < length self.old.heads.items }
        requires few { place + 1 < 2 ^ 32 }
        ensures heads { self.new.heads.items ≡ slice_set self.old.heads.items (code_of lit) (place + 1) }
        ensures next { self.new.next.items ≡ slice_set self.old.next.items place (slice_index self.old.heads.items (code_of lit)) }
        ensures watched { self.new.watched.items ≡ slice_set self.old.watched.items place lit }
        ensures whole { self.new.whole ≡ self.old.whole }
    {
        let key = code_of(lit);
        self.watched[place] = lit;
        self.next[place] = self.heads[key];
        self.heads[key] = (place + 1) as u32;
    }
}

/// Has room for one more clause. The only error is want of memory.
pub fn reserve_all(
    taken: &mut Vec<Taken>,
    table: &mut Table,
    fresh: &mut Vec<usize>,
) -> Result<(), NoMemory>
    ensures taken { taken.new.items ≡ taken.old.items }
    ensures table { IsSame table.old table.new }
    ensures fresh { fresh.new.items ≡ fresh.old.items }
    ensures taken_room { OnOk result (vec_len taken.new < vec_capacity taken.new) }
    ensures table_room { OnOk result (HasPlace table.new) }
    ensures fresh_room { OnOk result (vec_len fresh.new < vec_capacity fresh.new) }
{
    taken.reserve(1)?;
    table.next.reserve(2)?;
    table.watched.reserve(2)?;
    table.whole.reserve(1)?;
    table.resume.reserve(1)?;
    fresh.reserve(1)?;
    Ok(())
}

/// Is done with all literals of a trail, of which some of the last are not walked.
pub fn mark_all(done: &mut Vec<InLit>, starts: &mut Vec<usize>, walked: usize, lits: &[InLit])
    requires front { IsFront done.old.items lits.now }
    requires same { length starts.old.items ≡ length done.old.items }
    requires rise { (q r : ℕ) → q ≤ r → r < length starts.old.items → slice_index starts.old.items q ≤ slice_index starts.old.items r }
    requires done_room { length lits.now ≤ vec_capacity done.old }
    requires starts_room { length lits.now ≤ vec_capacity starts.old }
    ensures done { done.new.items ≡ lits.now }
    ensures starts { IsLater starts.old.items starts.new.items walked (length lits.now) }
    ensures done_kept { vec_capacity done.new ≡ vec_capacity done.old }
    ensures starts_kept { vec_capacity starts.new ≡ vec_capacity starts.old }
{
    lower_all(starts, walked);
    for place in done.len()..lits.len() {
        done.push_reserved(lits[place]);
        starts.push_reserved(walked);
    }
}

/// Makes no number greater than a given one, where the numbers do not fall.
fn lower_all(starts: &mut Vec<usize>, most: usize)
    requires rise { (q r : ℕ) → q ≤ r → r < length starts.old.items → slice_index starts.old.items q ≤ slice_index starts.old.items r }
    ensures len { length starts.new.items ≡ length starts.old.items }
    ensures each { (q : ℕ) → q < length starts.old.items → slice_index starts.new.items q ≡ min (slice_index starts.old.items q) most }
    ensures room { vec_capacity starts.new ≡ vec_capacity starts.old }
{
    let mut place = starts.len();
    'lower: while place > 0 && starts[place - 1] > most {
        place -= 1;
        starts[place] = most;
    }
}

/// The literal at a place of a trail, if there is one.
fn literal_at(trail: &Trail, place: usize) -> Option<InLit>
    ensures some { IfSome result (λ lit. (place < length (lits_of trail.now.steps)) × (lit ≡ slice_index_or (lits_of trail.now.steps) place no_lit)) }
    ensures none { IfNone result (length (lits_of trail.now.steps) ≤ place) }
    ensures kept { IsKept trail.now }
{
    let lits = trail.lits();
    if place < lits.len() {
        Some(lits[place])
    } else {
        None
    }
}

/// How many of the first literals can be walked where none of them makes a literal false.
fn walked_before(done: &[InLit], walked: usize, lit: InLit) -> usize
    requires { walked ≤ length done.now }
    ensures less { result ≤ walked }
    ensures apart { (p : ℕ) → p < result → opposite (slice_index_or done.now p no_lit) lit ≡ false }
{
    for place in 0..walked {
        if is_opposite(done[place], lit) {
            return place;
        }
    }
    walked
}

/// Looks at an entry one of whose watched literals is false, where this is the other one. The id of
/// its clause is read only where that is not true, since it lies elsewhere in memory.
fn meet(
    store: &ClauseStore,
    trail: &mut Trail,
    taken: &[Taken],
    resume: &[u32],
    place: usize,
    other: InLit,
) -> Visit
    requires place { place < 2 * length taken.now }
    requires within { is_live store.now.held (id_of taken.now place).0 ≡ true → names store.now.held (id_of taken.now place) (λ lits. list_any (same_lit other) lits) ≡ true }
    requires reserved { IsTrue (clauses_below trail.old.reserved store.now.held) }
    ensures right { VisitsRight store.now.held (id_of taken.now place) other trail.old.steps trail.new.steps result }
    ensures extends { Extends store.now.held trail.old.steps trail.new.steps }
    ensures reserved { trail.new.reserved ≡ trail.old.reserved }
{
    if trail.value(other) == Some(true) {
        return Visit::Kept;
    }
    settle(store, trail, id_at(taken, place), resume, place, other)
}

/// Looks at the clause of an entry, one of whose watched literals is false, where this is the other
/// one, and assigns it where all others are false.
fn settle(
    store: &ClauseStore,
    trail: &mut Trail,
    id: ClauseId,
    resume: &[u32],
    place: usize,
    other: InLit,
) -> Visit
    requires within { is_live store.now.held id.0 ≡ true → names store.now.held id (λ lits. list_any (same_lit other) lits) ≡ true }
    requires reserved { IsTrue (clauses_below trail.old.reserved store.now.held) }
    ensures right { VisitsRight store.now.held id other trail.old.steps trail.new.steps result }
    ensures extends { Extends store.now.held trail.old.steps trail.new.steps }
    ensures reserved { trail.new.reserved ≡ trail.old.reserved }
{
    // The trail's own facts are known from here on.
    let _reserved = trail.reserved();
    let value = trail.value(other);
    if value == Some(true) {
        return Visit::Kept;
    }
    if !store.is_live(id) {
        return Visit::Lost;
    }
    let lits = store.lits(id);
    if let Some((lit, at)) = find_open_from(trail, lits, other, start_in(lits, resume, place)) {
        return Visit::Moved(lit, at);
    }
    match value {
        Some(_) => Visit::AllFalse,
        None => {
            trail.assign(other, Some(id));
            Visit::Kept
        }
    }
}

/// The id of the clause of an entry.
fn id_at(taken: &[Taken], place: usize) -> ClauseId
    requires { place < 2 * length taken.now }
    ensures { result ≡ id_of taken.now place }
{
    taken[place / 2].id()
}

/// The place at which the search in the clause of an entry begins: in a long clause the one at
/// which the last search ended (Gent, 2013).
fn start_in(lits: &[InLit], resume: &[u32], place: usize) -> usize
    ensures { result ≤ length lits.now }
{
    if lits.len() <= FEW_LITERALS {
        return 0;
    }
    match resume.get(place / 2) {
        Some(start) => lits.len().min(*start as usize),
        None => 0,
    }
}

/// The first literal that is not false and not a given one, from a place on or else before it, and
/// its place.
fn find_open_from(
    trail: &Trail,
    lits: &[InLit],
    other: InLit,
    start: usize,
) -> Option<(InLit, usize)>
    requires sound { shaped trail.now.steps ≡ true }
    requires start { start ≤ length lits.now }
    ensures some { IfSome result (λ found. IsTrue (open_but trail.now.steps other lits.now found.0)) }
    ensures none { IfNone result (list_all (λ m. same_lit other m || false_in trail.now.steps m) lits.now ≡ true) }
{
    if let Some((lit, at)) = find_open(trail, &lits[start..], other) {
        return Some((lit, start + at));
    }
    find_open(trail, &lits[..start], other)
}

/// The first literal that is not false and not a given one, and its place.
fn find_open(trail: &Trail, lits: &[InLit], other: InLit) -> Option<(InLit, usize)>
    requires { shaped trail.now.steps ≡ true }
    ensures some { IfSome result (λ found. IsTrue (open_but trail.now.steps other lits.now found.0)) }
    ensures place { IfSome result (λ found. found.1 < length lits.now) }
    ensures none { IfNone result (list_all (λ m. same_lit other m || false_in trail.now.steps m) lits.now ≡ true) }
{
    for (at, lit) in lits.iter().enumerate() {
        if !is_false(trail, *lit) {
            if !is_same(other, *lit) {
                return Some((*lit, at));
            }
        }
    }
    None
}

/// Chooses two literals of a clause to be watched, and assigns what the clause gives.
fn choose(store: &ClauseStore, trail: &mut Trail, id: ClauseId) -> Choice
    requires reserved { IsTrue (clauses_below trail.old.reserved store.now.held) }
    ensures right { ChoosesRight store.now.held id trail.old.steps trail.new.steps result }
    ensures extends { Extends store.now.held trail.old.steps trail.new.steps }
    ensures reserved { trail.new.reserved ≡ trail.old.reserved }
{
    // The trail's own facts are known from here on.
    let _reserved = trail.reserved();
    if !store.is_live(id) {
        return Choice::Lost;
    }
    let lits = store.lits(id);
    let Some(one) = first_open(trail, lits) else {
        return Choice::NoneOpen;
    };
    if let Some((two, _)) = find_open(trail, lits, one) {
        return Choice::Pair(one, two);
    }
    hold(store, trail, id, one);
    match find_latest(trail, lits, one) {
        Some(two) => Choice::Pair(one, two),
        None => Choice::Single,
    }
}

/// The first literal that is not false.
fn first_open(trail: &Trail, lits: &[InLit]) -> Option<InLit>
    requires { shaped trail.now.steps ≡ true }
    ensures some { IfSome result (λ lit. (list_any (same_lit lit) lits.now ≡ true) × (false_in trail.now.steps lit ≡ false)) }
    ensures none { IfNone result (false_clause trail.now.steps lits.now ≡ true) }
{
    for lit in lits {
        if !is_false(trail, *lit) {
            return Some(*lit);
        }
    }
    None
}

/// A literal of the greatest level that is not a given one.
fn find_latest(trail: &Trail, lits: &[InLit], other: InLit) -> Option<InLit>
    ensures { IfSome result (λ lit. (list_any (same_lit lit) lits.now ≡ true) × (same_lit other lit ≡ false)) }
{
    let mut latest = None;
    let mut top = 0;
    for lit in lits {
        if !is_same(other, *lit) {
            let level = trail.level_of(lit.var).unwrap_or(0);
            if level >= top {
                latest = Some(*lit);
                top = level;
            }
        }
    }
    latest
}

/// Assigns a literal that a clause gives, where it is unset. It is not false.
fn hold(store: &ClauseStore, trail: &mut Trail, id: ClauseId, lit: InLit)
    requires gives { names store.now.held id (gives trail.old.steps lit) ≡ true }
    requires able { false_in trail.old.steps lit ≡ false }
    requires sound { shaped trail.old.steps ≡ true }
    requires reserved { IsTrue (clauses_below trail.old.reserved store.now.held) }
    ensures held { true_in trail.new.steps lit ≡ true }
    ensures extends { Extends store.now.held trail.old.steps trail.new.steps }
    ensures reserved { trail.new.reserved ≡ trail.old.reserved }
{
    let _ = store;
    match trail.value(lit) {
        Some(_) => {}
        None => trail.assign(lit, Some(id)),
    }
}

/// Whether a literal is false.
fn is_false(trail: &Trail, lit: InLit) -> bool
    requires { shaped trail.now.steps ≡ true }
    ensures { result ≡ false_in trail.now.steps lit }
{
    match trail.value(lit) {
        Some(value) => !value,
        None => false,
    }
}

fn is_same(first: InLit, second: InLit) -> bool
    ensures { result ≡ same_lit first second }
{
    first.var.0 == second.var.0 && first.negative == second.negative
}

fn is_opposite(first: InLit, second: InLit) -> bool
    ensures { result ≡ opposite first second }
{
    first.var.0 == second.var.0 && first.negative != second.negative
}

fn negation(lit: InLit) -> InLit
    ensures { result ≡ negated lit }
{
    InLit {
        var: lit.var,
        negative: !lit.negative,
    }
}

fn code_of(lit: InLit) -> usize
    ensures { result ≡ code_of lit }
{
    let sign = if lit.negative { 1 } else { 0 };
    2 * lit.var.0 as usize + sign
}

fn other_of(entry: usize) -> usize
    requires { entry + 1 < 2 ^ 64 }
    ensures { result ≡ other_of entry }
{
    if entry % 2 == 0 { entry + 1 } else { entry - 1 }
}
