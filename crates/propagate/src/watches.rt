ghost use Rattle.std.specs.Prelude.{◌≡◌, ◌<◌, ◌≤◌, ℕ, length, slice_index, ◌∷◌, ◌++◌, [], true, map, take, option_map, option_to_list, IfOk, OnOk, OnErr, IsTrue, not};
ghost use Rattle.trail.specs.Trail.{lits_of, IsKept};
ghost use Rattle.clause_store.specs.Store.{clause_at, is_live};
ghost use Rattle.propagate.specs.Reasons.{Extends, Follows, names, reasoned};
ghost use Rattle.propagate.specs.Watching.{HasTakenOver, IsDone, IsFront, taken_as, is_taken, lits_below, clauses_below, steps_below, is_right};

use crate::table::{Table, Walk, mark_all, reserve_all};
use clause_store::ClauseStore;
use sat_lits::{ClauseId, InLit, NoMemory};
use std::alloc::Global;
use std::fmt;
use std::marker::Model;
use std::snapshot::Snapshot;
use trail::Trail;

/// More clauses are not taken over, since each has two entries that are numbered by words of 32 bits.
const MOST_CLAUSES: usize = 2147483647;

/// What propagation came to.
#[derive(Clone, Copy, Debug, PartialEq, Eq)]
pub enum Found {
    /// Every clause has a true literal or two unset ones.
    Quiet,
    /// All literals of the clause with this id are false.
    Conflict(ClauseId),
}

/// A clause as it was when it was taken over. Contracts see its literals too, but its id alone takes
/// memory.
#[derive(Drop)]
pub struct Taken {
    id: ClauseId,
    // The store from which it was taken over, as it was then. It takes no memory.
    from: Snapshot<ClauseStore>,
}

impl Model for Taken {
    ghost use Rattle.propagate.specs.Taken.{TakenClause};

    ghost Value = { TakenClause };

    ghost use Rattle.propagate.specs.Taking.{taken_of};

    ghost view = { taken_of };
}

impl Taken {
    /// The clause of a live id, taken over from a store.
    pub(crate) fn of(store: &ClauseStore, id: ClauseId) -> Taken
        requires { IsTrue (is_live store.now.held id.0) }
        ensures { result ∷ [] ≡ map taken_as (option_to_list (clause_at store.now.held id.0)) }
    {
        Taken {
            id,
            from: Snapshot::of(store),
        }
    }

    /// The id under which it was taken over.
    pub(crate) fn id(&self) -> ClauseId
        ensures { result ≡ self.now.id }
    {
        self.id
    }
}

impl fmt::Debug for Taken {
    fn fmt<W: fmt::Write>(&self, f: &mut fmt::Formatter<W>) -> fmt::Result {
        let id = self.id;
        write!(f, "{id:?}")
    }
}

/// Finds the literals that the clauses of a store give under a trail.
///
/// It takes clauses over from the store before it looks at them, and knows which literals of the
/// trail it is done with. Each clause watches two of its literals, and is looked at where one of
/// these becomes false (Moskewicz, Madigan, Zhao, Zhang and Malik, 2001).
#[derive(Debug, Drop)]
pub struct Watches {
    taken: Vec<Taken>,
    // With room for one literal of each variable.
    done: Vec<InLit>,
    variables: u32,
    // For each place of `done` the place from which literals are walked again where a trail goes
    // back to it. With room as `done`.
    starts: Vec<usize>,
    // The chains of the literals of `done` before this place are walked.
    walked: usize,
    table: Table,
    // The places in `taken` of the clauses that are looked at whole in the next call: those that
    // were taken over since the last one, and those that have no two literals to watch.
    fresh: Vec<usize>,
}

impl Model for Watches {
    ghost use Rattle.propagate.specs.Watching.{Watching};

    ghost Value = { Watching };

    ghost use Rattle.propagate.specs.Inside.{watching_of, HasRoom};

    ghost view = { watching_of };

    ghost invariant = { HasRoom };
}

impl Watches {
    /// Watches of no clause and no variable. It takes no memory.
    pub fn new(alloc: Global) -> Watches
        ensures { result ≡ record { taken = []; done = []; variables = 0 } }
    {
        Watches {
            taken: Vec::new(alloc),
            done: Vec::new(alloc),
            variables: 0,
            starts: Vec::new(alloc),
            walked: 0,
            table: Table::new(alloc),
            fresh: Vec::new(alloc),
        }
    }

    /// Takes over all clauses of a store in place of those before, where their variables are below a
    /// number. No literal is done with then. The only error is want of memory, as which more than
    /// 2147483647 clauses count too, and nothing changes then.
    #[tactic(auto, using(crate::specs::TakenLaws::takes_all))]
    pub fn prepare(&mut self, store: &ClauseStore, variables: u32) -> Result<(), NoMemory>
        requires { IsTrue (clauses_below variables store.now.held) }
        ensures ok { OnOk result (self.new ≡ record { taken = map taken_as store.now.held; done = []; variables = variables }) }
        ensures taken { OnOk result (HasTakenOver self.new.taken store.now.held) }
        ensures err { OnErr result (self.new ≡ self.old) }
    {
        let alloc = *self.done.allocator();
        let taken = take_all_over(alloc, store)?;
        if taken.len() > MOST_CLAUSES {
            return Err(NoMemory);
        }
        let done = Vec::with_capacity(alloc, variables as usize)?;
        let starts = Vec::with_capacity(alloc, variables as usize)?;
        let table = Table::of(alloc, variables, taken.len())?;
        let fresh = count_to(alloc, taken.len())?;
        *self = Watches {
            taken,
            done,
            variables,
            starts,
            walked: 0,
            table,
            fresh,
        };
        Ok(())
    }

    /// Takes over one more clause, under whose id none was taken over, where its variables are below
    /// the number that `prepare` was given. The only error is want of memory, as which more than
    /// 2147483647 clauses count too, and nothing changes then.
    pub fn attach(&mut self, store: &ClauseStore, id: ClauseId) -> Result<(), NoMemory>
        requires live { IsTrue (is_live store.now.held id.0) }
        requires fresh { IsTrue (not (is_taken self.old.taken id.0)) }
        requires variables { IsTrue (names store.now.held id (lits_below self.old.variables)) }
        ensures ok { OnOk result (self.new ≡ record self.old { taken = self.old.taken ++ map taken_as (option_to_list (clause_at store.now.held id.0)) }) }
        ensures err { OnErr result (self.new ≡ self.old) }
    {
        if self.taken.len() >= MOST_CLAUSES {
            return Err(NoMemory);
        }
        let clause = Taken::of(store, id);
        reserve_all(&mut self.taken, &mut self.table, &mut self.fresh)?;
        let place = self.taken.len();
        self.taken.push_reserved(clause);
        self.table.add_whole();
        self.fresh.push_reserved(place);
        Ok(())
    }

    /// Keeps the first `keep` literals that it is done with, or all where there are fewer. To be
    /// called where a trail goes back, with the number of literals that stay.
    pub fn rewind(&mut self, keep: usize)
        ensures { self.new ≡ record self.old { done = take keep self.old.done } }
    {
        if keep < self.done.len() {
            self.walked = self.walked.min(self.starts[keep]);
            self.done.truncate(keep);
            self.starts.truncate(keep);
        }
    }

    /// Assigns the literals that clauses give, each with its clause as the reason, until a clause is
    /// false or no clause is unit. It takes no memory.
    ///
    /// All live clauses have to be taken over as they are now, their variables have to be reserved
    /// in the trail and below the number that `prepare` was given, the variables of the trail too,
    /// and what it is done with has to be the beginning of the trail.
    pub fn propagate(&mut self, store: &ClauseStore, trail: &mut Trail) -> Found
        requires taken { HasTakenOver self.old.taken store.now.held }
        requires reserved { IsTrue (clauses_below trail.old.reserved store.now.held) }
        requires clauses { IsTrue (clauses_below self.old.variables store.now.held) }
        requires steps { IsTrue (steps_below self.old.variables trail.old.steps) }
        requires done { IsFront self.old.done (lits_of trail.old.steps) }
        ensures found { IsTrue (is_right store.now.held trail.new.steps result) }
        ensures extends { Extends store.now.held trail.old.steps trail.new.steps }
        ensures reserved { trail.new.reserved ≡ trail.old.reserved }
        ensures reasoned { reasoned store.now.held trail.old.steps ≡ true → reasoned store.now.held trail.new.steps ≡ true }
        ensures follows { Follows store.now.held trail.old.steps trail.new.steps }
        ensures done { IsDone self.new.done (lits_of trail.new.steps) result }
        ensures same { self.new ≡ record self.old { done = self.new.done } }
    {
        // The store's own facts are known from here on.
        let _live = store.is_live(ClauseId(0));
        let first = self.walked;
        if let Some(id) = self.table.look_fresh(
            &mut self.fresh,
            &mut self.walked,
            &self.done,
            &self.taken,
            store,
            trail,
        ) {
            return Found::Conflict(id);
        }
        match self.table.pass(&self.taken, store, trail, first) {
            Walk::Conflict(id) => Found::Conflict(id),
            Walk::Missed => {
                mark_all(&mut self.done, &mut self.starts, self.walked, trail.lits());
                Found::Quiet
            }
            Walk::Done => {
                mark_all(&mut self.done, &mut self.starts, self.walked, trail.lits());
                self.walked = self.done.len();
                Found::Quiet
            }
        }
    }
}

/// The numbers below a given one, in order.
fn count_to(alloc: Global, end: usize) -> Result<Vec<usize>, NoMemory>
    ensures len { IfOk result (λ v. length v.items ≡ end) }
    ensures each { IfOk result (λ v. (i : ℕ) → i < end → slice_index v.items i ≡ i) }
{
    let mut numbers = Vec::with_capacity(alloc, end)?;
    for number in 0..end {
        numbers.push_reserved(number);
    }
    Ok(numbers)
}

/// All clauses of a store, in order.
fn take_all_over(alloc: Global, store: &ClauseStore) -> Result<Vec<Taken>, NoMemory>
    ensures { IfOk result (λ taken. taken.items ≡ map taken_as store.now.held) }
{
    let mut taken = Vec::new(alloc);
    let mut next = store.first();
    'walk: while let Some(id) = next {
        taken.push(Taken::of(store, id))?;
        next = store.after(id);
    }
    Ok(taken)
}
