ghost use Rattle.std.specs.Prelude.{◌≡◌, ◌≤◌, [], Some, None, count_by, IfSome, IfOk, OnOk, IsTrue};
ghost use Rattle.clause_store.specs.Store.{IsKept, Held, clause_at, is_live};
ghost use Rattle.sync_laws.specs.Met.{KeepsMet};
ghost use Rattle.one_solver.specs.Basic.{IsBasic};
ghost use Rattle.one_solver.specs.Learned.{numbers_in, NotesLong};
ghost use Rattle.one_solver.specs.Fixing.{NotesTo};
ghost use Rattle.state_laws.specs.Kernel.{state_of, TookSame};
ghost use Rattle.one_solver.specs.Settled.{OnlyPushed};
ghost use Rattle.one_solver.specs.Units.{IsLength, FindsShort, HasNoUnits, FixesUnits};

use crate::learned::note_long;
use clause_store::ClauseStore;
use private_state::PrivateState;
use removed_vars::own_lit;
use sat_lits::{ClauseId, InLit, NoMemory};

/// How many literals a clause has, as far as it matters here.
#[derive(Clone, Copy, Debug, PartialEq, Eq)]
pub enum Length {
    /// None.
    Empty,
    /// This one alone.
    Single(InLit),
    /// More than one.
    Longer,
}

/// What a walk over clauses meets first.
#[derive(Clone, Copy, Debug, PartialEq, Eq)]
pub enum Short {
    /// A clause without literals.
    Empty,
    /// The clause of this id, which has this literal alone.
    Single(ClauseId, InLit),
    /// The end: each clause has more than one literal.
    End,
}

/// Fixes the literals of the clauses of one literal, hard or learned, until there is none, and
/// refutes the state where a clause is left without literals. Where a literal was fixed, the clauses
/// have new ids then. After want of memory some literals may be fixed.
pub fn fix_units(state: &mut PrivateState) -> Result<(), NoMemory>
    requires basic { IsBasic state.old }
    ensures basic { IsBasic state.new }
    ensures same { TookSame state.old state.new }
    ensures fewer { count_by (λ b. b) (state_of state.new).active ≤ count_by (λ b. b) (state_of state.old).active }
    ensures pushed { OnlyPushed state.old state.new }
    ensures met { KeepsMet (state_of state.old) (state_of state.new) }
    ensures fixed { OnOk result (IsTrue state.new.okay → FixesUnits state.old state.new) }
    ensures left { OnOk result (IsTrue state.new.okay → HasNoUnits state.new) }
{
    if fix_each(state, &mut None)? {
        state.compact();
    }
    Ok(())
}

/// Fixes the literals, and tells whether there was one. The clauses that stay keep their ids. The
/// walk notes the ids of learned clauses of more than two literals in an empty list, if there is
/// one: those that are live at the end are all that there are. The list is gone where the state is
/// refuted, since the walk ends early then.
///
/// One walk meets each clause once: what a fix makes shorter stands behind the others, under a new
/// id.
pub fn fix_each(state: &mut PrivateState, ids: &mut Option<Vec<ClauseId>>) -> Result<bool, NoMemory>
    requires basic { IsBasic state.old }
    requires empty { IfSome (numbers_in ids.old) (λ numbers. numbers ≡ []) }
    ensures basic { IsBasic state.new }
    ensures same { TookSame state.old state.new }
    ensures fewer { count_by (λ b. b) (state_of state.new).active ≤ count_by (λ b. b) (state_of state.old).active }
    ensures pushed { OnlyPushed state.old state.new }
    ensures met { KeepsMet (state_of state.old) (state_of state.new) }
    ensures fixed { OnOk result (IsTrue state.new.okay → FixesUnits state.old state.new) }
    ensures left { OnOk result (IsTrue state.new.okay → HasNoUnits state.new) }
    ensures noted { OnOk result (NotesLong state.new.store None ids.new) }
{
    let mut fixed = false;
    let mut at = state.clauses().first();
    'units: loop {
        match find_short(state.clauses(), at, ids)? {
            Short::Empty => {
                *ids = None;
                state.refute();
                return Ok(fixed);
            }
            Short::Single(id, lit) => {
                state.fix(own_lit(state.maps(), lit))?;
                fixed = true;
                at = state.clauses().next(id);
            }
            Short::End => return Ok(fixed),
        }
    }
}

/// The first clause of at most one literal from that of a live id on. The ids of the learned clauses
/// of more than two literals that the walk passes are noted. The only error is want of memory.
fn find_short(
    store: &ClauseStore,
    start: Option<ClauseId>,
    ids: &mut Option<Vec<ClauseId>>,
) -> Result<Short, NoMemory>
    requires { IfSome start (λ id. IsTrue (is_live store.now.held id.0)) }
    ensures found { IfOk result (λ short. FindsShort store.now start short) }
    ensures noted { IfOk result (λ short. NotesTo store.now start short ids.old ids.new) }
{
    let mut at = start;
    'walk: while let Some(id) = at {
        match length_of(store, id) {
            Length::Empty => return Ok(Short::Empty),
            Length::Single(lit) => return Ok(Short::Single(id, lit)),
            Length::Longer => {
                note_long(ids, store, id)?;
                at = store.after(id);
            }
        }
    }
    Ok(Short::End)
}

/// The length of the clause of a live id.
fn length_of(store: &ClauseStore, id: ClauseId) -> Length
    requires { IsTrue (is_live store.now.held id.0) }
    ensures value { (clause : Held) → clause_at store.now.held id.0 ≡ Some clause → IsLength clause.lits result }
    ensures kept { IsKept store.now }
{
    match store.lits(id) {
        [] => Length::Empty,
        [lit] => Length::Single(*lit),
        _ => Length::Longer,
    }
}
