ghost use Rattle.std.specs.Prelude.{◌≡◌, ◌≤◌, ◌^◌, ◌||◌, true, Some, IfOk, OnOk, IsTrue};
ghost use Rattle.sat_lits.specs.Formulas.{names_known};
ghost use Rattle.sat_lits.specs.Truth.{clause_value, clauses_value};
ghost use Rattle.sat_lits.specs.declared.formula.Item.TheVariants.{Clause};
ghost use Rattle.clause_store.specs.Store.{Held, clause_at, is_live, hard_of};
ghost use Rattle.state_laws.specs.State.{no_state, outer_count};
ghost use Rattle.state_laws.specs.Conditions.{Takable};
ghost use Rattle.state_laws.specs.Moves.{grown, taken};
ghost use Rattle.state_laws.specs.Held.{in_value};
ghost use Rattle.state_laws.specs.Kernel.{state_of};
ghost use Rattle.state_laws.specs.declared.definition.Definition.TheVariants.{Xor};
ghost use Rattle.private_state.specs.Importing.{after_import};
ghost use Rattle.parity_forms.specs.Parities.{ParityTakable, IsDefinable};

use crate::{Definition, Import, PrivateState};
use clause_store::ClauseStore;
use rebuild_stack::{Entry, Root};
use sat_lits::{ClauseId, InLit, Inner, Item, List, Lit, NoMemory, Own, OwnLit, Shared, Var};
use std::alloc::Global;
use std::process::Abort;
use std::test::Fail;

const FIRST: Lit = Lit {
    var: Var(0),
    negative: false,
};

const NOT_FIRST: Lit = Lit {
    var: Var(0),
    negative: true,
};

const SECOND: Lit = Lit {
    var: Var(1),
    negative: false,
};

const NOT_SECOND: Lit = Lit {
    var: Var(1),
    negative: true,
};

const THIRD: Lit = Lit {
    var: Var(2),
    negative: false,
};

const OWN_NOT_FIRST: OwnLit = OwnLit {
    var: Own(0),
    negative: true,
};

const OWN_SECOND: OwnLit = OwnLit {
    var: Own(1),
    negative: false,
};

/// A state with this many outer variables.
fn new_state(alloc: Global, vars: u32) -> Result<PrivateState, NoMemory>
    requires { vars ≤ 2 ^ 31 }
    ensures { IfOk result (λ state. state_of state ≡ grown vars no_state) }
{
    let mut state = PrivateState::new(alloc);
    state.grow(vars)?;
    Ok(state)
}

fn take(alloc: Global, state: &mut PrivateState, lits: &[Lit]) -> Result<(), NoMemory>
    requires { Takable (state_of state.old) lits.now }
    ensures { OnOk result (state_of state.new ≡ taken lits.now (state_of state.old)) }
{
    let item = Item::Clause(List::from_slice(alloc, lits)?);
    state.take_input(&item)
}

fn take_parity(
    alloc: Global,
    state: &mut PrivateState,
    vars: &[Var],
    rhs: bool,
) -> Result<(), NoMemory>
    requires { ParityTakable (state_of state.old) vars.now rhs }
{
    let vars = List::from_slice(alloc, vars)?;
    let item = Item::Parity { vars, rhs };
    state.take_input(&item)
}

fn is_true(inner: &[bool], lit: InLit) -> bool
    ensures { result ≡ in_value inner.now lit }
{
    let value = inner.get(lit.var.0 as usize).copied().unwrap_or(false);
    if lit.negative { !value } else { value }
}

fn satisfies_clause(inner: &[bool], lits: &[InLit]) -> bool
    ensures { result ≡ clause_value (in_value inner.now) lits.now }
{
    lits.iter().any(|lit| is_true(inner, *lit))
}

/// Whether a clause is learned or satisfied.
fn is_fine(store: &ClauseStore, id: ClauseId, inner: &[bool]) -> bool
    requires { IsTrue (is_live store.now.held id.0) }
    ensures { (clause : Held) → clause_at store.now.held id.0 ≡ Some clause → result ≡ (clause.learned || clause_value (in_value inner.now) clause.lits) }
{
    store.is_learned(id) || satisfies_clause(inner, store.lits(id))
}

/// Whether inner values satisfy the hard clauses.
fn satisfies(store: &ClauseStore, inner: &[bool]) -> bool
    ensures { IsTrue result → IsTrue (clauses_value (in_value inner.now) (hard_of store.now.held)) }
{
    let mut at = store.first();
    'walk: while let Some(id) = at {
        if !is_fine(store, id, inner) {
            return false;
        }
        at = store.after(id);
    }
    true
}

fn model(rt: &impl Abort, state: &PrivateState, inner: &[bool]) -> Result<List<bool>, NoMemory> {
    assert!(rt; state.okay());
    assert!(rt; state.maps().inner_len() as usize == inner.len());
    assert!(rt; satisfies(state.clauses(), inner));
    state.outer_model(inner)
}

/// The first clause that is held, in own literals that are not told apart by their signs.
fn first_clause(rt: &impl Abort, state: &PrivateState) -> Option<(usize, Option<Own>, bool)> {
    let id = state.clauses().first()?;
    assert!(rt; state.clauses().is_live(id));
    let lits = state.clauses().lits(id);
    let first = lits.first()?;
    Some((lits.len(), state.maps().at_inner(first.var), first.negative))
}

#[test]
fn a_fixed_literal_leaves_the_clauses(rt: HostRuntime) -> Result<(), Fail> {
    let mut state = new_state(rt.alloc(), 2)?;
    take(rt.alloc(), &mut state, &[FIRST, SECOND])?;
    take(rt.alloc(), &mut state, &[NOT_FIRST])?;
    assert_eq!(rt; state.taken(), 2);
    state.fix(OWN_NOT_FIRST)?;

    assert_eq!(rt; first_clause(&rt, &state), Some((1, Some(Own(1)), false)));
    let entries = state.stack().entries();
    assert_eq!(rt; entries.len(), 1);
    assert!(rt; matches!(entries[0], Entry::Fix(lit) if lit == OWN_NOT_FIRST));
    let values = model(&rt, &state, &[true, true])?;
    assert_eq!(rt; values.as_slice(), [false, true].as_slice());

    assert_eq!(rt;
        [state.is_active(Own(0)), state.is_active(Own(1))],
        [false, true]
    );
    assert_eq!(rt;
        [state.value_of(Own(0)), state.value_of(Own(1))],
        [Some(false), None]
    );
    assert_eq!(rt; state.root_of(OWN_SECOND), OWN_SECOND);
    assert_eq!(rt; state.root_of(OWN_NOT_FIRST), OWN_NOT_FIRST);
    assert_eq!(rt; state.is_eliminated(Own(0)), false);
    Ok(())
}

#[test]
fn an_empty_clause_is_refuted(rt: HostRuntime) -> Result<(), Fail> {
    let mut state = new_state(rt.alloc(), 1)?;
    take(rt.alloc(), &mut state, &[])?;
    assert_eq!(rt; state.okay(), true);
    state.refute();
    assert_eq!(rt; state.okay(), false);
    Ok(())
}

#[test]
fn a_tautology_is_not_held(rt: HostRuntime) -> Result<(), Fail> {
    let mut state = new_state(rt.alloc(), 1)?;
    take(rt.alloc(), &mut state, &[FIRST, NOT_FIRST])?;
    assert_eq!(rt; state.taken(), 1);
    assert_eq!(rt; state.clauses().first(), None);
    Ok(())
}

#[test]
fn a_repeated_literal_is_merged(rt: HostRuntime) -> Result<(), Fail> {
    let mut state = new_state(rt.alloc(), 1)?;
    take(rt.alloc(), &mut state, &[NOT_FIRST, NOT_FIRST])?;
    assert_eq!(rt; first_clause(&rt, &state), Some((1, Some(Own(0)), true)));
    Ok(())
}

#[test]
fn a_learned_clause_is_dropped(rt: HostRuntime) -> Result<(), Fail> {
    let mut state = new_state(rt.alloc(), 1)?;
    take(rt.alloc(), &mut state, &[NOT_FIRST])?;
    let id = state.add_learned(&[OWN_NOT_FIRST])?;
    let store = state.clauses();
    assert!(rt; store.is_live(id));
    assert_eq!(rt; store.is_learned(id), true);
    state.drop_learned(id);
    assert_eq!(rt; state.clauses().is_live(id), false);
    state.compact();
    assert_eq!(rt; first_clause(&rt, &state), Some((1, Some(Own(0)), true)));
    Ok(())
}

/// What a parity of five variables with a true right side is held as.
fn check_pieces(rt: &impl Abort, state: &PrivateState) -> Result<(), NoMemory> {
    assert!(rt; state.taken() == 1);
    assert!(rt; state.maps().own_len() == 6);
    assert!(rt; state.maps().outer_count() == 5);
    assert!(rt; !satisfies(state.clauses(), &[false; 6]));
    let values = model(rt, state, &[true, false, false, false, false, true])?;
    assert!(rt; values.as_slice() == [true, false, false, false, false].as_slice());
    Ok(())
}

#[test]
fn a_parity_is_held_in_pieces(rt: HostRuntime) -> Result<(), Fail> {
    let mut state = new_state(rt.alloc(), 5)?;
    take_parity(
        rt.alloc(),
        &mut state,
        &[Var(0), Var(1), Var(2), Var(3), Var(4)],
        true,
    )?;
    check_pieces(&rt, &state)?;
    Ok(())
}

#[test]
fn a_repeated_variable_is_cancelled(rt: HostRuntime) -> Result<(), Fail> {
    let mut state = new_state(rt.alloc(), 1)?;
    take_parity(rt.alloc(), &mut state, &[Var(0), Var(0)], false)?;
    assert_eq!(rt; state.clauses().first(), None);
    Ok(())
}

#[test]
fn a_parity_of_nothing_is_the_empty_clause(rt: HostRuntime) -> Result<(), Fail> {
    let mut state = new_state(rt.alloc(), 1)?;
    take_parity(rt.alloc(), &mut state, &[Var(0), Var(0)], true)?;
    assert_eq!(rt; state.clauses().first().is_some(), true);
    assert_eq!(rt; satisfies(state.clauses(), &[true]), false);
    Ok(())
}

fn define(alloc: Global, state: &mut PrivateState, vars: &[Own]) -> Result<Own, NoMemory>
    requires { IsDefinable (state_of state.old) (Xor vars.now) }
{
    let vars = List::from_slice(alloc, vars)?;
    state.define_private(&Definition::Xor { vars })
}

#[test]
fn a_private_variable_is_the_next_own_one(rt: HostRuntime) -> Result<(), Fail> {
    let mut state = new_state(rt.alloc(), 3)?;
    let own = define(rt.alloc(), &mut state, &[Own(0), Own(1)])?;
    assert_eq!(rt; own, Own(3));
    assert!(rt; state.maps().own_len() == 4);
    assert_eq!(rt; state.maps().to_outer(own), None);
    assert_eq!(rt;
        satisfies(state.clauses(), &[true, false, false, false]),
        false
    );
    assert_eq!(rt;
        satisfies(state.clauses(), &[true, false, false, true]),
        true
    );
    Ok(())
}

/// Whether these clauses are held, in order, and no other.
fn holds(store: &ClauseStore, clauses: &[[InLit; 2]]) -> bool {
    let mut at = store.first();
    'each: for lits in clauses {
        let Some(id) = at else {
            return false;
        };
        if store.lits(id) != lits.as_slice() {
            return false;
        }
        at = store.after(id);
    }
    at.is_none()
}

fn in_lit(var: u32, negative: bool) -> InLit {
    InLit {
        var: Inner(var),
        negative,
    }
}

#[test]
fn an_eliminated_variable_leaves_its_resolvents_and_comes_back(
    rt: HostRuntime,
) -> Result<(), Fail> {
    let mut state = new_state(rt.alloc(), 3)?;
    take(rt.alloc(), &mut state, &[FIRST, SECOND])?;
    take(rt.alloc(), &mut state, &[FIRST, NOT_SECOND])?;
    take(rt.alloc(), &mut state, &[NOT_FIRST, THIRD])?;
    state.eliminate(Own(0))?;

    let resolvents = [
        [in_lit(1, false), in_lit(2, false)],
        [in_lit(1, true), in_lit(2, false)],
    ];
    assert!(rt; holds(state.clauses(), &resolvents));
    assert_eq!(rt; state.is_eliminated(Own(0)), true);
    assert_eq!(rt; state.occurrences(Inner(0)).len(), 3);
    let values = model(&rt, &state, &[false, false, true])?;
    assert_eq!(rt; values.as_slice(), [true, false, true].as_slice());

    state.restore_one(Own(0))?;
    assert_eq!(rt; state.is_active(Own(0)), true);
    assert_eq!(rt; state.stack().entries().len(), 0);
    assert_eq!(rt; state.root(OWN_NOT_FIRST), Root::Last(OWN_NOT_FIRST));
    let restored = [
        [in_lit(1, false), in_lit(2, false)],
        [in_lit(1, true), in_lit(2, false)],
        [in_lit(0, false), in_lit(1, false)],
        [in_lit(0, false), in_lit(1, true)],
        [in_lit(0, true), in_lit(2, false)],
    ];
    assert!(rt; holds(state.clauses(), &restored));
    Ok(())
}

/// Imports an entry with these literals.
fn import(alloc: Global, state: &mut PrivateState, lits: &[Lit]) -> Result<Import, NoMemory>
    requires { names_known (outer_count state.old.definitions) (Clause lits.now) ≡ true }
    ensures { OnOk result (state_of state.new ≡ after_import (record { solver = 1; after = 0; clause = lits.now }) (state_of state.old)) }
{
    let entry = Shared {
        solver: 1,
        after: 0,
        clause: List::from_slice(alloc, lits)?,
    };
    state.import(&entry)
}

/// Whether the third clause that is held is this one, and the last.
fn holds_third(store: &ClauseStore, lit: InLit) -> bool {
    let Some(first) = store.first() else {
        return false;
    };
    let Some(second) = store.after(first) else {
        return false;
    };
    let Some(third) = store.after(second) else {
        return false;
    };
    store.lits(third) == [lit].as_slice() && store.after(third).is_none()
}

#[test]
fn an_entry_waits_until_its_variable_is_back(rt: HostRuntime) -> Result<(), Fail> {
    let mut state = new_state(rt.alloc(), 3)?;
    take(rt.alloc(), &mut state, &[FIRST, SECOND])?;
    take(rt.alloc(), &mut state, &[FIRST, NOT_SECOND])?;
    take(rt.alloc(), &mut state, &[NOT_FIRST, THIRD])?;
    state.eliminate(Own(0))?;
    let before = import(rt.alloc(), &mut state, &[FIRST])?;
    state.restore_one(Own(0))?;
    let after = import(rt.alloc(), &mut state, &[FIRST])?;

    assert_eq!(rt; before, Import::Waits { var: Var(0) });
    assert_eq!(rt; after, Import::Taken);
    assert_eq!(rt; state.value_of(Own(0)), Some(true));
    assert!(rt; holds_third(state.clauses(), in_lit(2, false)));
    Ok(())
}
