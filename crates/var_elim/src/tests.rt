ghost use Rattle.std.specs.Prelude.{◌≡◌, ◌≤◌, ◌^◌, nat_lt, IsTrue};
ghost use Rattle.std.specs.List.{list_all};
ghost use Rattle.sat_lits.specs.Truth.{clauses_value};
ghost use Rattle.clause_store.specs.Store.{hard_of};
ghost use Rattle.state_laws.specs.Conditions.{Takable};
ghost use Rattle.state_laws.specs.Held.{in_value};
ghost use Rattle.state_laws.specs.Kernel.{state_of};

use crate::{drop_subsumed, eliminate_some};
use clause_store::ClauseStore;
use private_state::PrivateState;
use sat_lits::{Item, List, Lit, NoMemory, Own, Var};
use std::alloc::Global;
use std::ops::Range;
use std::process::Abort;
use std::test::Fail;

/// A state with this many outer variables.
fn new_state(alloc: Global, vars: u32) -> Result<PrivateState, NoMemory>
    requires { vars ≤ 2 ^ 31 }
{
    let mut state = PrivateState::new(alloc);
    state.grow(vars)?;
    Ok(state)
}

fn are_below(lits: &[Lit], vars: u32) -> bool
    ensures { result ≡ list_all (λ l. nat_lt l.var.0 vars) lits.now }
{
    lits.iter().all(|lit| lit.var.0 < vars)
}

/// Whether literals are over outer variables that are there, and none was eliminated.
fn can_take(state: &PrivateState, lits: &[Lit]) -> bool
    ensures { IsTrue result → Takable (state_of state.now) lits.now }
{
    let vars = state.maps().outer_count();
    if !state.stack().entries().is_empty() {
        return false;
    }
    are_below(lits, vars)
}

fn take(
    rt: &impl Abort,
    alloc: Global,
    state: &mut PrivateState,
    lits: &[Lit],
) -> Result<(), NoMemory> {
    assert!(rt; can_take(state, lits));
    let item = Item::Clause(List::from_slice(alloc, lits)?);
    state.take_input(&item)
}

fn positive(number: u32) -> Lit {
    Lit {
        var: Var(number),
        negative: false,
    }
}

fn negative(number: u32) -> Lit {
    Lit {
        var: Var(number),
        negative: true,
    }
}

#[test]
fn a_longer_clause_is_subsumed(rt: HostRuntime) -> Result<(), Fail> {
    let mut state = new_state(rt.alloc(), 3)?;
    take(&rt, rt.alloc(), &mut state, &[positive(0), positive(1)])?;
    take(
        &rt,
        rt.alloc(),
        &mut state,
        &[positive(0), positive(1), positive(2)],
    )?;
    assert_eq!(rt; drop_subsumed(rt.alloc(), &mut state)?, 1);
    assert_eq!(rt; drop_subsumed(rt.alloc(), &mut state)?, 0);
    Ok(())
}

/// Of the chain `-1 2`, `-2 3`, `-3 4`, in DIMACS form, with the last variable frozen.
#[test]
fn a_frozen_variable_is_left(rt: HostRuntime) -> Result<(), Fail> {
    let mut state = new_state(rt.alloc(), 4)?;
    take(&rt, rt.alloc(), &mut state, &[negative(0), positive(1)])?;
    take(&rt, rt.alloc(), &mut state, &[negative(1), positive(2)])?;
    take(&rt, rt.alloc(), &mut state, &[negative(2), positive(3)])?;
    let frozen = [Own(0), Own(3)];
    assert_eq!(rt; eliminate_some(rt.alloc(), &mut state, &frozen, 0)?, 2);
    assert_eq!(rt; eliminate_some(rt.alloc(), &mut state, &frozen, 0)?, 0);
    assert_eq!(rt;
        [
            state.is_eliminated(Own(0)),
            state.is_eliminated(Own(1)),
            state.is_eliminated(Own(2)),
            state.is_eliminated(Own(3))
        ],
        [false, true, true, false]
    );
    Ok(())
}

/// Takes the clauses of a literal and one variable each, of those from one number to another.
fn take_each(
    rt: &impl Abort,
    alloc: Global,
    state: &mut PrivateState,
    first: Lit,
    others: Range<u32>,
) -> Result<(), NoMemory> {
    'each: for other in others {
        take(rt, alloc, state, &[first, positive(other)])?;
    }
    Ok(())
}

/// Takes the clause of a literal and all variables from one number to another.
fn take_long(
    rt: &impl Abort,
    alloc: Global,
    state: &mut PrivateState,
    first: Lit,
    others: Range<u32>,
) -> Result<(), NoMemory> {
    let mut lits = List::new(alloc);
    lits.push(first)?;
    'each: for other in others {
        lits.push(positive(other))?;
    }
    take(rt, alloc, state, lits.as_slice())
}

/// How many variables go where all but the first are frozen.
fn first_goes(alloc: Global, state: &mut PrivateState) -> Result<u64, NoMemory> {
    let mut frozen = Vec::new(alloc);
    'each: for var in 1..state.maps().own_len() {
        frozen.push(Own(var))?;
    }
    eliminate_some(alloc, state, &frozen, 0)
}

/// How many variables go where the first stands in so many clauses of two literals with each sign.
fn binary(rt: &impl Abort, alloc: Global, left: u32, right: u32) -> Result<u64, NoMemory>
    requires left { left ≤ 100 }
    requires right { right ≤ 100 }
{
    let mut state = new_state(alloc, 1 + left + right)?;
    take_each(rt, alloc, &mut state, positive(0), 1..1 + left)?;
    take_each(
        rt,
        alloc,
        &mut state,
        negative(0),
        1 + left..1 + left + right,
    )?;
    first_goes(alloc, &mut state)
}

/// The same where it stands in one clause with each sign, with so many others.
fn long(rt: &impl Abort, alloc: Global, left: u32, right: u32) -> Result<u64, NoMemory>
    requires left { left ≤ 100 }
    requires right { right ≤ 100 }
{
    let mut state = new_state(alloc, 1 + left + right)?;
    take_long(rt, alloc, &mut state, positive(0), 1..1 + left)?;
    take_long(
        rt,
        alloc,
        &mut state,
        negative(0),
        1 + left..1 + left + right,
    )?;
    first_goes(alloc, &mut state)
}

#[test]
fn the_bound_is_exact(rt: HostRuntime) -> Result<(), Fail> {
    assert_eq!(rt; binary(&rt, rt.alloc(), 16, 0)?, 1);
    assert_eq!(rt; binary(&rt, rt.alloc(), 17, 0)?, 0);
    assert_eq!(rt; binary(&rt, rt.alloc(), 2, 2)?, 1);
    assert_eq!(rt; binary(&rt, rt.alloc(), 2, 3)?, 0);
    assert_eq!(rt; long(&rt, rt.alloc(), 16, 16)?, 1);
    assert_eq!(rt; long(&rt, rt.alloc(), 16, 17)?, 0);
    Ok(())
}

/// Whether no clause is held. Then all values satisfy the clauses.
fn holds_none(store: &ClauseStore, values: &[bool]) -> bool
    ensures { IsTrue result → IsTrue (clauses_value (in_value values.now) (hard_of store.now.held)) }
{
    let _any = values;
    store.first().is_none()
}

/// The values of the outer variables where no clause is left.
fn rebuilt(rt: &impl Abort, state: &PrivateState, inner: &[bool]) -> Result<List<bool>, NoMemory> {
    assert!(rt; state.okay());
    assert!(rt; state.maps().inner_len() as usize == inner.len());
    assert!(rt; holds_none(state.clauses(), inner));
    state.outer_model(inner)
}

/// Whether values satisfy `1 2`, `-1 3` and `-2 -3`, in DIMACS form.
fn is_model(values: &[bool]) -> bool {
    match values {
        [one, two, three] => (*one || *two) && (!*one || *three) && (!*two || !*three),
        _ => false,
    }
}

/// Whether every assignment of three inner variables is rebuilt to a model of these clauses.
fn are_models(rt: &impl Abort, state: &PrivateState) -> Result<bool, NoMemory> {
    'each: for number in 0..8u32 {
        let inner = [number % 2 == 1, number / 2 % 2 == 1, number / 4 == 1];
        let values = rebuilt(rt, state, &inner)?;
        if !is_model(values.as_slice()) {
            return Ok(false);
        }
    }
    Ok(true)
}

#[test]
fn every_assignment_is_rebuilt_to_a_model_where_every_variable_goes(
    rt: HostRuntime,
) -> Result<(), Fail> {
    let mut state = new_state(rt.alloc(), 3)?;
    take(&rt, rt.alloc(), &mut state, &[positive(0), positive(1)])?;
    take(&rt, rt.alloc(), &mut state, &[negative(0), positive(2)])?;
    take(&rt, rt.alloc(), &mut state, &[negative(1), negative(2)])?;
    assert_eq!(rt; eliminate_some(rt.alloc(), &mut state, &[], 0)?, 3);
    assert_eq!(rt; are_models(&rt, &state)?, true);
    Ok(())
}
