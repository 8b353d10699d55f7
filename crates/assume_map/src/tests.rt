ghost use Rattle.std.specs.Prelude.{◌≡◌, ◌≤◌, ◌^◌, nat_lt, IsTrue};
ghost use Rattle.std.specs.List.{list_all};
ghost use Rattle.state_laws.specs.Conditions.{Takable};
ghost use Rattle.state_laws.specs.Kernel.{state_of};

use crate::{Mapped, failed_lits, map_assumptions};
use private_state::PrivateState;
use sat_lits::{InLit, Inner, Item, List, Lit, NoMemory, Var};
use std::alloc::Global;
use std::process::Abort;
use std::test::Fail;

const FIRST: Lit = Lit {
    var: Var(0),
    negative: false,
};

const NOT_FIRST: Lit = Lit {
    var: Var(0),
    negative: true,
};

const SECOND: Lit = Lit {
    var: Var(1),
    negative: false,
};

const NOT_SECOND: Lit = Lit {
    var: Var(1),
    negative: true,
};

/// A state with this many outer variables.
fn new_state(alloc: Global, vars: u32) -> Result<PrivateState, NoMemory>
    requires { vars ≤ 2 ^ 31 }
{
    let mut state = PrivateState::new(alloc);
    state.grow(vars)?;
    Ok(state)
}

fn are_below(lits: &[Lit], vars: u32) -> bool
    ensures { result ≡ list_all (λ l. nat_lt l.var.0 vars) lits.now }
{
    lits.iter().all(|lit| lit.var.0 < vars)
}

/// Whether literals are over outer variables that are there, and none was fixed, replaced or
/// eliminated.
fn can_take(state: &PrivateState, lits: &[Lit]) -> bool
    ensures { IsTrue result → Takable (state_of state.now) lits.now }
{
    let vars = state.maps().outer_count();
    if !state.stack().entries().is_empty() {
        return false;
    }
    are_below(lits, vars)
}

fn take(
    rt: &impl Abort,
    alloc: Global,
    state: &mut PrivateState,
    lits: &[Lit],
) -> Result<(), NoMemory> {
    assert!(rt; can_take(state, lits));
    let item = Item::Clause(List::from_slice(alloc, lits)?);
    state.take_input(&item)
}

/// A state of `1 2`, `-1 2` and `1 -2`, in DIMACS form.
fn three_clauses(rt: &impl Abort, alloc: Global) -> Result<PrivateState, NoMemory> {
    let mut state = new_state(alloc, 2)?;
    take(rt, alloc, &mut state, &[FIRST, SECOND])?;
    take(rt, alloc, &mut state, &[NOT_FIRST, SECOND])?;
    take(rt, alloc, &mut state, &[FIRST, NOT_SECOND])?;
    Ok(state)
}

fn map(
    rt: &impl Abort,
    alloc: Global,
    state: &PrivateState,
    assumptions: &[Lit],
) -> Result<Mapped, NoMemory> {
    assert!(rt; assumptions.len() <= 100);
    assert!(rt; can_take(state, assumptions));
    map_assumptions(alloc, state, assumptions)
}

fn positive(number: u32) -> InLit {
    InLit {
        var: Inner(number),
        negative: false,
    }
}

#[test]
fn a_repeated_assumption_is_left_out(rt: HostRuntime) -> Result<(), Fail> {
    let state = three_clauses(&rt, rt.alloc())?;
    match map(&rt, rt.alloc(), &state, &[FIRST, FIRST, SECOND])? {
        Mapped::Ready { lits, positions } => {
            assert_eq!(rt; lits.as_slice(), [positive(0), positive(1)].as_slice());
            assert_eq!(rt; positions.as_slice(), [0, 2].as_slice());
        }
        Mapped::Clash(_) => return Err("a clash")?,
    }
    Ok(())
}

#[test]
fn opposite_assumptions_clash(rt: HostRuntime) -> Result<(), Fail> {
    let state = three_clauses(&rt, rt.alloc())?;
    match map(&rt, rt.alloc(), &state, &[FIRST, NOT_FIRST])? {
        Mapped::Ready { .. } => return Err("no clash")?,
        Mapped::Clash(positions) => assert_eq!(rt; positions.as_slice(), [0, 1].as_slice()),
    }
    Ok(())
}

#[test]
fn a_failed_literal_is_given_once(rt: HostRuntime) -> Result<(), Fail> {
    let failed = failed_lits(rt.alloc(), &[FIRST, FIRST, SECOND], &[0, 1])?;
    assert_eq!(rt; failed.as_slice(), [FIRST].as_slice());
    Ok(())
}
