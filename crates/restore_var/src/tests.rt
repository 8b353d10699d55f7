ghost use Rattle.std.specs.Prelude.{◌≡◌, ◌∷◌, [], true, false, IfOk, OnOk, replicate};
ghost use Rattle.state_laws.specs.Conditions.{Takable};
ghost use Rattle.state_laws.specs.Moves.{taken};
ghost use Rattle.state_laws.specs.Kernel.{state_of};

use crate::restore;
use private_state::PrivateState;
use sat_lits::{Item, List, Lit, NoMemory, Own, Var};
use std::alloc::Global;
use std::test::Fail;

fn lit(var: u32, negative: bool) -> Lit
    ensures { result ≡ record { var = record { 0 = var }; negative = negative } }
{
    Lit {
        var: Var(var),
        negative,
    }
}

/// Takes the clause that a variable implies another.
fn imply(alloc: Global, state: &mut PrivateState, from: u32, to: u32) -> Result<(), NoMemory>
    requires { Takable (state_of state.old) (record { var = record { 0 = from }; negative = true } ∷ record { var = record { 0 = to }; negative = false } ∷ []) }
    ensures { OnOk result (state_of state.new ≡ taken (record { var = record { 0 = from }; negative = true } ∷ record { var = record { 0 = to }; negative = false } ∷ []) (state_of state.old)) }
{
    let item = Item::Clause(List::from_slice(alloc, &[lit(from, true), lit(to, false)])?);
    state.take_input(&item)
}

/// Four variables, each of which implies the next.
fn chain(alloc: Global) -> Result<PrivateState, NoMemory>
    ensures { IfOk result (λ state. (state_of state).active ≡ replicate 4 true) }
{
    let mut state = PrivateState::new(alloc);
    state.grow(4)?;
    imply(alloc, &mut state, 0, 1)?;
    imply(alloc, &mut state, 1, 2)?;
    imply(alloc, &mut state, 2, 3)?;
    Ok(state)
}

#[test]
fn a_newer_variable_that_is_needed_comes_back_first(rt: HostRuntime) -> Result<(), Fail> {
    let mut state = chain(rt.alloc())?;
    state.eliminate(Own(1))?;
    state.eliminate(Own(2))?;
    restore(rt.alloc(), &mut state, &[Own(1)])?;
    assert_eq!(rt;
        [state.is_active(Own(1)), state.is_active(Own(2))],
        [true, true]
    );
    assert_eq!(rt; state.stack().entries().len(), 0);
    Ok(())
}

#[test]
fn an_older_variable_stays_away(rt: HostRuntime) -> Result<(), Fail> {
    let mut state = chain(rt.alloc())?;
    state.eliminate(Own(2))?;
    state.eliminate(Own(1))?;
    restore(rt.alloc(), &mut state, &[Own(1)])?;
    assert_eq!(rt;
        [state.is_active(Own(1)), state.is_active(Own(2))],
        [true, false]
    );
    assert_eq!(rt; state.is_eliminated(Own(2)), true);
    Ok(())
}
