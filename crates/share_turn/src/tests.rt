ghost use Rattle.std.specs.Prelude.{◌≡◌, true, [], ◌∷◌, IfOk};
ghost use Rattle.sat_lits.specs.declared.formula.Item.TheVariants.{Clause};
ghost use Rattle.share_turn.specs.declared.view.Phase.TheVariants.{Free};

mod threads;

use crate::{Exchange, Look, Outcome, Pass, PostAnswer, Turn};
use sat_lits::{Formula, Limits, List, Lit, Var, Verdict};
use share_store::Store;
use std::alloc::Global;
use std::test::Fail;

const FIRST: Lit = Lit {
    var: Var(0),
    negative: false,
};

/// An exchange of two solvers over an empty store, on a formula that says that one variable is true.
#[tactic(auto, using(crate::specs::Laws::none_is_legal))]
fn begin_on_one_variable(alloc: Global) -> Result<(Exchange, Pass), Fail>
    ensures own { IfOk result (λ r. r.1.table ≡ r.0) }
    ensures first { IfOk result (λ r. r.1.view.first ≡ true) }
    ensures free { IfOk result (λ r. r.1.view.turn ≡ Free) }
    ensures even { IfOk result (λ r. r.1.view.splits ≡ r.1.view.joins) }
    ensures formula { IfOk result (λ r. r.1.view.question.formula.problem ≡ record { vars = 1; items = Clause (FIRST ∷ []) ∷ [] }) }
    ensures assumptions { IfOk result (λ r. r.1.view.question.assumptions ≡ []) }
{
    let mut formula = Formula::new(alloc, Limits::standard());
    formula.grow(1)?;
    formula.push_clause(&[FIRST])?;
    Ok(Exchange::begin(alloc, &formula, &[], 2, Store::new(alloc))?)
}

#[test]
fn the_turn_goes_round_and_the_first_outcome_stands(rt: HostRuntime) -> Result<(), Fail> {
    let (exchange, mut first) = begin_on_one_variable(rt.alloc())?;
    let mut second = exchange.split(&mut first);
    let Turn::Got(store) = exchange.take(&mut first) else {
        panic!(rt; "the turn is free")
    };
    assert!(rt; matches!(exchange.take(&mut second), Turn::Busy));
    exchange.give(&mut first, store);
    let Turn::Got(store) = exchange.take(&mut second) else {
        panic!(rt; "the turn is free again")
    };
    exchange.give(&mut second, store);
    assert_eq!(rt; exchange.look(&mut first), Look::Go);
    let model = Verdict::Sat(List::from_slice(rt.alloc(), &[true])?);
    assert!(rt;
        matches!(
            exchange.post(&mut second, Outcome::Verdict(model)),
            PostAnswer::Posted
        )
    );
    assert!(rt;
        matches!(
            exchange.post(&mut first, Outcome::Halted),
            PostAnswer::Late(Outcome::Halted)
        )
    );
    assert_eq!(rt; exchange.look(&mut first), Look::Stop);
    exchange.join(&mut first, second);
    let closed = exchange.close(first);
    assert!(rt; closed.store.is_some());
    assert!(rt;
        matches!(
            &closed.outcome,
            Some(Outcome::Verdict(Verdict::Sat(values))) if values.as_slice() == [true].as_slice()
        )
    );
    Ok(())
}

#[test]
fn a_store_that_is_not_given_back_is_gone(rt: HostRuntime) -> Result<(), Fail> {
    let (exchange, mut first) = begin_on_one_variable(rt.alloc())?;
    let mut second = exchange.split(&mut first);
    assert!(rt; matches!(exchange.take(&mut second), Turn::Got(_)));
    let closed = exchange.close(first);
    assert!(rt; closed.store.is_none() && closed.outcome.is_none());
    Ok(())
}

#[test]
fn a_store_at_home_is_handed_out_with_passes_unjoined(rt: HostRuntime) -> Result<(), Fail> {
    let (exchange, mut first) = begin_on_one_variable(rt.alloc())?;
    let _second = exchange.split(&mut first);
    let closed = exchange.close(first);
    assert!(rt; closed.store.is_some() && closed.outcome.is_none());
    Ok(())
}
