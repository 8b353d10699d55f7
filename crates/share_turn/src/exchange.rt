ghost use Rattle.std.specs.Prelude.{◌≡◌, ◌≢◌, ◌<◌, List, true, false, Some, None, IfOk, IfErr, IfSome, IfNone, IsSome};
ghost use Rattle.sat_lits.specs.declared.shared.Shared.{Shared};
ghost use Rattle.share_store.specs.Log.{StartsWith};
ghost use Rattle.share_turn.specs.declared.view.Phase.TheVariants.{Free, Out};
ghost use Rattle.share_turn.specs.declared.held.Held.TheVariants.{Stored, Said};
ghost use Rattle.share_turn.specs.Views.{question, IsLegalFor, IsRightOutcome, MayPost, known_of, freed, started, divided, newcomer, after_join};
ghost use Rattle.share_turn.specs.Answers.{Takes, Looks, Posts};

use crate::answers::{BeginRefused, Closed, Look, PostAnswer, Turn};
use crate::held::{Held, Outcome};
use crate::pass::Pass;
use crate::steps::{
    Another, Ask, Glance, Hear, HoldStore, LiftOutcome, LiftStore, PutBack, PutOutcome, ReachBack,
    Release, Show, Try,
};
use crate::table::{Asked, TurnTable};
use crate::words::{
    CLAIMED, OUTCOME_SLOT, OUTCOME_WORD, POSTED, SLOTS, STORE_SLOT, TURN_FREE, TURN_TAKEN,
    TURN_WORD, UNCLAIMED,
};
use atomic_table::Table;
use sat_lits::{Formula, List, Lit};
use share_store::Store;
use std::alloc::Global;
use std::marker::Model;
use std::snapshot::Snapshot;

/// A store and an outcome that several solvers share, each by a pass of its own.
///
/// Contracts see it as the name of its table, which its passes have too. No call waits or tries
/// again, and none but `begin` takes memory.
#[derive(Drop)]
pub struct Exchange {
    table: TurnTable,
}

impl Model for Exchange {
    ghost use Rattle.std.specs.Prelude.{◌≡◌};
    ghost use Rattle.atomic_table.specs.Seated.{TableId};
    ghost use Rattle.share_turn.specs.declared.words.TheConstants.{SLOTS};

    ghost Value = { TableId };

    ghost view = { λ exchange. exchange.table.shared.table_id };

    ghost invariant = { λ exchange. (exchange.table.shared.table_id.words ≡ 2) × (exchange.table.shared.table_id.slots ≡ SLOTS) };
}

impl Exchange {
    /// An exchange over a store, for the solvers of one question, and its first pass. The only
    /// error is want of memory, and hands the store back.
    pub fn begin(
        alloc: Global,
        formula: &Formula,
        assumptions: &[Lit],
        solvers: u32,
        store: Store,
    ) -> Result<(Exchange, Pass), BeginRefused>
        requires { IsLegalFor (question formula.now assumptions.now solvers) store }
        ensures ok { IfOk result (λ r. r.1 ≡ known_of r.0 (started (question formula.now assumptions.now solvers) store)) }
        ensures err { IfErr result (λ refused. refused.store ≡ store) }
    {
        let Ok(copy) = List::from_slice(alloc, assumptions) else {
            return Err(BeginRefused { store });
        };
        let asked = Asked {
            formula: Snapshot::of(formula),
            assumptions: Snapshot::of(&copy),
            solvers,
        };
        let Ok((table, seat)) = Table::vacant(alloc, &[TURN_TAKEN, UNCLAIMED], SLOTS, &asked) else {
            return Err(BeginRefused { store });
        };
        let exchange = Exchange { table };
        let mut pass = Pass { seat };
        exchange.give(&mut pass, store);
        Ok((exchange, pass))
    }

    /// Splits off a pass for a further solver. It has seen what the first pass has seen.
    pub fn split(&self, first: &mut Pass) -> Pass
        requires own { first.old.table ≡ self.now }
        requires first { first.old.view.first ≡ true }
        requires free { first.old.view.turn ≡ Free }
        ensures first { first.new ≡ known_of first.old.table (divided first.old.view) }
        ensures new { result ≡ known_of first.old.table (newcomer first.old.view) }
    {
        let shared = &self.table.shared;
        Pass {
            seat: shared.split_seat::<Another>(&mut first.seat),
        }
    }

    /// Looks whether an outcome was posted.
    pub fn look(&self, pass: &mut Pass) -> Look
        requires { pass.old.table ≡ self.now }
        ensures own { pass.new.table ≡ pass.old.table }
        ensures look { Looks pass.old.view pass.new.view result }
    {
        let shared = &self.table.shared;
        if shared.load::<Glance>(&mut pass.seat, OUTCOME_WORD) == POSTED {
            Look::Stop
        } else {
            Look::Go
        }
    }

    /// Tries once to take the turn, and the store with it.
    pub fn take(&self, pass: &mut Pass) -> Turn
        requires own { pass.old.table ≡ self.now }
        requires free { pass.old.view.turn ≡ Free }
        ensures own { pass.new.table ≡ pass.old.table }
        ensures turn { Takes pass.old.view pass.new.view result }
    {
        let shared = &self.table.shared;
        let found = shared.compare_exchange::<Try>(
            &mut pass.seat,
            TURN_WORD,
            TURN_FREE,
            TURN_TAKEN,
        );
        if found != TURN_FREE {
            return Turn::Busy;
        }
        shared.load::<LiftStore>(&mut pass.seat, TURN_WORD);
        let held = shared.exchange(&mut pass.seat, STORE_SLOT, None);
        shared.load::<HoldStore>(&mut pass.seat, TURN_WORD);
        match held {
            Some(Held::Stored(store)) => Turn::Got(store),
            Some(Held::Said(_)) => unreachable!(),
            None => unreachable!(),
        }
    }

    /// Gives the store back, and the turn with it. Its log begins with the one that it went out
    /// with.
    pub fn give(&self, pass: &mut Pass, store: Store)
        requires own { pass.old.table ≡ self.now }
        requires legal { IsLegalFor pass.old.view.question store }
        requires turn { (log : List Shared) × (pass.old.view.turn ≡ Out log) × StartsWith store log }
        ensures { pass.new ≡ known_of pass.old.table (freed store pass.old.view) }
    {
        let shared = &self.table.shared;
        shared.load::<ReachBack>(&mut pass.seat, TURN_WORD);
        match shared.exchange(&mut pass.seat, STORE_SLOT, Some(Held::Stored(store))) {
            None => {}
            Some(_) => unreachable!(),
        }
        shared.load::<PutBack>(&mut pass.seat, TURN_WORD);
        shared.store::<Release>(&mut pass.seat, TURN_WORD, TURN_FREE);
    }

    /// Posts the outcome of a solver, unless another pass was first.
    pub fn post(&self, pass: &mut Pass, outcome: Outcome) -> PostAnswer
        requires own { pass.old.table ≡ self.now }
        requires right { MayPost pass.old.view outcome }
        ensures own { pass.new.table ≡ pass.old.table }
        ensures post { Posts pass.old.view outcome pass.new.view result }
    {
        let shared = &self.table.shared;
        let found = shared.compare_exchange::<Ask>(
            &mut pass.seat,
            OUTCOME_WORD,
            UNCLAIMED,
            CLAIMED,
        );
        if found != UNCLAIMED {
            return PostAnswer::Late(outcome);
        }
        shared.load::<LiftOutcome>(&mut pass.seat, OUTCOME_WORD);
        match shared.exchange(&mut pass.seat, OUTCOME_SLOT, Some(Held::Said(outcome))) {
            None => {}
            Some(_) => unreachable!(),
        }
        shared.load::<PutOutcome>(&mut pass.seat, OUTCOME_WORD);
        shared.store::<Show>(&mut pass.seat, OUTCOME_WORD, POSTED);
        PostAnswer::Posted
    }

    /// Ends the pass of a solver. The first pass then knows what that one knew.
    pub fn join(&self, first: &mut Pass, other: Pass)
        requires own { (first.old.table ≡ self.now) × (other.table ≡ self.now) }
        requires first { (first.old.view.first ≡ true) × (other.view.first ≡ false) }
        requires free { (first.old.view.turn ≡ Free) × (other.view.turn ≡ Free) }
        ensures known { first.new ≡ known_of first.old.table (after_join first.old.view other.view) }
        ensures both { StartsWith first.new.view.seen first.old.view.seen × StartsWith first.new.view.seen other.view.seen }
    {
        let shared = &self.table.shared;
        let Pass { seat } = other;
        shared.join_seat::<Another>(&mut first.seat, seat);
        shared.load::<Hear>(&mut first.seat, TURN_WORD);
    }

    /// Ends the exchange. The store is there unless a pass that was not joined had the turn. The
    /// outcome is there where one was posted, and is the very one that the first pass, or a pass
    /// that was joined into it, had posted.
    pub fn close(self, first: Pass) -> Closed
        requires own { first.table ≡ self }
        requires first { first.view.first ≡ true }
        requires free { first.view.turn ≡ Free }

        ensures store { IfSome result.store (λ log. IsLegalFor first.view.question log × StartsWith log first.view.seen) }
        ensures all { first.view.splits ≡ first.view.joins → IsSome result.store }
        ensures none { IfNone result.store (first.view.joins < first.view.splits) }

        ensures outcome { IfSome result.outcome (λ o. IsRightOutcome first.view.question first.view.alarmed o) }
        ensures kept { IfSome first.view.outcome (λ o. result.outcome ≡ Some o) }
        ensures posted { first.view.posted ≡ true → IsSome result.outcome }
        ensures late { first.view.splits ≡ first.view.joins → first.view.late ≡ true → IsSome result.outcome }
    {
        let Exchange { table } = self;
        let Pass { seat } = first;
        let mut closed = table.close_with(seat);
        let turn = closed.word(TURN_WORD);
        let stage = closed.word(OUTCOME_WORD);
        let held = closed.take(STORE_SLOT);
        let said = closed.take(OUTCOME_SLOT);
        closed.free();
        Closed {
            store: store_of(turn, held),
            outcome: outcome_of(stage, said),
        }
    }
}

// The store, where its word says that the turn is free.
fn store_of(turn: u64, held: Option<Held>) -> Option<Store>
    ensures free { (log : List Shared) → turn ≡ TURN_FREE → held ≡ Some (Stored log) → result ≡ Some log }
    ensures taken { turn ≢ TURN_FREE → result ≡ None }
{
    match held {
        Some(Held::Stored(store)) if turn == TURN_FREE => Some(store),
        _ => None,
    }
}

// The outcome, where its word says that it was posted.
fn outcome_of(stage: u64, said: Option<Held>) -> Option<Outcome>
    ensures ended { (o : Outcome) → stage ≡ POSTED → said ≡ Some (Said o) → result ≡ Some o }
    ensures unended { stage ≢ POSTED → result ≡ None }
{
    match said {
        Some(Held::Said(outcome)) if stage == POSTED => Some(outcome),
        _ => None,
    }
}
