ghost use Rattle.std.specs.Prelude.{◌≡◌, ◌+◌, ◌*◌, ◌<◌, ◌≤◌, List, Bool, true, false, IfOk, All, vec_len};
ghost use Rattle.std.specs.Thread.{IsSync};
ghost use Rattle.sat_lits.specs.Meaning.{IsModel};
ghost use Rattle.share_store.specs.Log.{StartsWith};
ghost use Rattle.share_turn.specs.declared.view.Phase.TheVariants.{Free};
ghost use Rattle.share_turn.specs.Views.{IsLegalFor};

use crate::{Exchange, Pass, Turn};
use sat_lits::{Formula, Limits, Lit, Var};
use share_store::Store;
use std::alloc::Global;
use std::test::Fail;
use std::thread::{Threads, for_each_mut, join_mut};

/// A solver with its pass, which is free between two of its turns. No assignment satisfies the
/// formula, so each clause follows from it.
#[derive(Drop)]
struct Solver<'a> {
    exchange: &'a Exchange,
    pass: Pass,
    number: u32,
    // How many entries the log had when this solver gave the store back last, and how many of them
    // are its own.
    seen: u64,
    own_entries: u64,
    // Each store that it got had all of its entries among those.
    in_order: bool,
    ghost own: { pass.table ≡ exchange.now },
    ghost free: { pass.view.turn ≡ Free },
    ghost numbered: { number < pass.view.question.solvers },
    ghost room: { 3 * number + 3 ≤ pass.view.question.formula.problem.vars },
    ghost small: { number < 100 },
    ghost contradiction: { (values : List Bool) → IsModel pass.view.question.formula.problem values → ⊥ },
}

impl<'a> Solver<'a> {
    fn new(exchange: &'a Exchange, pass: Pass, number: u32) -> Solver<'a>
        requires own { pass.table ≡ exchange.now }
        requires free { pass.view.turn ≡ Free }
        requires numbered { number < pass.view.question.solvers }
        requires room { 3 * number + 3 ≤ pass.view.question.formula.problem.vars }
        requires small { number < 100 }
        requires contradiction { (values : List Bool) → IsModel pass.view.question.formula.problem values → ⊥ }
        ensures exchange { result.exchange.now ≡ exchange.now }
        ensures pass { result.pass ≡ pass }
    {
        Solver {
            exchange,
            pass,
            number,
            seen: 0,
            own_entries: 0,
            in_order: true,
        }
    }

    /// Three turns, in each of which it adds a clause of its own, as often as the turn is free.
    fn run(&mut self)
        ensures exchange { self.new.exchange.now ≡ self.old.exchange.now }
        ensures first { self.new.pass.view.first ≡ self.old.pass.view.first }
        ensures splits { self.new.pass.view.splits ≡ self.old.pass.view.splits }
        ensures joins { self.new.pass.view.joins ≡ self.old.pass.view.joins }
    {
        'turns: for turn in 0..3u32 {
            self.take_a_turn(turn);
        }
    }

    fn take_a_turn(&mut self, turn: u32)
        requires { turn < 3 }
        ensures exchange { self.new.exchange.now ≡ self.old.exchange.now }
        ensures first { self.new.pass.view.first ≡ self.old.pass.view.first }
        ensures splits { self.new.pass.view.splits ≡ self.old.pass.view.splits }
        ensures joins { self.new.pass.view.joins ≡ self.old.pass.view.joins }
        ensures seen { StartsWith self.new.pass.view.seen self.old.pass.view.seen }
    {
        let Turn::Got(mut store) = self.exchange.take(&mut self.pass) else {
            return;
        };
        self.in_order = self.in_order
            && own_entries(&store, self.number, self.seen) == self.own_entries;
        add(&self.pass, &mut store, self.number, 3 * self.number + turn);
        self.seen = store.len();
        self.own_entries = own_entries(&store, self.number, self.seen);
        self.exchange.give(&mut self.pass, store);
    }
}

/// How many of the first `count` entries a solver gave.
fn own_entries(store: &Store, number: u32, count: u64) -> u64 {
    let front = store.from(0).iter().take(count as usize);
    front.filter(|entry| entry.solver == number).count() as u64
}

/// Offers the clause of one positive literal. The log stays legal.
fn add(pass: &Pass, store: &mut Store, number: u32, var: u32)
    requires legal { IsLegalFor pass.now.view.question store.old }
    requires numbered { number < pass.now.view.question.solvers }
    requires there { var < pass.now.view.question.formula.problem.vars }
    requires contradiction { (values : List Bool) → IsModel pass.now.view.question.formula.problem values → ⊥ }
    ensures legal { IsLegalFor pass.now.view.question store.new }
    ensures grows { StartsWith store.new store.old }
{
    let clause = [Lit {
        var: Var(var),
        negative: false,
    }];
    let _ = store.offer(number, 0, &clause);
}

/// An exchange over an empty store, on a formula of nine variables and the empty clause.
#[tactic(auto, using(crate::specs::Laws::none_is_legal))]
fn begin_on_a_contradiction(alloc: Global, solvers: u32) -> Result<(Exchange, Pass), Fail>
    ensures own { IfOk result (λ r. r.1.table ≡ r.0) }
    ensures first { IfOk result (λ r. r.1.view.first ≡ true) }
    ensures free { IfOk result (λ r. r.1.view.turn ≡ Free) }
    ensures even { IfOk result (λ r. (r.1.view.splits ≡ 0) × (r.1.view.joins ≡ 0)) }
    ensures solvers { IfOk result (λ r. r.1.view.question.solvers ≡ solvers) }
    ensures room { IfOk result (λ r. r.1.view.question.formula.problem.vars ≡ 9) }
    ensures contradiction { IfOk result (λ r. (values : List Bool) → IsModel r.1.view.question.formula.problem values → ⊥) }
{
    let mut formula = Formula::new(alloc, Limits::standard());
    formula.grow(9)?;
    formula.push_clause(&[])?;
    Ok(Exchange::begin(alloc, &formula, &[], solvers, Store::new(alloc))?)
}

#[test]
fn two_threads_take_three_turns_each(rt: HostRuntime) -> Result<(), Fail> {
    let (exchange, mut first) = begin_on_a_contradiction(rt.alloc(), 2)?;
    let second = exchange.split(&mut first);
    let mut first = Solver::new(&exchange, first, 0);
    let mut second = Solver::new(&exchange, second, 1);
    join_mut(&rt, &mut || first.run(), &mut || second.run());
    assert!(rt; first.in_order && second.in_order);
    let entries = first.own_entries.saturating_add(second.own_entries);
    let mut first = first.pass;
    exchange.join(&mut first, second.pass);
    let closed = exchange.close(first);
    assert!(rt; closed.outcome.is_none());
    let store = closed.store.ok_or("the store is at home")?;
    assert!(rt; entries > 0, "the first try wins");
    assert_eq!(rt; store.len(), entries);
    Ok(())
}

/// All solvers but the first, each in a thread.
fn run_all<R: Threads + Sync>(rt: &R, exchange: &Exchange, solvers: &mut [Solver])
    requires { All (λ s. (s.exchange.now ≡ exchange.now) × (s.pass.view.first ≡ false)) solvers.old }
    ensures { All (λ s. (s.exchange.now ≡ exchange.now) × (s.pass.view.first ≡ false)) solvers.new }
{
    for_each_mut(rt, solvers, 4, &|_, solver| solver.run());
}

/// All passes are joined into the first one.
fn join_all(exchange: &Exchange, first: &mut Pass, mut solvers: Vec<Solver>)
    requires own { first.old.table ≡ exchange.now }
    requires free { first.old.view.turn ≡ Free }
    requires first { first.old.view.first ≡ true }
    requires others { All (λ s. (s.exchange.now ≡ exchange.now) × (s.pass.view.first ≡ false)) solvers.items }
    ensures own { first.new.table ≡ first.old.table }
    ensures free { first.new.view.turn ≡ Free }
    ensures first { first.new.view.first ≡ true }
    ensures splits { first.new.view.splits ≡ first.old.view.splits }
    ensures joins { first.new.view.joins ≡ first.old.view.joins + vec_len solvers.entry }
{
    'joins: while let Some(solver) = solvers.pop() {
        exchange.join(first, solver.pass);
    }
}

#[test]
fn three_solvers_run_side_by_side(rt: HostRuntime) -> Result<(), Fail> {
    let (exchange, mut first) = begin_on_a_contradiction(rt.alloc(), 3)?;
    let mut others = Vec::new(rt.alloc());
    let second = exchange.split(&mut first);
    let third = exchange.split(&mut first);
    others.push(Solver::new(&exchange, second, 1))?;
    others.push(Solver::new(&exchange, third, 2))?;
    let mut first = Solver::new(&exchange, first, 0);
    let slice = others.as_mut_slice();
    join_mut(
        &rt,
        &mut || run_all(&rt, &exchange, slice),
        &mut || first.run(),
    );
    assert!(rt; first.in_order && others.iter().all(|solver| solver.in_order));
    let entries = others.iter().fold(first.own_entries, |sum, solver| {
        sum.saturating_add(solver.own_entries)
    });
    let mut first = first.pass;
    join_all(&exchange, &mut first, others);
    let closed = exchange.close(first);
    let store = closed.store.ok_or("the store is at home")?;
    assert!(rt; entries > 0, "the first try wins");
    assert_eq!(rt; store.len(), entries);
    Ok(())
}
