ghost use Rattle.std.specs.Prelude.{◌≡◌, true, false, map, IfOk, IfSome, OnOk, IsTrue};
ghost use Rattle.sat_lits.specs.InLits.{is_distinct};
ghost use Rattle.trail.specs.Trail.{lits_of};
ghost use Rattle.propagate.specs.Units.{false_clause};
ghost use Rattle.propagate.specs.Reasons.{names, reasoned};
ghost use Rattle.propagate.specs.Watching.{HasTakenOver, taken_as, lits_below, clauses_below, is_right};
ghost use Rattle.analyze.specs.Falsity.{has_present};

use crate::{Analyzer, Learned, Tally};
use clause_store::ClauseStore;
use propagate::{Found, Watches};
use sat_lits::{ClauseId, InLit, Inner, List, NoMemory};
use std::test::Fail;
use trail::Trail;

const fn yes(var: u32) -> InLit
    ensures { result ≡ record { var = record { 0 = var }; negative = false } }
{
    InLit {
        var: Inner(var),
        negative: false,
    }
}

const fn no(var: u32) -> InLit
    ensures { result ≡ record { var = record { 0 = var }; negative = true } }
{
    InLit {
        var: Inner(var),
        negative: true,
    }
}

/// Decides a literal and propagates.
fn decide(
    store: &ClauseStore,
    watches: &mut Watches,
    trail: &mut Trail,
    lit: InLit,
) -> Result<Found, &'static str>
    requires taken { HasTakenOver watches.old.taken store.now.held }
    requires clauses { IsTrue (clauses_below watches.old.variables store.now.held) }
    requires variables { watches.old.variables ≡ trail.old.reserved }
    requires done { watches.old.done ≡ lits_of trail.old.steps }
    requires reasoned { reasoned store.now.held trail.old.steps ≡ true }
    ensures found { IfOk result (λ found. IsTrue (is_right store.now.held trail.new.steps found)) }
    ensures reasoned { OnOk result (reasoned store.now.held trail.new.steps ≡ true) }
    ensures variables { OnOk result (watches.new.variables ≡ trail.new.reserved) }
    ensures same { OnOk result (watches.new ≡ record watches.old { done = watches.new.done }) }
    ensures done { IfOk result (λ found. found ≡ Found.Quiet → watches.new.done ≡ lits_of trail.new.steps) }
{
    if lit.var.0 >= trail.reserved() {
        return Err("not reserved");
    }
    let None = trail.value(lit) else {
        return Err("set");
    };
    trail.decide(lit);
    Ok(watches.propagate(store, trail))
}

/// Decides literals in turn and propagates after each, up to a conflict.
fn decide_all(
    store: &ClauseStore,
    watches: &mut Watches,
    trail: &mut Trail,
    lits: &[InLit],
) -> Result<Option<ClauseId>, &'static str>
    requires taken { HasTakenOver watches.old.taken store.now.held }
    requires clauses { IsTrue (clauses_below watches.old.variables store.now.held) }
    requires variables { watches.old.variables ≡ trail.old.reserved }
    requires done { watches.old.done ≡ lits_of trail.old.steps }
    requires reasoned { reasoned store.now.held trail.old.steps ≡ true }
    ensures conflict { IfOk result (λ conflict. IfSome conflict (λ id. IsTrue (names store.now.held id (false_clause trail.new.steps)))) }
    ensures reasoned { OnOk result (reasoned store.now.held trail.new.steps ≡ true) }
    ensures same { OnOk result (watches.new ≡ record watches.old { done = watches.new.done }) }
{
    'decisions: for lit in lits {
        match decide(store, watches, trail, *lit)? {
            Found::Quiet => {}
            Found::Conflict(id) => return Ok(Some(id)),
        }
    }
    Ok(None)
}

/// Learns from a conflict that holds a literal of the present level.
fn learn(
    analyzer: &mut Analyzer,
    store: &ClauseStore,
    trail: &Trail,
    conflict: Option<ClauseId>,
    tally: &mut Tally,
) -> Result<Learned, Fail>
    requires reasoned { reasoned store.now.held trail.now.steps ≡ true }
    requires conflict { IfSome conflict (λ id. IsTrue (names store.now.held id (false_clause trail.now.steps))) }
{
    let Some(conflict) = conflict else {
        return Err("no conflict")?;
    };
    if trail.level() == 0 || !is_present(store, trail, conflict) {
        return Err("no literal of the present level")?;
    }
    Ok(analyzer.learn(store, trail, conflict, tally)?)
}

/// Whether a clause holds a literal of the present level.
fn is_present(store: &ClauseStore, trail: &Trail, id: ClauseId) -> bool
    requires { IsTrue (names store.now.held id (false_clause trail.now.steps)) }
    ensures { IsTrue result → IsTrue (names store.now.held id (has_present trail.now.steps)) }
{
    let level = trail.level();
    for lit in store.lits(id) {
        if trail.level_of(lit.var).unwrap_or(0) == level {
            return true;
        }
    }
    false
}

/// The final set of a literal that is false.
fn final_set(
    analyzer: &mut Analyzer,
    store: &ClauseStore,
    trail: &Trail,
    lit: InLit,
) -> Result<List<u32>, Fail>
    requires { reasoned store.now.held trail.now.steps ≡ true }
{
    let Some(false) = trail.value(lit) else {
        return Err("not false")?;
    };
    Ok(analyzer.final_set(store, trail, lit)?)
}

/// Adds a learned clause, and takes it over.
fn add_learned(
    store: &mut ClauseStore,
    watches: &mut Watches,
    lits: &[InLit],
) -> Result<ClauseId, NoMemory>
    requires taken { watches.old.taken ≡ map taken_as store.old.held }
    requires distinct { IsTrue (is_distinct lits.now) }
    requires below { IsTrue (lits_below watches.old.variables lits.now) }
{
    let _oldest = store.first();
    let id = store.add(lits, true)?;
    watches.attach(store, id)?;
    Ok(id)
}

#[test]
fn a_conflict_teaches_a_unit_clause(rt: HostRuntime) -> Result<(), Fail> {
    let mut store = ClauseStore::new(rt.alloc());
    store.add(&[yes(0), yes(1)], false)?;
    store.add(&[no(0), yes(1)], false)?;
    let mut watches = Watches::new(rt.alloc());
    watches.prepare(&store, 2)?;
    let mut trail = Trail::new(rt.alloc());
    trail.reserve(2)?;
    let conflict = decide_all(&store, &mut watches, &mut trail, &[no(1)])?;
    let mut tally = Tally::new();
    let mut analyzer = Analyzer::new(rt.alloc());
    let learned = learn(&mut analyzer, &store, &trail, conflict, &mut tally)?;
    assert_eq!(rt; learned.lits.as_slice(), [yes(1)].as_slice());
    assert_eq!(rt; learned.back, 0);
    assert_eq!(rt; tally.count(), 1);
    let levels = final_set(&mut analyzer, &store, &trail, yes(1))?;
    assert_eq!(rt; levels.as_slice(), [1].as_slice());

    trail.back_to(0);
    let id = add_learned(&mut store, &mut watches, &[yes(1)])?;
    assert_ne!(rt; Some(id), conflict);
    Ok(())
}

#[test]
fn the_first_uip_of_three_levels_is_found(rt: HostRuntime) -> Result<(), Fail> {
    let mut store = ClauseStore::new(rt.alloc());
    store.add(&[no(0), yes(1)], false)?;
    store.add(&[no(2), yes(3)], false)?;
    store.add(&[no(4), yes(5)], false)?;
    store.add(&[no(5), no(1), yes(6)], false)?;
    store.add(&[no(5), no(3), no(6)], false)?;
    let mut watches = Watches::new(rt.alloc());
    watches.prepare(&store, 7)?;
    let mut trail = Trail::new(rt.alloc());
    trail.reserve(7)?;
    let conflict = decide_all(&store, &mut watches, &mut trail, &[yes(0), yes(2), yes(4)])?;
    let mut tally = Tally::new();
    let mut analyzer = Analyzer::new(rt.alloc());
    let learned = learn(&mut analyzer, &store, &trail, conflict, &mut tally)?;
    let lits = learned.lits.as_slice();
    assert!(rt;
        lits == [no(5), no(1), no(3)].as_slice() || lits == [no(5), no(3), no(1)].as_slice()
    );
    assert_eq!(rt; learned.back, 2);
    Ok(())
}

#[test]
fn a_literal_that_a_chain_of_reasons_implies_is_left_out(rt: HostRuntime) -> Result<(), Fail> {
    let mut store = ClauseStore::new(rt.alloc());
    store.add(&[no(0), yes(4)], false)?;
    store.add(&[no(4), yes(1)], false)?;
    store.add(&[no(2), no(1), yes(3)], false)?;
    store.add(&[no(2), no(0), no(3)], false)?;
    let mut watches = Watches::new(rt.alloc());
    watches.prepare(&store, 5)?;
    let mut trail = Trail::new(rt.alloc());
    trail.reserve(5)?;
    let conflict = decide_all(&store, &mut watches, &mut trail, &[yes(0), yes(2)])?;
    let mut tally = Tally::new();
    let mut analyzer = Analyzer::new(rt.alloc());
    let learned = learn(&mut analyzer, &store, &trail, conflict, &mut tally)?;
    assert_eq!(rt; learned.lits.as_slice(), [no(2), no(0)].as_slice());
    assert_eq!(rt; learned.back, 1);
    assert_eq!(rt;
        analyzer.met().len(),
        4,
        "what is left out too, but not the way there"
    );
    Ok(())
}

#[test]
fn a_final_set_names_the_decisions_that_matter(rt: HostRuntime) -> Result<(), Fail> {
    let mut store = ClauseStore::new(rt.alloc());
    store.add(&[no(0), no(2), yes(3)], false)?;
    store.add(&[no(1), yes(4)], false)?;
    let mut watches = Watches::new(rt.alloc());
    watches.prepare(&store, 5)?;
    let mut trail = Trail::new(rt.alloc());
    trail.reserve(5)?;
    decide_all(&store, &mut watches, &mut trail, &[yes(0), yes(1), yes(2)])?;
    let mut analyzer = Analyzer::new(rt.alloc());
    let levels = final_set(&mut analyzer, &store, &trail, no(3))?;
    assert_eq!(rt; levels.as_slice(), [1, 3].as_slice());
    Ok(())
}

#[test]
fn a_tally_is_poured_into_another(rt: HostRuntime) {
    let mut first = Tally::new();
    let mut second = Tally::new();
    second.raise();
    second.raise();
    first.raise();
    first.pour(&mut second);
    assert_eq!(rt; first.count(), 3);
    assert_eq!(rt; second.count(), 0);
}
