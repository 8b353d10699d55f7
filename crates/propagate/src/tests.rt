use crate::{Found, Watches};
use clause_store::ClauseStore;
use sat_lits::{InLit, Inner};
use std::test::Fail;
use trail::Trail;

const FIRST: InLit = InLit {
    var: Inner(0),
    negative: false,
};

const NOT_FIRST: InLit = InLit {
    var: Inner(0),
    negative: true,
};

const SECOND: InLit = InLit {
    var: Inner(1),
    negative: false,
};

const NOT_SECOND: InLit = InLit {
    var: Inner(1),
    negative: true,
};

const THIRD: InLit = InLit {
    var: Inner(2),
    negative: false,
};

const NOT_THIRD: InLit = InLit {
    var: Inner(2),
    negative: true,
};

const FOURTH: InLit = InLit {
    var: Inner(3),
    negative: false,
};

#[test]
fn a_false_clause_is_a_conflict(rt: HostRuntime) -> Result<(), Fail> {
    let mut store = ClauseStore::new(rt.alloc());
    let first = store.add(&[FIRST, SECOND], false)?;
    let second = store.add(&[NOT_FIRST, SECOND], false)?;
    let mut trail = Trail::new(rt.alloc());
    trail.reserve(2)?;
    let mut watches = Watches::new(rt.alloc());
    watches.prepare(&store, 2)?;
    trail.decide(NOT_SECOND);
    let found = watches.propagate(&store, &mut trail);
    assert!(rt; found == Found::Conflict(first) || found == Found::Conflict(second));
    assert_eq!(rt; trail.lits().len(), 2);
    Ok(())
}

#[test]
fn an_empty_clause_is_a_conflict(rt: HostRuntime) -> Result<(), Fail> {
    let mut store = ClauseStore::new(rt.alloc());
    let empty = store.add(&[], false)?;
    let mut trail = Trail::new(rt.alloc());
    let mut watches = Watches::new(rt.alloc());
    watches.prepare(&store, 0)?;
    assert_eq!(rt;
        watches.propagate(&store, &mut trail),
        Found::Conflict(empty)
    );
    Ok(())
}

#[test]
fn a_unit_clause_gives_its_literal(rt: HostRuntime) -> Result<(), Fail> {
    let mut store = ClauseStore::new(rt.alloc());
    let unit = store.add(&[FIRST], false)?;
    let mut trail = Trail::new(rt.alloc());
    trail.reserve(1)?;
    let mut watches = Watches::new(rt.alloc());
    watches.prepare(&store, 1)?;
    assert_eq!(rt; watches.propagate(&store, &mut trail), Found::Quiet);
    assert_eq!(rt; trail.value(FIRST), Some(true));
    assert_eq!(rt; trail.level_of(Inner(0)), Some(0));
    assert_eq!(rt; trail.reason_of(Inner(0)), Some(unit));
    Ok(())
}

#[test]
fn a_chain_of_implications_is_followed(rt: HostRuntime) -> Result<(), Fail> {
    let mut store = ClauseStore::new(rt.alloc());
    store.add(&[NOT_SECOND, THIRD], false)?;
    store.add(&[NOT_FIRST, SECOND], false)?;
    let mut trail = Trail::new(rt.alloc());
    trail.reserve(3)?;
    let mut watches = Watches::new(rt.alloc());
    watches.prepare(&store, 3)?;
    trail.decide(FIRST);
    assert_eq!(rt; watches.propagate(&store, &mut trail), Found::Quiet);
    assert_eq!(rt; trail.lits(), [FIRST, SECOND, THIRD].as_slice());
    assert_eq!(rt; trail.level(), 1);
    Ok(())
}

#[test]
fn a_satisfied_clause_gives_nothing(rt: HostRuntime) -> Result<(), Fail> {
    let mut store = ClauseStore::new(rt.alloc());
    store.add(&[FIRST, SECOND], false)?;
    let mut trail = Trail::new(rt.alloc());
    trail.reserve(2)?;
    let mut watches = Watches::new(rt.alloc());
    watches.prepare(&store, 2)?;
    trail.decide(FIRST);
    assert_eq!(rt; watches.propagate(&store, &mut trail), Found::Quiet);
    assert_eq!(rt; trail.lits(), [FIRST].as_slice());
    watches.rewind(0);
    Ok(())
}

#[test]
fn a_clause_that_is_attached_later_gives_its_literal(rt: HostRuntime) -> Result<(), Fail> {
    let mut store = ClauseStore::new(rt.alloc());
    let mut watches = Watches::new(rt.alloc());
    watches.prepare(&store, 2)?;
    let mut first = Trail::new(rt.alloc());
    first.reserve(2)?;
    first.decide(NOT_FIRST);
    assert_eq!(rt; watches.propagate(&store, &mut first), Found::Quiet);
    watches.rewind(0);

    let added = store.add(&[FIRST, SECOND], false)?;
    watches.attach(&store, added)?;
    let mut second = Trail::new(rt.alloc());
    second.reserve(2)?;
    second.decide(NOT_FIRST);
    assert_eq!(rt; watches.propagate(&store, &mut second), Found::Quiet);
    assert_eq!(rt; second.lits(), [NOT_FIRST, SECOND].as_slice());
    Ok(())
}

#[test]
fn a_clause_of_two_literals_gives_either(rt: HostRuntime) -> Result<(), Fail> {
    let mut store = ClauseStore::new(rt.alloc());
    store.add(&[FIRST, SECOND], false)?;
    let mut watches = Watches::new(rt.alloc());
    watches.prepare(&store, 2)?;
    let mut trail = Trail::new(rt.alloc());
    trail.reserve(2)?;
    trail.decide(NOT_FIRST);
    assert_eq!(rt; watches.propagate(&store, &mut trail), Found::Quiet);
    assert_eq!(rt; trail.lits(), [NOT_FIRST, SECOND].as_slice());

    watches.rewind(0);
    let mut other = Trail::new(rt.alloc());
    other.reserve(2)?;
    other.decide(NOT_SECOND);
    assert_eq!(rt; watches.propagate(&store, &mut other), Found::Quiet);
    assert_eq!(rt; other.lits(), [NOT_SECOND, FIRST].as_slice());
    Ok(())
}

#[test]
fn what_was_taken_back_inside_a_level_is_given_again(rt: HostRuntime) -> Result<(), Fail> {
    let mut store = ClauseStore::new(rt.alloc());
    store.add(&[NOT_FIRST, SECOND], false)?;
    store.add(&[NOT_SECOND, NOT_THIRD, FOURTH], false)?;
    let mut watches = Watches::new(rt.alloc());
    watches.prepare(&store, 4)?;
    let mut before = Trail::new(rt.alloc());
    before.reserve(4)?;
    before.decide(FIRST);
    assert_eq!(rt; watches.propagate(&store, &mut before), Found::Quiet);
    assert_eq!(rt; before.lits(), [FIRST, SECOND].as_slice());

    // Of the two literals of level 1 the first alone stays, and a level 2 comes.
    watches.rewind(1);
    let mut after = Trail::new(rt.alloc());
    after.reserve(4)?;
    after.decide(FIRST);
    after.decide(THIRD);
    assert_eq!(rt; watches.propagate(&store, &mut after), Found::Quiet);
    assert_eq!(rt; after.lits(), [FIRST, THIRD, SECOND, FOURTH].as_slice());
    Ok(())
}

#[test]
fn a_dropped_clause_gives_nothing(rt: HostRuntime) -> Result<(), Fail> {
    let mut store = ClauseStore::new(rt.alloc());
    let dropped = store.add(&[NOT_FIRST, SECOND], false)?;
    let mut watches = Watches::new(rt.alloc());
    watches.prepare(&store, 2)?;
    store.drop_clause(dropped);
    let mut trail = Trail::new(rt.alloc());
    trail.reserve(2)?;
    trail.decide(FIRST);
    assert_eq!(rt; watches.propagate(&store, &mut trail), Found::Quiet);
    assert_eq!(rt; trail.lits(), [FIRST].as_slice());
    Ok(())
}
