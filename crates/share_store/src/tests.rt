use crate::{Offer, Store};
use sat_lits::{Lit, Var};
use std::test::Fail;

const FIRST: Lit = Lit {
    var: Var(0),
    negative: false,
};

const NOT_SECOND: Lit = Lit {
    var: Var(1),
    negative: true,
};

#[test]
fn a_clause_offered_twice_stands_once(rt: HostRuntime) -> Result<(), Fail> {
    let mut store = Store::new(rt.alloc());
    assert_eq!(rt; store.offer(0, 0, &[FIRST])?, Offer::Added);
    assert_eq!(rt; store.len(), 1);
    assert_eq!(rt; store.offer(1, 1, &[FIRST])?, Offer::Known);
    assert_eq!(rt; store.len(), 1);
    Ok(())
}

#[test]
fn each_new_clause_is_the_last_entry(rt: HostRuntime) -> Result<(), Fail> {
    let mut store = Store::new(rt.alloc());
    for (solver, clause, offer, len) in [
        (0, [NOT_SECOND].as_slice(), Offer::Added, 1),
        (1, [FIRST, NOT_SECOND].as_slice(), Offer::Added, 2),
        (2, [NOT_SECOND].as_slice(), Offer::Known, 2),
        (0, [FIRST].as_slice(), Offer::Added, 3),
        (1, [FIRST, NOT_SECOND].as_slice(), Offer::Known, 3),
    ] {
        assert_eq!(rt; store.offer(solver, 0, clause)?, offer, "of {clause:?}");
        assert_eq!(rt; store.len(), len, "after {clause:?}");
    }
    assert_eq!(rt; store.len(), 3);
    let mut entries = store.from(1).iter();
    for (solver, clause) in [(1, [FIRST, NOT_SECOND].as_slice()), (0, [FIRST].as_slice())] {
        let entry = entries.next().ok_or("an entry less")?;
        assert_eq!(rt; entry.solver, solver);
        assert_eq!(rt; entry.after, 0);
        assert_eq!(rt; entry.clause.as_slice(), clause);
    }
    assert!(rt; entries.next().is_none());
    Ok(())
}
