ghost use Rattle.std.specs.Prelude.{◌≡◌, [], IfOk};
ghost use Rattle.sat_lits.specs.Logs.{IsLegalLog};
ghost use Rattle.state_laws.specs.State.{problem_of};
ghost use Rattle.state_laws.specs.Kernel.{state_of};
ghost use Rattle.data_sync.specs.Syncs.{InStepWith};

use crate::{Report, SyncBook};
use private_state::PrivateState;
use sat_lits::{Item, List, Lit, NoMemory, Own, OwnLit, Shared, Var};
use share_store::Store;
use std::alloc::Global;
use std::test::Fail;

const FIRST: Lit = Lit {
    var: Var(0),
    negative: false,
};

const OWN_FIRST: OwnLit = OwnLit {
    var: Own(0),
    negative: false,
};

/// A state of two variables, the first of which is fixed. Nothing of it is marked.
fn fixed_state(alloc: Global) -> Result<PrivateState, NoMemory>
    ensures entries { IfOk result (λ state. state.entries ≡ []) }
    ensures learned { IfOk result (λ state. (state_of state).marked_learned ≡ []) }
    ensures stack { IfOk result (λ state. (state_of state).marked_stack ≡ []) }
{
    let mut state = PrivateState::new(alloc);
    state.grow(2)?;
    let item = Item::Clause(List::from_slice(alloc, &[FIRST])?);
    state.take_input(&item)?;
    state.fix(OWN_FIRST)?;
    Ok(state)
}

fn sync_twice(
    book: &mut SyncBook,
    state: &mut PrivateState,
    store: &mut Store,
) -> Result<[Report; 2], NoMemory>
    requires legal { IsLegalLog (problem_of (state_of state.old)) store.old }
    requires step { InStepWith (state_of state.old) book.old store.old }
{
    let first = book.sync(state, store, 2)?;
    let second = book.sync(state, store, 2)?;
    Ok([first, second])
}

/// Whether this is the entry of the first literal that solver 2 gave with no entry before it.
fn is_first(entry: &Shared) -> bool {
    entry.solver == 2 && entry.after == 0 && entry.clause.as_slice() == [FIRST].as_slice()
}

#[test]
fn a_fixed_literal_is_offered_once(rt: HostRuntime) -> Result<(), Fail> {
    let mut book = SyncBook::new(rt.alloc());
    let mut state = fixed_state(rt.alloc())?;
    let mut store = Store::new(rt.alloc());
    let reports = sync_twice(&mut book, &mut state, &mut store)?;

    let gave = [1, 0].map(|gave| Report {
        took: 0,
        gave,
        waits: 0,
    });
    assert_eq!(rt; reports, gave);
    assert_eq!(rt; store.from(0).len(), 1);
    assert!(rt; store.from(0).iter().all(is_first));
    assert_eq!(rt; book.cursor(), 1);
    assert!(rt; book.waiting().is_empty());
    Ok(())
}
