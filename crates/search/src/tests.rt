ghost use Rattle.std.specs.Prelude.{◌≡◌, ◌≤◌, ◌^◌, nat_lt, true, length, IsTrue};
ghost use Rattle.std.specs.List.{list_all};
ghost use Rattle.sat_lits.specs.Truth.{clauses_value};
ghost use Rattle.clause_store.specs.Store.{hard_of};
ghost use Rattle.state_laws.specs.Conditions.{Takable};
ghost use Rattle.state_laws.specs.Kernel.{state_of};
ghost use Rattle.state_laws.specs.Held.{in_value};
ghost use Rattle.search.specs.InUse.{in_use, lits_among};

use crate::{IntervalAnswer, Search};
use analyze::Tally;
use private_state::PrivateState;
use sat_lits::{InLit, Inner, Item, List, Lit, NoMemory, Var};
use sat_ports::{Alarm, Silent};
use std::alloc::Global;
use std::process::Abort;
use std::test::Fail;

/// An alarm that is raised at every poll.
#[derive(Drop)]
struct Loud {
    raises: u64,
}

impl Alarm for Loud {
    ghost raises = { λ alarm. alarm.raises };

    ghost kept = { λ _ _. Unit {0} };

    ghost kept_by_none = { λ _. tt };

    ghost kept_by_both = { λ _ _ _ _ _. tt };

    fn poll(&mut self) -> bool {
        self.raises = self.raises.saturating_add(1);
        true
    }
}

fn literal(number: i32) -> Lit {
    Lit {
        var: Var(number.unsigned_abs().wrapping_sub(1)),
        negative: number < 0,
    }
}

fn inner_literal(number: i32) -> InLit {
    InLit {
        var: Inner(number.unsigned_abs().wrapping_sub(1)),
        negative: number < 0,
    }
}

/// A state with this many outer variables.
fn new_state(alloc: Global, vars: u32) -> Result<PrivateState, NoMemory>
    requires { vars ≤ 2 ^ 31 }
{
    let mut state = PrivateState::new(alloc);
    state.grow(vars)?;
    Ok(state)
}

fn are_below(lits: &[Lit], vars: u32) -> bool
    ensures { result ≡ list_all (λ l. nat_lt l.var.0 vars) lits.now }
{
    lits.iter().all(|lit| lit.var.0 < vars)
}

/// Whether a clause is over outer variables that are there, and none was fixed, replaced or
/// eliminated.
fn can_take(state: &PrivateState, lits: &[Lit]) -> bool
    ensures { IsTrue result → Takable (state_of state.now) lits.now }
{
    let vars = state.maps().outer_count();
    if !state.stack().entries().is_empty() {
        return false;
    }
    are_below(lits, vars)
}

fn take(
    rt: &impl Abort,
    alloc: Global,
    state: &mut PrivateState,
    lits: &[Lit],
) -> Result<(), NoMemory> {
    assert!(rt; can_take(state, lits));
    let item = Item::Clause(List::from_slice(alloc, lits)?);
    state.take_input(&item)
}

/// A state of these clauses, in DIMACS form.
fn formula_of(
    rt: &impl Abort,
    alloc: Global,
    vars: u32,
    clauses: &[&[i32]],
) -> Result<PrivateState, NoMemory>
    requires { vars ≤ 2 ^ 31 }
{
    let mut state = new_state(alloc, vars)?;
    for clause in clauses {
        let mut lits = List::new(alloc);
        for number in *clause {
            lits.push(literal(*number))?;
        }
        take(rt, alloc, &mut state, lits.as_slice())?;
    }
    Ok(state)
}

/// The clauses that put each of so many pigeons into one of so many holes, and no two into one.
fn pigeons(
    rt: &impl Abort,
    alloc: Global,
    pigeons: u32,
    holes: u32,
) -> Result<PrivateState, NoMemory> {
    let vars = pigeons.wrapping_mul(holes);
    assert!(rt; vars <= 1000);
    let mut state = new_state(alloc, vars)?;
    let sits = |pigeon: u32, hole: u32, negative: bool| Lit {
        var: Var(pigeon.wrapping_mul(holes).wrapping_add(hole)),
        negative,
    };
    for pigeon in 0..pigeons {
        let mut lits = List::new(alloc);
        for hole in 0..holes {
            lits.push(sits(pigeon, hole, false))?;
        }
        take(rt, alloc, &mut state, lits.as_slice())?;
        for hole in 0..holes {
            for other in 0..pigeon {
                take(
                    rt,
                    alloc,
                    &mut state,
                    &[sits(other, hole, true), sits(pigeon, hole, true)],
                )?;
            }
        }
    }
    Ok(state)
}

/// One interval with these assumptions, in DIMACS form, and this number of conflicts left.
fn interval_of<S: Alarm>(
    rt: &impl Abort,
    alloc: Global,
    search: &mut Search,
    state: &mut PrivateState,
    assumptions: &[i32],
    left: Option<u64>,
    stop: &mut S,
    tally: &mut Tally,
) -> Result<IntervalAnswer, NoMemory> {
    let mut lits = List::new(alloc);
    for number in assumptions {
        lits.push(inner_literal(*number))?;
    }
    assert!(rt; lits.as_slice().len() < 100);
    assert!(rt; are_active(state, lits.as_slice()));
    Ok(search.run_interval(state, lits.as_slice(), 0, left, stop, tally))
}

/// Whether the variables of literals are active.
fn are_active(state: &PrivateState, lits: &[InLit]) -> bool
    ensures { IsTrue result → lits_among (in_use state.now.maps) lits.now ≡ true }
{
    for lit in lits {
        if state.maps().at_inner(lit.var).is_none() {
            return false;
        }
    }
    true
}

/// An interval of a search that is made anew, in which nothing asks for a stop.
fn answer_of(
    rt: &impl Abort,
    alloc: Global,
    state: &mut PrivateState,
    assumptions: &[i32],
    left: Option<u64>,
) -> Result<(IntervalAnswer, u64), NoMemory> {
    let mut search = Search::new(alloc, false);
    let mut tally = Tally::new();
    let answer = interval_of(
        rt,
        alloc,
        &mut search,
        state,
        assumptions,
        left,
        &mut Silent::new(),
        &mut tally,
    )?;
    assert!(rt; tally.count() == search.conflicts());
    Ok((answer, search.conflicts()))
}

/// The outer model that inner values are rebuilt to.
fn outer_model(
    rt: &impl Abort,
    state: &PrivateState,
    values: &[bool],
) -> Result<List<bool>, NoMemory>
    requires long { length values.now ≡ length state.now.maps.owners }
    requires satisfied { IsTrue (clauses_value (in_value values.now) (hard_of state.now.store.held)) }
{
    assert!(rt; state.okay());
    state.outer_model(values)
}

/// The outer model that one interval of a search that is made anew finds, if it finds one.
fn model_of(
    rt: &impl Abort,
    alloc: Global,
    state: &mut PrivateState,
) -> Result<Option<List<bool>>, NoMemory> {
    let mut search = Search::new(alloc, false);
    let mut tally = Tally::new();
    let answer = search.run_interval(state, &[], 0, None, &mut Silent::new(), &mut tally);
    assert!(rt; tally.count() == search.conflicts());
    let IntervalAnswer::Model(values) = answer else {
        return Ok(None);
    };
    Ok(Some(outer_model(rt, state, values.as_slice())?))
}

#[test]
fn a_satisfiable_formula_has_its_model(rt: HostRuntime) -> Result<(), Fail> {
    let mut state = formula_of(&rt, rt.alloc(), 2, &[&[1, 2], &[-1, 2], &[1, -2]])?;
    let model = model_of(&rt, rt.alloc(), &mut state)?.ok_or("no model")?;
    assert_eq!(rt; model.as_slice(), [true, true].as_slice());
    Ok(())
}

#[test]
fn too_many_pigeons_fail_by_themselves(rt: HostRuntime) -> Result<(), Fail> {
    let mut state = pigeons(&rt, rt.alloc(), 4, 3)?;
    let (answer, conflicts) = answer_of(&rt, rt.alloc(), &mut state, &[], None)?;
    let IntervalAnswer::Failed(positions) = answer else {
        return Err("not failed")?;
    };
    assert_eq!(rt; positions.as_slice(), [].as_slice());
    assert!(rt; 0 < conflicts && conflicts < 100);
    Ok(())
}

#[test]
fn assumptions_that_contradict_fail_by_their_positions(rt: HostRuntime) -> Result<(), Fail> {
    let clauses: [&[i32]; 2] = [&[-2, -4, 5], &[-4, -5]];
    let rows: [(&[i32], &[u32]); 4] = [
        (&[1, 2, 3, 4], &[1, 3]),
        (&[1, -1], &[0, 1]),
        (&[4, 2], &[0, 1]),
        (&[3, 1, 1, 5, 4], &[3, 4]),
    ];
    for (assumptions, expected) in rows {
        let mut state = formula_of(&rt, rt.alloc(), 5, &clauses)?;
        let (answer, _) = answer_of(&rt, rt.alloc(), &mut state, assumptions, None)?;
        let IntervalAnswer::Failed(positions) = answer else {
            return Err("not failed")?;
        };
        assert_eq!(rt; positions.as_slice(), expected, "of {assumptions:?}");
    }
    Ok(())
}

#[test]
fn a_model_makes_the_assumptions_true(rt: HostRuntime) -> Result<(), Fail> {
    let mut state = formula_of(&rt, rt.alloc(), 3, &[&[1, 2], &[-1, 3]])?;
    let (answer, _) = answer_of(&rt, rt.alloc(), &mut state, &[-2, -2], None)?;
    let IntervalAnswer::Model(values) = answer else {
        return Err("no model")?;
    };
    assert_eq!(rt; values.as_slice(), [true, false, true].as_slice());
    Ok(())
}

#[test]
fn nothing_left_is_spent_at_once(rt: HostRuntime) -> Result<(), Fail> {
    let mut state = formula_of(&rt, rt.alloc(), 1, &[&[1]])?;
    let (answer, conflicts) = answer_of(&rt, rt.alloc(), &mut state, &[], Some(0))?;
    assert!(rt; matches!(answer, IntervalAnswer::Spent));
    assert_eq!(rt; conflicts, 0);
    Ok(())
}

#[test]
fn an_interval_ends_at_its_number_of_conflicts(rt: HostRuntime) -> Result<(), Fail> {
    for (left, number) in [
        (None, 100),
        (Some(101), 100),
        (Some(100), 100),
        (Some(3), 3),
    ] {
        let mut state = pigeons(&rt, rt.alloc(), 7, 6)?;
        let (answer, conflicts) = answer_of(&rt, rt.alloc(), &mut state, &[], left)?;
        assert_eq!(rt; conflicts, number, "at {left:?}");
        let is_spent = matches!(answer, IntervalAnswer::Spent);
        assert_eq!(rt; is_spent, left == Some(number), "at {left:?}");
        assert_eq!(rt;
            matches!(answer, IntervalAnswer::IntervalOver),
            !is_spent,
            "at {left:?}"
        );
    }
    Ok(())
}

#[test]
fn an_interval_stops_where_it_is_asked(rt: HostRuntime) -> Result<(), Fail> {
    let mut state = formula_of(&rt, rt.alloc(), 2, &[&[1, 2]])?;
    let mut search = Search::new(rt.alloc(), true);
    let mut tally = Tally::new();
    let mut stop = Loud { raises: 0 };
    let answer = interval_of(
        &rt,
        rt.alloc(),
        &mut search,
        &mut state,
        &[],
        None,
        &mut stop,
        &mut tally,
    )?;
    assert!(rt; matches!(answer, IntervalAnswer::Asked));
    assert_eq!(rt; (stop.raises, tally.count(), search.conflicts()), (1, 0, 0));
    Ok(())
}

#[test]
fn a_search_goes_on_from_one_interval_to_the_next(rt: HostRuntime) -> Result<(), Fail> {
    let mut state = pigeons(&rt, rt.alloc(), 5, 4)?;
    let mut search = Search::new(rt.alloc(), false);
    let mut tally = Tally::new();
    for _ in 0..100 {
        let stop = &mut Silent::new();
        let answer = interval_of(
            &rt,
            rt.alloc(),
            &mut search,
            &mut state,
            &[],
            Some(10),
            stop,
            &mut tally,
        )?;
        if let IntervalAnswer::Failed(positions) = answer {
            assert_eq!(rt; positions.as_slice(), [].as_slice());
            return Ok(());
        }
        assert!(rt; matches!(answer, IntervalAnswer::Spent));
    }
    Err("not decided")?
}
