ghost use Rattle.std.specs.Prelude.{◌≡◌, IfOk};
ghost use Rattle.sat_lits.specs.Formulas.{names_known};
ghost use Rattle.sat_lits.specs.declared.formula.Item.TheVariants.{Clause};
ghost use Rattle.one_solver.specs.InStep.{EntriesFollow};
ghost use Rattle.one_solver.specs.Steps.{IsUnderWay};

use crate::{OneSolver, StepAnswer};
use analyze::Tally;
use sat_lits::{Formula, Limits, List, Lit, NoMemory, Var, Verdict};
use sat_ports::Silent;
use std::alloc::Global;
use std::process::Abort;
use std::test::Fail;

fn literal(number: i32) -> Lit {
    Lit {
        var: Var(number.unsigned_abs().wrapping_sub(1)),
        negative: number < 0,
    }
}

/// A formula of these clauses, in DIMACS form.
fn formula_of(alloc: Global, vars: u32, clauses: &[&[i32]]) -> Result<Formula, Fail> {
    let mut formula = Formula::new(alloc, Limits::standard());
    formula.grow(vars)?;
    for clause in clauses {
        let mut lits = List::new(alloc);
        for number in *clause {
            lits.push(literal(*number))?;
        }
        formula.push_clause(lits.as_slice())?;
    }
    Ok(formula)
}

/// A formula of parities over variables that are counted from 1, each with the right side true.
fn parities_of(alloc: Global, vars: u32, parities: &[&[u32]]) -> Result<Formula, Fail> {
    let mut formula = Formula::new(alloc, Limits::standard());
    formula.grow(vars)?;
    for parity in parities {
        let mut numbers = List::new(alloc);
        for number in *parity {
            numbers.push(Var(number.wrapping_sub(1)))?;
        }
        formula.push_parity(numbers.as_slice(), true)?;
    }
    Ok(formula)
}

/// A solver that took a formula and began a call.
fn start(rt: &impl Abort, alloc: Global, formula: &Formula) -> Result<OneSolver, NoMemory>
    ensures under_way { IfOk result (λ solver. IsUnderWay solver) }
    ensures follow { IfOk result (λ solver. EntriesFollow solver) }
    ensures conflicts { IfOk result (λ solver. solver.conflicts ≡ 0) }
{
    start_under(rt, alloc, formula, &[])
}

fn are_known(vars: u32, lits: &[Lit]) -> bool
    ensures { result ≡ names_known vars (Clause lits.now) }
{
    lits.iter().map(|lit| lit.var.0).all(|var| var < vars)
}

/// The same under assumptions.
fn start_under(
    rt: &impl Abort,
    alloc: Global,
    formula: &Formula,
    assumptions: &[Lit],
) -> Result<OneSolver, NoMemory>
    ensures under_way { IfOk result (λ solver. IsUnderWay solver) }
    ensures follow { IfOk result (λ solver. EntriesFollow solver) }
    ensures conflicts { IfOk result (λ solver. solver.conflicts ≡ 0) }
{
    assert!(rt; are_known(formula.vars(), assumptions));
    assert!(rt; assumptions.len() <= 100);
    let mut solver = OneSolver::new(alloc, 0);
    solver.absorb(formula)?;
    solver.begin_call(assumptions)?;
    Ok(solver)
}

/// The clauses that put each of so many pigeons into one of so many holes, and no two into one.
fn pigeons(alloc: Global, pigeons: u32, holes: u32) -> Result<Formula, Fail> {
    let sits = |pigeon: u32, hole: u32, negative: bool| Lit {
        var: Var(pigeon.wrapping_mul(holes).wrapping_add(hole)),
        negative,
    };
    let mut formula = Formula::new(alloc, Limits::standard());
    formula.grow(pigeons.wrapping_mul(holes))?;
    for pigeon in 0..pigeons {
        let mut lits = List::new(alloc);
        for hole in 0..holes {
            lits.push(sits(pigeon, hole, false))?;
        }
        formula.push_clause(lits.as_slice())?;
        for hole in 0..holes {
            for other in 0..pigeon {
                formula.push_clause(&[sits(other, hole, true), sits(pigeon, hole, true)])?;
            }
        }
    }
    Ok(formula)
}

fn push_both(formula: &mut Formula, first: u32, second: u32) -> Result<(), Fail> {
    let lit = |var: u32, negative: bool| Lit {
        var: Var(var),
        negative,
    };
    formula.push_clause(&[lit(first, false), lit(second, false)])?;
    formula.push_clause(&[lit(first, true), lit(second, true)])?;
    Ok(())
}

/// Clauses of so many variables, of which each is the negation of the next one, and the last one
/// the negation of the first.
fn ring(alloc: Global, vars: u32) -> Result<Formula, Fail> {
    let mut formula = Formula::new(alloc, Limits::standard());
    formula.grow(vars)?;
    for var in 1..vars {
        push_both(&mut formula, var - 1, var)?;
    }
    push_both(&mut formula, vars.wrapping_sub(1), 0)?;
    Ok(formula)
}

/// One interval of a call that is under way, without a limit.
fn step(solver: &mut OneSolver) -> StepAnswer
    requires under_way { IsUnderWay solver.old }
    requires follow { EntriesFollow solver.old }
{
    solver.step(None, &mut Silent::new())
}

/// One interval of a call that made no conflict and may make none.
fn spent_step(solver: &mut OneSolver) -> StepAnswer
    requires under_way { IsUnderWay solver.old }
    requires follow { EntriesFollow solver.old }
    requires none { solver.old.conflicts ≡ 0 }
{
    solver.step(Some(0), &mut Silent::new())
}

/// An interval that makes its full number of conflicts.
#[tactic(auto, using(crate::specs::InStep::follow_same))]
fn whole_interval(rt: &impl Abort, solver: &mut OneSolver)
    requires under_way { IsUnderWay solver.old }
    requires follow { EntriesFollow solver.old }
    ensures under_way { IsUnderWay solver.new }
    ensures follow { EntriesFollow solver.new }
{
    match solver.step(None, &mut Silent::new()) {
        StepAnswer::IntervalOver => {}
        _ => assert!(rt; false, "the interval did not end"),
    }
}

#[test]
fn a_satisfiable_formula_has_its_model(rt: HostRuntime) -> Result<(), Fail> {
    let formula = formula_of(rt.alloc(), 2, &[&[1, 2], &[-1, 2], &[1, -2]])?;
    let mut solver = start(&rt, rt.alloc(), &formula)?;
    assert_eq!(rt; (solver.number(), solver.taken()), (0, 3));
    let StepAnswer::Verdict(Verdict::Sat(values)) = step(&mut solver) else {
        return Err("no model")?;
    };
    assert_eq!(rt; values.as_slice(), [true, true].as_slice());
    Ok(())
}

/// The failed assumptions of a formula, in DIMACS form.
fn failed_of(
    rt: &impl Abort,
    alloc: Global,
    formula: &Formula,
    assumptions: &[Lit],
) -> Result<List<Lit>, Fail> {
    let mut solver = start_under(rt, alloc, formula, assumptions)?;
    match step(&mut solver) {
        StepAnswer::Verdict(Verdict::Unsat(failed)) => Ok(failed),
        _ => Err("a model")?,
    }
}

#[test]
fn an_assumption_fails(rt: HostRuntime) -> Result<(), Fail> {
    let formula = formula_of(rt.alloc(), 2, &[&[1, 2], &[-1, 2], &[1, -2]])?;
    let failed = failed_of(&rt, rt.alloc(), &formula, &[literal(-1)])?;
    assert_eq!(rt; failed.as_slice(), [literal(-1)].as_slice());
    Ok(())
}

#[test]
fn assumptions_that_are_fixed_false_or_opposite_fail(rt: HostRuntime) -> Result<(), Fail> {
    let formula = formula_of(rt.alloc(), 3, &[&[-1]])?;
    let fixed = failed_of(
        &rt,
        rt.alloc(),
        &formula,
        &[literal(2), literal(1), literal(1)],
    )?;
    assert_eq!(rt; fixed.as_slice(), [literal(1)].as_slice());
    let assumptions = [literal(-1), literal(3), literal(2), literal(-3)];
    let opposite = failed_of(&rt, rt.alloc(), &formula, &assumptions)?;
    assert_eq!(rt; opposite.as_slice(), [literal(3), literal(-3)].as_slice());
    Ok(())
}

#[test]
fn parities_that_contradict_each_other_have_no_model(rt: HostRuntime) -> Result<(), Fail> {
    let short = parities_of(rt.alloc(), 3, &[&[1, 2], &[2, 3], &[1, 3]])?;
    let failed = failed_of(&rt, rt.alloc(), &short, &[])?;
    assert!(rt; failed.as_slice().is_empty());
    let cut = parities_of(
        rt.alloc(),
        8,
        &[
            &[1, 2, 3, 4, 5, 6, 7, 8],
            &[1, 2],
            &[3, 4],
            &[5, 6],
            &[7, 8],
        ],
    )?;
    let failed = failed_of(&rt, rt.alloc(), &cut, &[])?;
    assert!(rt; failed.as_slice().is_empty());
    Ok(())
}

#[test]
fn no_conflict_is_left_at_the_limit(rt: HostRuntime) -> Result<(), Fail> {
    let formula = formula_of(rt.alloc(), 2, &[&[1, 2], &[-1, 2]])?;
    let mut solver = start(&rt, rt.alloc(), &formula)?;
    let answer = spent_step(&mut solver);
    assert!(rt; matches!(answer, StepAnswer::Spent { count: 0 }));
    Ok(())
}

#[test]
fn each_interval_is_longer_than_the_last(rt: HostRuntime) -> Result<(), Fail> {
    let formula = pigeons(rt.alloc(), 7, 6)?;
    let mut solver = start(&rt, rt.alloc(), &formula)?;
    whole_interval(&rt, &mut solver);
    assert_eq!(rt; solver.conflicts(), 100);
    whole_interval(&rt, &mut solver);
    assert_eq!(rt; solver.conflicts(), 220);
    let mut tally = Tally::new();
    solver.pour(&mut tally);
    assert_eq!(rt; tally.count(), 220);
    assert_eq!(rt; solver.conflicts(), 0);
    Ok(())
}

#[test]
fn opposite_literals_of_an_even_ring_fail_together(rt: HostRuntime) -> Result<(), Fail> {
    let formula = ring(rt.alloc(), 1000)?;
    let failed = failed_of(&rt, rt.alloc(), &formula, &[literal(1), literal(2)])?;
    assert_eq!(rt; failed.as_slice(), [literal(1), literal(2)].as_slice());
    Ok(())
}

#[test]
fn an_odd_ring_has_no_model(rt: HostRuntime) -> Result<(), Fail> {
    let formula = ring(rt.alloc(), 999)?;
    let failed = failed_of(&rt, rt.alloc(), &formula, &[])?;
    assert!(rt; failed.as_slice().is_empty());
    Ok(())
}
