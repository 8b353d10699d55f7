ghost use Rattle.std.specs.Prelude.{◌≡◌, [], ◌∷◌, IfOk};
ghost use Rattle.sat_lits.specs.declared.formula.Item.TheVariants.{Clause};

use crate::{Event, Machine};
use sat_lits::{Item, List, Lit, NoMemory, Var, Verdict};
use std::alloc::Global;
use std::test::Fail;

const FIRST: Lit = Lit {
    var: Var(0),
    negative: false,
};

const NOT_FIRST: Lit = Lit {
    var: Var(0),
    negative: true,
};

/// The clause of one literal.
fn unit(alloc: Global, lit: Lit) -> Result<List<Lit>, NoMemory>
    ensures { IfOk result (λ clause. clause ≡ lit ∷ []) }
{
    List::from_slice(alloc, &[lit])
}

/// Two solvers took the item that the first of two variables is true, and solver 0 gave it.
fn first_given(alloc: Global) -> Result<Machine, Fail>
    ensures formula { IfOk result (λ machine. machine.formula
        ≡ record { vars = 2; items = Clause (FIRST ∷ []) ∷ [] }) }
    ensures log { IfOk result (λ machine. machine.log
        ≡ record { solver = 0; after = 0; clause = FIRST ∷ [] } ∷ []) }
    ensures taken { IfOk result (λ machine. machine.taken
        ≡ record { items = 1; places = [] } ∷ record { items = 1; places = [] } ∷ []) }
{
    let mut machine = Machine::new(alloc, 2, 2)?;
    let added = Event::Add(Item::Clause(unit(alloc, FIRST)?));
    machine.step(&added)?;
    machine.step(&Event::Absorb { solver: 0 })?;
    machine.step(&Event::Absorb { solver: 1 })?;
    let given = Event::Give {
        solver: 0,
        clause: unit(alloc, FIRST)?,
    };
    machine.step(&given)?;
    Ok(machine)
}

#[test]
fn a_clause_given_by_one_solver_is_taken_by_another(rt: HostRuntime) -> Result<(), Fail> {
    let mut machine = first_given(rt.alloc())?;
    machine.step(&Event::Take { solver: 1, at: 0 })?;
    assert_eq!(rt; machine.log().len(), 1);
    for entry in machine.log() {
        assert_eq!(rt; (entry.solver, entry.after), (0, 0));
        assert_eq!(rt; entry.clause.as_slice(), [FIRST].as_slice());
    }
    assert_eq!(rt; machine.formula().vars(), 2);
    Ok(())
}

#[test]
fn a_known_clause_changes_nothing(rt: HostRuntime) -> Result<(), Fail> {
    let mut machine = first_given(rt.alloc())?;
    let given = Event::Give {
        solver: 1,
        clause: unit(rt.alloc(), FIRST)?,
    };
    machine.step(&given)?;
    assert_eq!(rt; machine.log().len(), 1);
    Ok(())
}

#[test]
fn a_model_and_a_failed_set_change_nothing(rt: HostRuntime) -> Result<(), Fail> {
    let mut machine = first_given(rt.alloc())?;
    let model = Event::Say {
        solver: 0,
        assumptions: unit(rt.alloc(), FIRST)?,
        verdict: Verdict::Sat(List::from_slice(rt.alloc(), &[true, false])?),
    };
    machine.step(&model)?;
    let failed = Event::Say {
        solver: 1,
        assumptions: unit(rt.alloc(), NOT_FIRST)?,
        verdict: Verdict::Unsat(unit(rt.alloc(), NOT_FIRST)?),
    };
    machine.step(&failed)?;
    assert_eq!(rt; machine.log().len(), 1);
    assert_eq!(rt; machine.formula().items().len(), 1);
    Ok(())
}
