ghost use Rattle.std.specs.Prelude.{◌≡◌, ◌+◌, count_by, IfOk, OnOk, IsTrue, IsFalse};
ghost use Rattle.std.specs.List.{list_all};
ghost use Rattle.sat_lits.specs.Formulas.{names_known};
ghost use Rattle.sat_lits.specs.declared.formula.Item.TheVariants.{Clause};
ghost use Rattle.state_laws.specs.State.{outer_count};
ghost use Rattle.state_laws.specs.Kernel.{state_of, TookSame};
ghost use Rattle.var_elim.specs.Eliminating.{NoneCanGo};
ghost use Rattle.sync_laws.specs.Met.{KeepsMet};
ghost use Rattle.one_solver.specs.Basic.{IsBasic};
ghost use Rattle.one_solver.specs.Roots.{is_free, last_vars};
ghost use Rattle.one_solver.specs.Settled.{IsDone, HasFewer};
ghost use Rattle.one_solver.specs.Units.{HasNoUnits, FixesUnits, StayFixed};

use crate::free::{free_lits, last_vars};
use crate::units::fix_units;
use equiv_replace::replace_equivalent;
use private_state::PrivateState;
use sat_lits::{Lit, NoMemory};
use std::alloc::Global;
use var_elim::{drop_subsumed, eliminate_some};

/// Brings back the variables to which assumptions come, fixes the literals of the clauses of one
/// literal, drops subsumed clauses once, and then replaces equivalent variables, eliminates others
/// and fixes literals, in turn, until there is none of these. The variables that are left of the
/// assumptions stay, and so do those that the solver keeps. After want of memory some of it may be
/// done.
pub fn settle(
    alloc: Global,
    state: &mut PrivateState,
    assumptions: &[Lit],
    solver: u32,
) -> Result<(), NoMemory>
    requires basic { IsBasic state.old }
    requires known { IsTrue (names_known (outer_count state.old.definitions) (Clause assumptions.now)) }
    ensures basic { IsBasic state.new }
    ensures same { TookSame state.old state.new }
    ensures met { KeepsMet (state_of state.old) (state_of state.new) }
    ensures free { OnOk result (IsTrue (list_all (is_free state.new) assumptions.now)) }
    ensures fixed { OnOk result (IsTrue state.new.okay → FixesUnits state.old state.new) }
    ensures left { OnOk result (IsTrue state.new.okay → HasNoUnits state.new) }
    ensures done { OnOk result (IsTrue state.new.okay → IsDone state.new assumptions.now solver) }
{
    free_lits(alloc, state, assumptions)?;
    fix_units(state)?;
    drop_subsumed(alloc, state)?;
    repeat_rounds(alloc, state, assumptions, solver)
}

/// Makes rounds until one finds nothing. After want of memory some may be made.
fn repeat_rounds(
    alloc: Global,
    state: &mut PrivateState,
    assumptions: &[Lit],
    solver: u32,
) -> Result<(), NoMemory>
    requires basic { IsBasic state.old }
    requires known { IsTrue (names_known (outer_count state.old.definitions) (Clause assumptions.now)) }
    requires free { IsTrue (list_all (is_free state.old) assumptions.now) }
    requires left { IsTrue state.old.okay → HasNoUnits state.old }
    ensures basic { IsBasic state.new }
    ensures same { TookSame state.old state.new }
    ensures met { KeepsMet (state_of state.old) (state_of state.new) }
    ensures free { OnOk result (IsTrue (list_all (is_free state.new) assumptions.now)) }
    ensures stays { StayFixed state.old state.new }
    ensures left { OnOk result (IsTrue state.new.okay → HasNoUnits state.new) }
    ensures done { OnOk result (IsTrue state.new.okay → IsDone state.new assumptions.now solver) }
{
    'rounds: while state.okay() {
        if !make_round(alloc, state, assumptions, solver)? {
            return Ok(());
        }
    }
    Ok(())
}

/// Replaces equivalent variables, eliminates others, and fixes literals where it found any of these,
/// and tells whether it did. After want of memory some of it may be done.
fn make_round(
    alloc: Global,
    state: &mut PrivateState,
    assumptions: &[Lit],
    solver: u32,
) -> Result<bool, NoMemory>
    requires basic { IsBasic state.old }
    requires known { IsTrue (names_known (outer_count state.old.definitions) (Clause assumptions.now)) }
    requires free { IsTrue (list_all (is_free state.old) assumptions.now) }
    requires left { IsTrue state.old.okay → HasNoUnits state.old }
    ensures basic { IsBasic state.new }
    ensures same { TookSame state.old state.new }
    ensures met { KeepsMet (state_of state.old) (state_of state.new) }
    ensures free { OnOk result (IsTrue (list_all (is_free state.new) assumptions.now)) }
    ensures stays { StayFixed state.old state.new }
    ensures left { OnOk result (IsTrue state.new.okay → HasNoUnits state.new) }
    ensures fewer { IfOk result (λ found. IsTrue found → HasFewer state.old state.new) }
    ensures done { IfOk result (λ found. IsFalse found → IsTrue state.new.okay → IsDone state.new assumptions.now solver) }
{
    let replaced = replace_equivalent(alloc, state)?;
    let eliminated = eliminate_others(alloc, state, assumptions, solver)?;
    if replaced == 0 && eliminated == 0 {
        return Ok(false);
    }
    fix_units(state)?;
    Ok(true)
}

/// Eliminates variables, but none that is left of an assumption, and tells how many. After want of
/// memory some may be eliminated.
fn eliminate_others(
    alloc: Global,
    state: &mut PrivateState,
    assumptions: &[Lit],
    solver: u32,
) -> Result<u64, NoMemory>
    requires basic { IsBasic state.old }
    requires known { IsTrue (names_known (outer_count state.old.definitions) (Clause assumptions.now)) }
    requires free { IsTrue (list_all (is_free state.old) assumptions.now) }
    ensures basic { IsBasic state.new }
    ensures same { TookSame state.old state.new }
    ensures met { KeepsMet (state_of state.old) (state_of state.new) }
    ensures free { IsTrue (list_all (is_free state.new) assumptions.now) }
    ensures stays { StayFixed state.old state.new }
    ensures fewer { IfOk result (λ n. count_by (λ b. b) (state_of state.new).active + n ≡ count_by (λ b. b) (state_of state.old).active) }
    ensures none { IfOk result (λ n. n ≡ 0 → state_of state.new ≡ state_of state.old) }
    ensures bound { IfOk result (λ n. n ≡ 0 → NoneCanGo state.new (last_vars state.new assumptions.now) solver) }
{
    let frozen = last_vars(alloc, state, assumptions)?;
    eliminate_some(alloc, state, &frozen, solver)
}
