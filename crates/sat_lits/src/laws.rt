//! Laws on the definitions of this crate. Each is the contract of a function that does nothing.

ghost use Rattle.std.specs.Prelude.{◌≡◌, ◌≢◌, ℕ, ◌<◌, ◌^◌, Bool, List, ◌∷◌, AllPairs, length, map, sum};
ghost use Rattle.std.specs.List.{range_with_len};
ghost use Rattle.sat_lits.specs.Truth.{signed};
ghost use Rattle.sat_lits.specs.Meaning.{value_of, is_odd};
ghost use Rattle.sat_lits.specs.Formulas.{Bounded, IsWithinLimits};
ghost use Rattle.sat_lits.specs.Logs.{EachFollows, StaysLegal, FrontIsLegal, PushIsLegal};
ghost use Rattle.sat_lits.specs.Conflicts.{AreOddVars, odd_vars, odd_of, cuts, own_count, interval_len, intervals_len, enough, IntervalsCount, LastIsLong};
ghost use Rattle.sat_lits.specs.declared.formula.Item.TheVariants.{Parity};

use crate::literal::Var;

/// Each clause of a log that is legal for a formula follows from the formula alone.
pub fn each_shared_clause_follows()
    ensures { EachFollows }
{}

/// A log that is legal for a formula stays legal when the formula gets more items and variables.
pub fn legal_logs_stay_legal()
    ensures { StaysLegal }
{}

/// A front of a legal log is legal.
pub fn fronts_of_legal_logs_are_legal()
    ensures { FrontIsLegal }
{}

/// A legal log stays legal with one entry more that may stand at its end and whose clause is new.
pub fn legal_logs_grow_by_legal_entries()
    ensures { PushIsLegal }
{}

/// The variables that stand an odd number of times are exactly these, each once.
pub fn odd_variables_stand_an_odd_number_of_times()
    ensures { (vars : List Var) → AreOddVars vars (odd_vars vars) }
{}

/// A parity has the value that the variables have alone that stand in it an odd number of times.
pub fn odd_variables_make_the_parity()
    ensures { (values : List Bool) (vars : List Var) → odd_of values (odd_vars vars) ≡ is_odd values vars }
{}

/// A parity of ten different variables has three cuts.
pub fn ten_variables_have_three_cuts()
    ensures { (vars : List Var) (rhs : Bool) → length vars ≡ 10 → AllPairs (λ v w. v.0 ≢ w.0) vars → cuts (Parity vars rhs) ≡ 3 }
{}

/// The number of conflicts of the first intervals together is the sum of their lengths.
pub fn intervals_add_up()
    ensures { (count : ℕ) → intervals_len count ≡ sum (map interval_len (range_with_len 0 count)) }
{}

/// An interval counts exactly where fewer than 2^20 stand before it and each of those is too short.
pub fn intervals_count_to_the_first_long_one()
    ensures { IntervalsCount }
{}

/// The interval after which no more count is long enough, or it is the last of all.
pub fn the_last_interval_is_long()
    ensures { LastIsLong }
{}

/// With two variables 109 conflicts are enough.
pub fn two_variables_need_109_conflicts()
    ensures { enough 2 ≡ 109 }
{}

/// A solver of a formula within limits comes to have fewer than 2^25 variables.
pub fn few_variables_for_one_solver()
    ensures { (f : Bounded) → IsWithinLimits f → own_count f.problem < 2 ^ 25 }
{}

/// One variable more turns the parity where it is true.
pub fn a_variable_turns_the_parity()
    ensures { (values : List Bool) (v : Var) (vars : List Var) → is_odd values (v ∷ vars) ≡ signed (value_of values v) (is_odd values vars) }
{}

/// A variable that stands twice changes nothing.
pub fn repeats_cancel()
    ensures { (values : List Bool) (v : Var) (vars : List Var) → is_odd values (v ∷ v ∷ vars) ≡ is_odd values vars }
{}
