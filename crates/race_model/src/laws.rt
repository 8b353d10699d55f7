//! Laws on the machine. Each is the contract of a function that does nothing.

ghost use Rattle.race_model.specs.Events.{EveryRunIsRight, EachGivenFollows};
ghost use Rattle.race_model.specs.Events.{EachNamesAllBefore, EarlyModelsMayFail};
ghost use Rattle.race_model.specs.Turns.{TurnsAreRuns, TurnsKeepLogsLegal};

/// For every list of events, each allowed in its state, from a formula without items, an empty log
/// and solvers that have taken nothing: the log is legal for the formula after each event, and
/// each verdict said is right for the formula of its moment.
pub fn every_run_is_right()
    ensures { EveryRunIsRight }
{}

/// After each such list of events, each clause of the log follows from the formula alone, the one
/// of that moment.
pub fn each_clause_given_follows()
    ensures { EachGivenFollows }
{}

/// After each such list of events, each entry of the log names all entries before it as those that
/// its clause follows from beside the formula.
pub fn each_entry_names_all_before()
    ensures { EachNamesAllBefore }
{}

/// A model may be said only where all items were taken: of some run, a model of the items that a
/// solver took is no model of the formula.
pub fn early_models_may_fail()
    ensures { EarlyModelsMayFail }
{}

/// A turn is a run of Take events and then Give events, after which the machine's log agrees with
/// the log of the turn in solvers and clauses.
pub fn turns_are_runs()
    ensures { TurnsAreRuns }
{}

/// A legal log is legal after a turn of a solver that had entries of it alone.
pub fn turns_keep_logs_legal()
    ensures { TurnsKeepLogsLegal }
{}
