//! Laws on books that are in step with a log. Each is the contract of a function that does nothing.

ghost use Rattle.std.specs.Prelude.{◌++◌, List, []};
ghost use Rattle.sat_lits.specs.declared.shared.Shared.{Shared};
ghost use Rattle.state_laws.specs.State.{State, no_state};
ghost use Rattle.sync_laws.specs.Met.{KeepsMet};
ghost use Rattle.data_sync.specs.Books.{Book, no_book};
ghost use Rattle.data_sync.specs.Syncs.{InStepWith};

/// A new book with a state that took nothing is in step with every log.
pub fn a_new_book_is_in_step()
    ensures { (log : List Shared) → InStepWith no_state no_book log }
{}

/// A book stays in step when the log grows.
pub fn a_book_stays_in_step_with_a_longer_log()
    ensures { (s : State) (book : Book) (log more : List Shared)
        → InStepWith s book log → InStepWith s book (log ++ more) }
{}

/// A book stays in step where a change of the state keeps what is met.
pub fn a_book_stays_in_step_where_what_is_met_is_kept()
    ensures { (s t : State) (book : Book) (log : List Shared)
        → KeepsMet s t → InStepWith s book log → InStepWith t book log }
{}
