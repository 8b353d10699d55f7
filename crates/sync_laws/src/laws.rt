//! Laws on the definitions of this crate. Each is the contract of a function that does nothing.

ghost use Rattle.std.specs.Prelude.{◌≡◌, ◌++◌, ℕ, true, false, List, [], All, Contains};
ghost use Rattle.std.specs.declared.option.Option.{Option};
ghost use Rattle.std.specs.List.{list_all};
ghost use Rattle.sat_lits.specs.Meaning.{Problem};
ghost use Rattle.sat_lits.specs.Logs.{IsLegalLog};
ghost use Rattle.sat_lits.specs.declared.literal.Lit.{Lit};
ghost use Rattle.sat_lits.specs.declared.literal.Own.{Own};
ghost use Rattle.sat_lits.specs.declared.literal.OwnLit.{OwnLit};
ghost use Rattle.sat_lits.specs.declared.formula.Item.{Item};
ghost use Rattle.sat_lits.specs.declared.shared.Shared.{Shared};
ghost use Rattle.rebuild_stack.specs.Entries.{is_gone};
ghost use Rattle.rebuild_stack.specs.PutIn.{is_clean};
ghost use Rattle.rebuild_stack.specs.declared.entry.Entry.{Entry};
ghost use Rattle.share_store.specs.Log.{HasClause};
ghost use Rattle.state_laws.specs.declared.definition.Definition.{Definition};
ghost use Rattle.state_laws.specs.State.{State, no_state};
ghost use Rattle.state_laws.specs.Stands.{Stands, IsPlaced};
ghost use Rattle.state_laws.specs.Moves.{put_into, eliminated, restored, taking, imported, learning, with_learned, with_hard, extended, grown, refuted};
ghost use Rattle.state_laws.specs.Conditions.{Restorable, Takable};
ghost use Rattle.sync_laws.specs.Told.{IsTold};
ghost use Rattle.sync_laws.specs.Met.{IsMet, KeepsMet, are_subsumed};
ghost use Rattle.sync_laws.specs.Steps.{StandsIn, is_heard, IsInStep, IsTurn};

/// Changes one after another keep what is met.
pub fn changes_in_turn_keep_what_is_met()
    ensures none { (s : State) → KeepsMet s s }
    ensures two { (s t u : State) → KeepsMet s t → KeepsMet t u → KeepsMet s u }
{}

/// What is met stays so where an entry that fixes or replaces a variable is put in.
pub fn an_entry_put_in_keeps_what_is_met()
    ensures { (e : Entry) (s : State) → is_gone e ≡ false → KeepsMet s (put_into e s) }
{}

/// What is met stays so where a variable is eliminated.
pub fn an_elimination_keeps_what_is_met()
    ensures { (v : Own) (s : State) → list_all is_clean s.hard ≡ true → KeepsMet s (eliminated v s) }
{}

/// What is met stays so where a variable is restored, wherever its entry stands.
pub fn a_restoration_keeps_what_is_met()
    ensures { (at : ℕ) (v : Own) (clauses : List (List OwnLit)) (s : State)
        → Restorable s at v clauses → IsPlaced s → KeepsMet s (restored at v clauses s) }
{}

/// What is met stays so where an item is taken.
pub fn an_item_taken_keeps_what_is_met()
    ensures { (item : Item) (clauses : List (List OwnLit)) (s : State) → KeepsMet s (taking item clauses s) }
{}

/// What is met stays so where a clause is learned, and where the learned clauses are others, of which
/// none is marked that was not.
pub fn learned_clauses_keep_what_is_met()
    ensures one { (c : List OwnLit) (s : State) → KeepsMet s (learning c s) }
    ensures others { (clauses marked : List (List OwnLit)) (s : State)
        → All (Contains s.marked_learned) marked → KeepsMet s (with_learned clauses marked s) }
{}

/// What is met stays so with other hard clauses, where each old one has all literals of a new one,
/// as when a subsumed clause is dropped.
pub fn subsuming_clauses_keep_what_is_met()
    ensures { (clauses : List (List OwnLit)) (s : State)
        → are_subsumed s.hard clauses ≡ true → KeepsMet s (with_hard clauses s) }
{}

/// What is met stays so where own variables are made.
pub fn new_variables_keep_what_is_met()
    ensures own { (d : Option Definition) (clauses : List (List OwnLit)) (s : State) → KeepsMet s (extended d clauses s) }
    ensures outer { (more : ℕ) (s : State) → KeepsMet s (grown more s) }
{}

/// What is met stays so where a state is refuted.
pub fn a_refutation_keeps_what_is_met()
    ensures { (s : State) → KeepsMet s (refuted s) }
{}

/// What is met stays so where a shared entry is taken, whose own clause is met then.
pub fn an_entry_taken_is_met()
    ensures others { (e : Shared) (s : State) (c : List Lit) → IsMet s c → IsMet (imported e s) c }
    ensures own { (e : Shared) (s : State) → Takable s e.clause → IsMet (imported e s) e.clause }
{}

/// What was told to a log stays told where a change keeps what is met, and to a log with more clauses.
pub fn what_was_told_stays_told()
    ensures kept { (s t : State) (log : List Shared) → KeepsMet s t → IsTold s log → IsTold t log }
    ensures longer { (s : State) (log new : List Shared)
        → ((c : List Lit) → HasClause log c → HasClause new c) → IsTold s log → IsTold s new }
    ensures none { (log : List Shared) → IsTold no_state log }
{}

/// A standing state heard of each clause that it meets.
pub fn a_met_clause_is_heard()
    ensures { (s : State) (c : List Lit) → Stands s → IsMet s c → is_heard s c ≡ true }
{}

/// A state that took nothing is in step with every log.
pub fn a_new_state_is_in_step()
    ensures { (log : List Shared) → IsInStep no_state 0 [] log }
{}

/// A state stays in step when the log grows.
pub fn a_state_stays_in_step_with_a_longer_log()
    ensures { (s : State) (cursor : ℕ) (waiting : List ℕ) (log more : List Shared)
        → IsInStep s cursor waiting log → IsInStep s cursor waiting (log ++ more) }
{}

/// A state stays in step where a change keeps what is met.
pub fn a_state_stays_in_step_where_what_is_met_is_kept()
    ensures { (s t : State) (cursor : ℕ) (waiting : List ℕ) (log : List Shared)
        → KeepsMet s t → IsInStep s cursor waiting log → IsInStep t cursor waiting log }
{}

/// A turn on a legal log leaves a legal log.
pub fn a_turn_leaves_a_legal_log()
    ensures { (f : Problem) (solver : ℕ) (had log have now : List Shared)
        → IsLegalLog f log → All (StandsIn log) have → IsTurn f solver had log have now → IsLegalLog f now }
{}
