//! Laws on the definitions of this crate. Each is the contract of a function that does nothing.

ghost use Rattle.std.specs.Prelude.{◌≡◌, ◌<◌, ℕ, Bool, true, not, List, Some, None, length};
ghost use Rattle.std.specs.declared.option.Option.{Option};
ghost use Rattle.std.specs.List.{list_all};
ghost use Rattle.sat_lits.specs.Truth.{signed, clauses_value};
ghost use Rattle.sat_lits.specs.declared.literal.Lit.{Lit};
ghost use Rattle.sat_lits.specs.declared.literal.Own.{Own};
ghost use Rattle.sat_lits.specs.declared.literal.OwnLit.{OwnLit};
ghost use Rattle.sat_lits.specs.declared.formula.Item.{Item};
ghost use Rattle.sat_lits.specs.declared.shared.Shared.{Shared};
ghost use Rattle.rebuild_stack.specs.Values.{values_of, own_value, each_lit};
ghost use Rattle.rebuild_stack.specs.Entries.{ordered};
ghost use Rattle.rebuild_stack.specs.Roots.{turned, root};
ghost use Rattle.rebuild_stack.specs.PutIn.{is_clean};
ghost use Rattle.rebuild_stack.specs.declared.entry.Entry.{Entry};
ghost use Rattle.rebuild_stack.specs.declared.entry.Entry.TheVariants.{Fix, Equal, Gone};
ghost use Rattle.rebuild_stack.specs.declared.entry.Root.TheVariants.{Known, Last, Lost};
ghost use Rattle.state_laws.specs.declared.definition.Definition.{Definition};
ghost use Rattle.state_laws.specs.State.{State, no_state, is_active, outer_count, outer_part, are_as_defined, are_over_earlier, widen};
ghost use Rattle.state_laws.specs.Stands.{Stands};
ghost use Rattle.state_laws.specs.Moves.{put_into, eliminated, restored, taken, imported, taking, extended, grown, learning, with_hard, with_learned, refuted};
ghost use Rattle.state_laws.specs.Conditions.{Satisfies, Pushable, EntryFollows, Restorable, Takable, StandsFor, Defines, Learnable, IsContradicted};
ghost use Rattle.state_laws.specs.Theorems.{WidenedConfirm, RebuiltIsModel, RefutedHasNoModel};
ghost use Rattle.state_laws.specs.RootTableLaws.{entry_of, depth, AreOnce};

/// A widened assignment gives the outer variables their values, and each private variable the
/// value of its definition.
pub fn assignments_are_widened_by_the_definitions()
    ensures outer { (values : List Bool) (definitions : List (Option Definition))
        → length values ≡ outer_count definitions
        → outer_part definitions (values_of (widen values definitions)) ≡ values }
    ensures defined { (values : List Bool) (definitions : List (Option Definition))
        → are_over_earlier 0 definitions ≡ true
        → are_as_defined (values_of (widen values definitions)) 0 definitions ≡ true }
{}

/// Each outer assignment that is a model of the items taken, and satisfies the shared entries
/// taken, makes all true that a standing state holds, when it is widened to the private variables.
pub fn widened_assignments_confirm_the_state()
    ensures { WidenedConfirm }
{}

/// Where a standing state is okay, own values that satisfy its hard clauses are rebuilt to a model
/// of the items taken.
pub fn rebuilt_values_are_a_model()
    ensures { RebuiltIsModel }
{}

/// Where a standing state is not okay, and its shared entries follow from the items taken, these
/// have no model.
pub fn a_refuted_state_has_no_model()
    ensures { RefutedHasNoModel }
{}

/// A state that took nothing stands.
pub fn a_new_state_stands()
    ensures { Stands no_state }
{}

/// A state stands after an active variable is fixed or replaced as follows from its clauses.
pub fn a_state_stands_after_an_entry_is_put_into_it()
    ensures { (e : Entry) (s : State)
        → Pushable s e → EntryFollows s e → Stands s → Stands (put_into e s) }
{}

/// A state stands after an active variable is eliminated.
pub fn a_state_stands_after_an_elimination()
    ensures { (v : Own) (s : State) → is_active s v.0 ≡ true → Stands s → Stands (eliminated v s) }
{}

/// A state stands after an eliminated variable is restored, wherever its entry stands.
pub fn a_state_stands_after_a_restoration()
    ensures { (at : ℕ) (v : Own) (clauses : List (List OwnLit)) (s : State)
        → Restorable s at v clauses → Stands s → Stands (restored at v clauses s) }
{}

/// A state stands after a clause is taken as an item.
pub fn a_state_stands_after_a_clause_is_taken()
    ensures { (c : List Lit) (s : State) → Takable s c → Stands s → Stands (taken c s) }
{}

/// A state stands after a shared entry is taken, whether its clause is right or not.
pub fn a_state_stands_after_an_entry_is_imported()
    ensures { (e : Shared) (s : State) → Takable s e.clause → Stands s → Stands (imported e s) }
{}

/// A state stands after an item is taken with clauses that stand for it.
pub fn a_state_stands_after_an_item_is_taken()
    ensures { (item : Item) (clauses : List (List OwnLit)) (s : State)
        → StandsFor s item clauses → Stands s → Stands (taking item clauses s) }
{}

/// A state stands after an own variable is made, with clauses that hold where it is as defined.
pub fn a_state_stands_after_a_variable_is_defined()
    ensures { (d : Option Definition) (clauses : List (List OwnLit)) (s : State)
        → Defines s d clauses → Stands s → Stands (extended d clauses s) }
{}

/// A state stands after outer variables are made.
pub fn a_state_stands_after_it_grows()
    ensures { (more : ℕ) (s : State) → Stands s → Stands (grown more s) }
{}

/// A state stands after a clause is learned that follows from its clauses.
pub fn a_state_stands_after_a_clause_is_learned()
    ensures { (c : List OwnLit) (s : State) → Learnable s c → Stands s → Stands (learning c s) }
{}

/// A state stands with other learned clauses that follow, as after some are dropped.
pub fn a_state_stands_with_other_learned_clauses()
    ensures { (clauses marked : List (List OwnLit)) (s : State)
        → ((w : ℕ → Bool) → Satisfies s w → clauses_value (own_value w) clauses ≡ true)
        → each_lit (λ l. is_active s l.var.0) clauses ≡ true → list_all is_clean clauses ≡ true
        → Stands s → Stands (with_learned clauses marked s) }
{}

/// A state stands with other hard clauses that say the same, as after an implied one is dropped.
pub fn a_state_stands_with_other_hard_clauses()
    ensures { (clauses : List (List OwnLit)) (s : State)
        → ((w : ℕ → Bool) → clauses_value (own_value w) clauses ≡ clauses_value (own_value w) s.hard)
        → each_lit (λ l. is_active s l.var.0) clauses ≡ true → list_all is_clean clauses ≡ true
        → Stands s → Stands (with_hard clauses s) }
{}

/// A state stands after it is refuted, where its clauses have no solution.
pub fn a_state_stands_after_it_is_refuted()
    ensures { (s : State) → IsContradicted s → Stands s → Stands (refuted s) }
{}

/// A literal whose variable has no entry is left as it is.
pub fn a_literal_without_an_entry_is_left()
    ensures { (s : List Entry) (l : OwnLit) → entry_of l.var.0 s ≡ None → root s l ≡ Last l }
{}

/// A literal whose variable is fixed is known.
pub fn a_fixed_literal_is_known()
    ensures { (s : List Entry) (l k : OwnLit)
        → entry_of l.var.0 s ≡ Some (Fix k)
        → root s l ≡ Known (signed l.negative (not k.negative)) }
{}

/// A literal whose variable was taken out is lost.
pub fn an_eliminated_literal_is_lost()
    ensures { (s : List Entry) (l : OwnLit) (v : Own) (clauses : List (List OwnLit))
        → entry_of l.var.0 s ≡ Some (Gone v clauses) → root s l ≡ Lost v }
{}

/// A literal whose variable is replaced comes to what the other literal comes to, whose entry, if
/// it has one, is newer.
pub fn a_replaced_literal_goes_on_as_the_other()
    ensures comes_to { (active : ℕ → Bool) (s : List Entry) (l : OwnLit) (v : Own) (k : OwnLit)
        → AreOnce active s → ordered active s ≡ true → entry_of l.var.0 s ≡ Some (Equal v k)
        → root s l ≡ root s (turned l.negative k) }
    ensures is_newer { (active : ℕ → Bool) (s : List Entry) (n : ℕ) (v : Own) (k : OwnLit)
        → AreOnce active s → ordered active s ≡ true → entry_of n s ≡ Some (Equal v k)
        → depth k.var.0 s < depth n s }
{}
