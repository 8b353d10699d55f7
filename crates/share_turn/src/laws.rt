//! What the rule of the exchange says.
ghost use Rattle.std.specs.Prelude.{Option};
ghost use Rattle.atomic_table.specs.Table.{State};
ghost use Rattle.share_turn.specs.contracts.table.TurnsTableRuleOptionHeldViewAsked.TheImpl as table_rule;
ghost use Rattle.share_turn.specs.declared.held.Held.{Held};
ghost use Rattle.share_turn.specs.declared.view.View.{View};
ghost use Rattle.share_turn.specs.declared.table.Asked.{Asked};
ghost use Rattle.share_turn.specs.Views.{question};
ghost use Rattle.share_turn.specs.Rule.{KeepsTurns};

/// The rule that the table of an exchange is under after every step, whatever its passes and the
/// order of their steps, says each sentence of `KeepsTurns`.
pub fn rule_means()
    ensures { (asked : Asked) (s : State (Option Held) View) → (table_rule.ghosts).holds asked s
        → KeepsTurns (question asked.formula.value asked.assumptions.value asked.solvers) s }
{}
