ghost use Rattle.std.specs.Prelude.{◌≡◌, length, true};
ghost use Rattle.sat_lits.specs.Truth.{clause_value, clauses_value};
ghost use Rattle.rebuild_stack.specs.Values.{values_of, own_value};
ghost use Rattle.rebuild_stack.specs.Entries.{is_within, undo};

use crate::block::Block;
use crate::entry::Entry;
use sat_lits::{List, Own, OwnLit};

fn value_of(values: &[bool], var: Own) -> bool
    ensures { result ≡ values_of values.now var.0 }
{
    values.get(var.0 as usize).copied().unwrap_or(false)
}

fn is_true(values: &[bool], lit: OwnLit) -> bool
    ensures { result ≡ own_value (values_of values.now) lit }
{
    let value = value_of(values, lit.var);
    if lit.negative { !value } else { value }
}

fn satisfies_clause(values: &[bool], lits: &[OwnLit]) -> bool
    ensures { result ≡ clause_value (own_value (values_of values.now)) lits.now }
{
    lits.iter().any(|lit| is_true(values, *lit))
}

fn satisfies_all(values: &[bool], clauses: &[List<OwnLit>]) -> bool
    ensures { result ≡ clauses_value (own_value (values_of values.now)) clauses.now }
{
    clauses
        .iter()
        .all(|clause| satisfies_clause(values, clause.as_slice()))
}

/// Gives the variable of an entry the value that the entry says.
pub(crate) fn undo(entry: &Entry, values: &mut [bool])
    requires { is_within (length values.old) entry.now ≡ true }
    ensures { values_of values.new ≡ undo entry.now (values_of values.old) }
{
    match entry {
        Entry::Fix(lit) => values[lit.var.0 as usize] = !lit.negative,
        Entry::Equal { var, lit } => values[var.0 as usize] = is_true(values, *lit),
        Entry::Gone { var, clauses } => {
            if !satisfies_all(values, clauses.clauses()) {
                values[var.0 as usize] = !values[var.0 as usize];
            }
        }
    }
}
