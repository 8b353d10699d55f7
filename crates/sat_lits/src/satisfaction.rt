ghost use Rattle.std.specs.Prelude.{◌≡◌};
ghost use Rattle.std.specs.List.{list_all};
ghost use Rattle.sat_lits.specs.Meaning.{value_of, is_true, is_odd, satisfies_clause, satisfies};

use crate::formula::Item;
use crate::literal::{Lit, Var};

fn value_of(values: &[bool], var: Var) -> bool
    ensures { result ≡ value_of values.now var }
{
    values.get(var.0 as usize).copied().unwrap_or(false)
}

fn is_true(values: &[bool], lit: Lit) -> bool
    ensures { result ≡ is_true values.now lit }
{
    let value = value_of(values, lit.var);
    if lit.negative { !value } else { value }
}

fn satisfies_clause(values: &[bool], lits: &[Lit]) -> bool
    ensures { result ≡ satisfies_clause values.now lits.now }
{
    lits.iter().any(|lit| is_true(values, *lit))
}

fn is_odd(values: &[bool], vars: &[Var]) -> bool
    ensures { result ≡ is_odd values.now vars.now }
{
    vars.iter().filter(|var| value_of(values, **var)).count() % 2 == 1
}

/// Whether the assignment satisfies the item.
pub fn satisfies(values: &[bool], item: &Item) -> bool
    ensures { result ≡ satisfies values.now item.now }
{
    match item {
        Item::Clause(lits) => satisfies_clause(values, lits.as_slice()),
        Item::Parity { vars, rhs } => is_odd(values, vars.as_slice()) == *rhs,
    }
}

/// Whether the assignment satisfies every item.
pub fn satisfies_all(values: &[bool], items: &[Item]) -> bool
    ensures { result ≡ list_all (satisfies values.now) items.now }
{
    items.iter().all(|item| satisfies(values, item))
}
