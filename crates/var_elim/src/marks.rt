ghost use Rattle.std.specs.Prelude.{◌≡◌, ◌==◌, ◌&&◌, length, nat_eq, nat_le, count_by, IfOk};
ghost use Rattle.std.specs.HashSet.{contains};
ghost use Rattle.var_elim.specs.Marks.{TellsLits, code};

use sat_lits::{InLit, NoMemory};
use std::alloc::Global;
use std::collections::HashSet;

/// The number of a literal.
fn code(lit: InLit) -> u64
    ensures { result ≡ code lit }
{
    2 * u64::from(lit.var.0) + if lit.negative { 1 } else { 0 }
}

/// The numbers of the literals of a clause.
pub(crate) fn marks_of(alloc: Global, lits: &[InLit]) -> Result<HashSet<u64>, NoMemory>
    ensures { IfOk result (λ marks. TellsLits marks lits.now) }
{
    let mut marks = HashSet::new(alloc);
    'each: for lit in lits {
        marks.insert(code(*lit))?;
    }
    Ok(marks)
}

/// How many literals are marked.
fn count_marked(marks: &HashSet<u64>, lits: &[InLit]) -> usize
    ensures { result ≡ count_by (λ l. contains nat_eq marks.now (code l)) lits.now }
{
    let mut count = 0;
    'each: for lit in lits {
        if marks.contains(&code(*lit)) {
            count += 1;
        }
    }
    count
}

/// Whether this many literals are marked. It looks at them only where there are as many.
pub(crate) fn has_marked(marks: &HashSet<u64>, len: usize, lits: &[InLit]) -> bool
    ensures { result ≡ (nat_le len (length lits.now) && count_by (λ l. contains nat_eq marks.now (code l)) lits.now == len) }
{
    len <= lits.len() && count_marked(marks, lits) == len
}
