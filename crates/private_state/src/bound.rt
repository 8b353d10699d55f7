ghost use Rattle.std.specs.Prelude.{◌≡◌, count_by, length, nat_le};
ghost use Rattle.std.specs.List.{list_all};
ghost use Rattle.state_laws.specs.Resolution.{has_sign};
ghost use Rattle.indexed_store.specs.Bounds.{are_few};

use crate::resolve::has_sign;
use rebuild_stack::Block;
use removed_vars::Fresh;
use sat_lits::Own;

/// How many clauses of one sign an elimination may take out.
const MOST_CLAUSES: usize = 16;

/// How long a resolvent may be.
const MOST_LITS: usize = 32;

/// How many clauses hold the literal of a variable that is negative, or positive.
fn count_sign(block: &Block, var: Own, negative: bool) -> usize
    ensures { result ≡ count_by (has_sign var.0 negative) block.now }
{
    let mut count = 0;
    'each: for at in 0..block.len() {
        if has_sign(block.get(at), var, negative) {
            count += 1;
        }
    }
    count
}

/// Whether few enough clauses hold a variable with each sign.
pub(crate) fn are_few(block: &Block, var: Own) -> bool
    ensures { result ≡ are_few var.0 block.now }
{
    count_sign(block, var, false) <= MOST_CLAUSES && count_sign(block, var, true) <= MOST_CLAUSES
}

/// Whether no clause is too long.
pub(crate) fn are_short(fresh: &[Fresh]) -> bool
    ensures { result ≡ list_all (λ clause. nat_le (length clause.lits) 32) fresh.now }
{
    'each: for clause in fresh {
        if clause.lits.as_slice().len() > MOST_LITS {
            return false;
        }
    }
    true
}
