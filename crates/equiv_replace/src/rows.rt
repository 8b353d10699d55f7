ghost use Rattle.std.specs.Prelude.{◌≡◌, ◌+◌, ◌-◌, ◌<◌, ◌≤◌, ◌^◌, ℕ, length, sum, take, slice_index};
ghost use Rattle.equiv_replace.specs.Rows.{degree, StartInside, AreEnds, AreFilled, AreRowsOf};

use crate::edges::Edge;

/// Counts the edges of each node.
fn count(counts: &mut [u32], edges: &[Edge])
    requires few { length edges.now < 2 ^ 32 }
    requires inside { StartInside (length counts.old) edges.now }
    requires zero { (a : ℕ) → slice_index counts.old a ≡ 0 }
    ensures each { (a : ℕ) → slice_index counts.new a ≡ degree a edges.now }
    ensures all { sum counts.new ≡ length edges.now }
{
    for edge in edges {
        counts[edge.from as usize] += 1;
    }
}

/// Makes of each number the sum of those up to it.
fn sum_up(numbers: &mut [u32])
    requires { sum numbers.old < 2 ^ 32 }
    ensures { (a : ℕ) → a < length numbers.old → slice_index numbers.new a ≡ sum (take (a + 1) numbers.old) }
{
    for at in 1..numbers.len() {
        numbers[at] += numbers[at - 1];
    }
}

/// Writes the heads of edges into the rows of their nodes, from the ends of the rows on, and makes
/// starts of the ends.
fn fill(starts: &mut [u32], heads: &mut [u32], edges: &[Edge])
    requires ends { AreEnds starts.old edges.now }
    requires room { length heads.old ≡ length edges.now }
    requires inside { StartInside (length starts.old) edges.now }
    ensures { AreFilled starts.old starts.new heads.new edges.now }
{
    let mut at = edges.len();
    'down: while 0 < at {
        at -= 1;
        let edge = edges[at];
        let start = starts[edge.from as usize] - 1;
        heads[start as usize] = edge.to;
        starts[edge.from as usize] = start;
    }
}

/// Writes the heads of edges into rows, one behind the other in the order of their nodes, and tells
/// where each row starts.
pub(crate) fn fill_rows(starts: &mut [u32], heads: &mut [u32], edges: &[Edge])
    requires some { 0 < length starts.old }
    requires nodes { length starts.old ≤ 2 ^ 32 + 1 }
    requires few { length edges.now < 2 ^ 32 }
    requires zero { (a : ℕ) → slice_index starts.old a ≡ 0 }
    requires room { length heads.old ≡ length edges.now }
    requires inside { StartInside (length starts.old - 1) edges.now }
    ensures { AreRowsOf starts.new heads.new edges.now }
{
    count(starts, edges);
    sum_up(starts);
    fill(starts, heads, edges);
}
