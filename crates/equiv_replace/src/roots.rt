ghost use Rattle.std.specs.Prelude.{◌≡◌, ◌<◌, ◌≤◌, ◌^◌, ℕ, IfOk, length, map, slice_index};
ghost use Rattle.equiv_replace.specs.Graphs.{IsGraph, AreLeast, AreRoots};

use crate::components::components;
use crate::graph::Graph;
use std::alloc::{AllocError, Global};

/// The least node of each component, by the component's number.
fn least_nodes(alloc: Global, numbers: &[u32]) -> Result<Vec<u32>, AllocError>
    requires few { length numbers.now ≤ 2 ^ 32 }
    requires inside { (a : ℕ) → a < length numbers.now → slice_index numbers.now a < length numbers.now }
    ensures least { IfOk result (λ least. AreLeast numbers.now least.items) }
    ensures long { IfOk result (λ least. length least.items ≡ length numbers.now) }
{
    let mut least = Vec::new(alloc);
    least.resize(numbers.len(), 0)?;
    let mut node = numbers.len();
    'down: while 0 < node {
        node -= 1;
        least[numbers[node] as usize] = node as u32;
    }
    Ok(least)
}

/// For each node that of its number.
fn read_all(alloc: Global, numbers: &[u32], least: &[u32]) -> Result<Vec<u32>, AllocError>
    requires { (a : ℕ) → a < length numbers.now → slice_index numbers.now a < length least.now }
    ensures { IfOk result (λ roots. roots.items ≡ map (λ n. slice_index least.now n) numbers.now) }
{
    let mut roots = Vec::new(alloc);
    for number in numbers {
        roots.push(least[*number as usize])?;
    }
    Ok(roots)
}

/// For each node the least one on a cycle with it.
pub(crate) fn roots(alloc: Global, graph: &Graph) -> Result<Vec<u32>, AllocError>
    requires { IsGraph graph.now }
    ensures { IfOk result (λ roots. AreRoots graph.now roots.items) }
{
    let numbers = components(alloc, graph)?;
    let least = least_nodes(alloc, &numbers)?;
    let roots = read_all(alloc, &numbers, &least)?;
    Ok(roots)
}
