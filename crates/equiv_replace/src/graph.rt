ghost use Rattle.std.specs.Prelude.{◌≡◌, ◌<◌, ◌≤◌, ◌^◌, ℕ, IfOk, length, replicate, slice_range};
ghost use Rattle.equiv_replace.specs.Graphs.{heads_of};
ghost use Rattle.equiv_replace.specs.Rows.{heads_from, StartInside};

use crate::edges::Edge;
use crate::rows::fill_rows;
use sat_lits::NoMemory;
use std::alloc::{AllocError, Global};
use std::marker::Model;

/// A directed graph over numbered nodes, in compressed rows: the heads of a node's edges stand
/// together, and the row of a node ends where that of the next one starts.
#[derive(Drop)]
pub(crate) struct Graph {
    starts: Vec<u32>,
    heads: Vec<u32>,
}

impl Model for Graph {
    ghost use Rattle.std.specs.Prelude.{List, ℕ};

    ghost Value = { List (List ℕ) };

    ghost use Rattle.equiv_replace.specs.RowsKept.{graph_of, IsKept};

    ghost view = { graph_of };

    ghost invariant = { IsKept };
}

impl Graph {
    /// The graph of edges over so many nodes. The only error is want of memory, as which 4294967296
    /// edges count too.
    pub(crate) fn of(alloc: Global, edges: &[Edge], nodes: usize) -> Result<Graph, NoMemory>
        requires few { nodes ≤ 2 ^ 32 }
        requires inside { StartInside nodes edges.now }
        ensures nodes { IfOk result (λ graph. length graph ≡ nodes) }
        ensures heads { IfOk result (λ graph. (a : ℕ) → heads_of graph a ≡ heads_from a edges.now) }
    {
        if edges.len() > u32::MAX as usize {
            return Err(NoMemory);
        }
        let mut starts = zeros(alloc, nodes + 1)?;
        let mut heads = zeros(alloc, edges.len())?;
        fill_rows(&mut starts, &mut heads, edges);
        Ok(Graph { starts, heads })
    }

    /// The number of nodes.
    pub(crate) fn nodes(&self) -> usize
        ensures value { result ≡ length self.now }
        ensures few { result ≤ 2 ^ 32 }
    {
        self.starts.len() - 1
    }

    /// The nodes to which the edges of a node lead.
    pub(crate) fn heads(&self, node: u32) -> &[u32]
        requires { node < length self.now }
        ensures { result.now ≡ heads_of self.now node }
    {
        let start = self.starts[node as usize];
        let end = self.starts[node as usize + 1];
        row(&self.heads, start, end)
    }
}

/// What stands from one place to another.
fn row(heads: &[u32], start: u32, end: u32) -> &[u32]
    requires rise { start ≤ end }
    requires within { end ≤ length heads.now }
    ensures { result.now ≡ slice_range heads.now start end }
{
    &heads[start as usize..end as usize]
}

/// So many zeros.
fn zeros(alloc: Global, count: usize) -> Result<Vec<u32>, AllocError>
    ensures { IfOk result (λ zeros. zeros.items ≡ replicate count 0) }
{
    let mut zeros = Vec::new(alloc);
    zeros.resize(count, 0)?;
    Ok(zeros)
}
