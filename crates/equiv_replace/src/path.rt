ghost use Rattle.std.specs.Prelude.{◌≡◌, ◌<◌, ◌≤◌, ◌∷◌, [], ◌==◌, OnOk, drop, length, nat_le};
ghost use Rattle.equiv_replace.specs.Parts.{opened, newest_nodes, merged, TakesHead};

use std::alloc::{AllocError, Global};
use std::marker::Model;

/// Where a part begins among the nodes and among the heads.
#[derive(Clone, Copy, Debug)]
pub(crate) struct Bound {
    node: usize,
    head: usize,
}

/// A path of parts: in each all nodes lead to one another, and those of older parts lead to them.
#[derive(Drop)]
pub(crate) struct Path {
    nodes: Vec<u32>,
    heads: Vec<u32>,
    bounds: Vec<Bound>,
}

impl Model for Path {
    ghost use Rattle.equiv_replace.specs.Parts.{Part};
    ghost use Rattle.std.specs.Prelude.{List};

    ghost Value = { List Part };

    ghost use Rattle.equiv_replace.specs.PathKept.{path_of, IsKept};

    ghost view = { path_of };

    ghost invariant = { IsKept };
}

impl Path {
    /// A path without parts.
    pub(crate) fn new(alloc: Global) -> Path
        ensures { result ≡ [] }
    {
        Path {
            nodes: Vec::new(alloc),
            heads: Vec::new(alloc),
            bounds: Vec::new(alloc),
        }
    }

    /// Whether the path has no part.
    pub(crate) fn is_empty(&self) -> bool
        ensures { result ≡ (length self.now == 0) }
    {
        self.bounds.is_empty()
    }

    /// The number of nodes.
    pub(crate) fn len(&self) -> usize
        ensures { result ≡ length (opened self.now) }
    {
        self.nodes.len()
    }

    /// Opens a part with one node and the heads of its edges.
    pub(crate) fn open(&mut self, node: u32, heads: &[u32]) -> Result<(), AllocError>
        ensures { OnOk result (self.new ≡ record { nodes = node ∷ []; heads = heads.now } ∷ self.old) }
    {
        let bound = Bound {
            node: self.nodes.len(),
            head: self.heads.len(),
        };
        self.nodes.reserve(1)?;
        self.bounds.reserve(1)?;
        self.heads.extend_from_slice(heads)?;
        self.nodes.push(node).unwrap();
        self.bounds.push(bound).unwrap();
        Ok(())
    }

    /// Takes a head of the newest part. None comes exactly where it has none left.
    pub(crate) fn take_head(&mut self) -> Option<u32>
        requires { 0 < length self.old }
        ensures { TakesHead result self.old self.new }
    {
        let bound = self.bounds[self.bounds.len() - 1];
        if self.heads.len() <= bound.head {
            return None;
        }
        self.heads.pop()
    }

    /// Whether the node at a place stands in the newest part.
    pub(crate) fn is_newest(&self, at: u32) -> bool
        requires { 0 < length self.now }
        ensures { result ≡ nat_le (length (opened (drop 1 self.now))) at }
    {
        self.bounds[self.bounds.len() - 1].node <= at as usize
    }

    /// Makes one part of the two newest ones.
    pub(crate) fn merge(&mut self)
        requires { 2 ≤ length self.old }
        ensures { self.new ≡ merged self.old }
    {
        self.bounds.pop();
    }

    /// The nodes of the newest part.
    pub(crate) fn newest(&self) -> &[u32]
        requires { 0 < length self.now }
        ensures { result.now ≡ newest_nodes self.now }
    {
        let bound = self.bounds[self.bounds.len() - 1];
        &self.nodes[bound.node..]
    }

    /// Takes the newest part away.
    pub(crate) fn close(&mut self)
        requires { 0 < length self.old }
        ensures { self.new ≡ drop 1 self.old }
    {
        if let Some(bound) = self.bounds.pop() {
            self.nodes.truncate(bound.node);
            self.heads.truncate(bound.head);
        }
    }
}
