ghost use Rattle.std.specs.Prelude.{◌≡◌, ◌≢◌, ◌<◌, ◌≤◌, ◌+◌, ◌^◌, ◌∷◌, [], ℕ, IfOk, OnOk, length, map};
ghost use Rattle.std.specs.List.{Contains};
ghost use Rattle.equiv_replace.specs.Graphs.{IsGraph, AreComponents, Leads};
ghost use Rattle.equiv_replace.specs.Parts.{opened, newest_heads};
ghost use Rattle.equiv_replace.specs.Walks.{IsWalk, mark_of, all_closed, left, KnowsMore, IsClosed, number_of};
ghost use Rattle.equiv_replace.specs.declared.components.Mark.TheVariants.{New, Open};

use crate::graph::Graph;
use crate::path::Path;
use std::alloc::{AllocError, Global};

/// What a walk knows of a node: nothing, its place on the path, or the number of its component.
#[derive(Clone, Copy, Debug)]
pub(crate) enum Mark {
    New,
    Open(u32),
    Closed(u32),
}

/// A walk over a graph, with the components that were closed so far.
#[derive(Drop)]
struct Walk {
    marks: Vec<Mark>,
    path: Path,
    closed: usize,
}

/// Gives nodes the number of their component.
fn close_all(marks: &mut [Mark], nodes: &[u32], number: u32)
    requires { (a : ℕ) → Contains nodes.now a → a < length marks.old }
    ensures { marks.new ≡ all_closed number nodes.now marks.old }
{
    for node in nodes {
        marks[*node as usize] = Mark::Closed(number);
    }
}

impl Walk {
    /// A walk that saw no node.
    fn new(alloc: Global, graph: &Graph) -> Result<Walk, AllocError>
        ensures walk { IfOk result (λ walk. IsWalk graph.now [] walk) }
        ensures empty { IfOk result (λ walk. walk.path ≡ []) }
    {
        let mut marks = Vec::new(alloc);
        marks.resize(graph.nodes(), Mark::New)?;
        Ok(Walk {
            marks,
            path: Path::new(alloc),
            closed: 0,
        })
    }

    /// Opens a node that was not seen before.
    fn open(&mut self, graph: &Graph, node: u32) -> Result<(), AllocError>
        requires graph { IsGraph graph.now }
        requires there { node < length graph.now }
        requires new { mark_of self.old.marks.items node ≡ New }
        requires leads { (a : ℕ) → Contains (opened self.old.path) a → Leads graph.now a node }
        requires walk { IsWalk graph.now (node ∷ []) self.old }
        ensures walk { OnOk result (IsWalk graph.now [] self.new) }
        ensures less { OnOk result (left graph.now self.new < left graph.now self.old) }
        ensures seen { OnOk result (mark_of self.new.marks.items node ≢ New) }
        ensures knows { OnOk result (KnowsMore self.old.marks.items self.new.marks.items) }
    {
        let at = self.path.len();
        self.path.open(node, graph.heads(node))?;
        self.marks[node as usize] = Mark::Open(at as u32);
        Ok(())
    }

    /// Makes one part of the newest ones, down to that of the node at a place.
    fn merge_to(&mut self, graph: &Graph, node: u32, at: u32)
        requires open { mark_of self.old.marks.items node ≡ Open at }
        requires leads { (a : ℕ) → Contains (opened self.old.path) a → Leads graph.now a node }
        requires walk { IsWalk graph.now (node ∷ []) self.old }
        ensures walk { IsWalk graph.now [] self.new }
        ensures less { left graph.now self.new ≤ left graph.now self.old }
        ensures marks { self.new.marks ≡ self.old.marks }
    {
        while !self.path.is_newest(at) {
            self.path.merge();
        }
    }

    /// Goes on along an edge of the newest part, to its head.
    fn follow(&mut self, graph: &Graph, head: u32) -> Result<(), AllocError>
        requires graph { IsGraph graph.now }
        requires there { head < length graph.now }
        requires leads { (a : ℕ) → Contains (opened self.old.path) a → Leads graph.now a head }
        requires walk { IsWalk graph.now (head ∷ []) self.old }
        ensures walk { OnOk result (IsWalk graph.now [] self.new) }
        ensures less { OnOk result (left graph.now self.new ≤ left graph.now self.old) }
        ensures knows { OnOk result (KnowsMore self.old.marks.items self.new.marks.items) }
    {
        match self.marks[head as usize] {
            Mark::New => self.open(graph, head)?,
            Mark::Open(at) => self.merge_to(graph, head, at),
            Mark::Closed(_) => {}
        }
        Ok(())
    }

    /// Closes the newest part, of which every edge was followed: it is a component.
    fn close(&mut self, graph: &Graph)
        requires some { 0 < length self.old.path }
        requires followed { newest_heads self.old.path ≡ [] }
        requires walk { IsWalk graph.now [] self.old }
        ensures walk { IsWalk graph.now [] self.new }
        ensures less { left graph.now self.new < left graph.now self.old }
        ensures knows { KnowsMore self.old.marks.items self.new.marks.items }
    {
        close_all(&mut self.marks, self.path.newest(), self.closed as u32);
        self.path.close();
        self.closed += 1;
    }

    /// Follows all edges of the path, and closes its parts.
    fn close_path(&mut self, graph: &Graph) -> Result<(), AllocError>
        requires graph { IsGraph graph.now }
        requires walk { IsWalk graph.now [] self.old }
        ensures walk { OnOk result (IsWalk graph.now [] self.new) }
        ensures empty { OnOk result (self.new.path ≡ []) }
        ensures knows { OnOk result (KnowsMore self.old.marks.items self.new.marks.items) }
    {
        'walk: while !self.path.is_empty() {
            match self.path.take_head() {
                Some(head) => self.follow(graph, head)?,
                None => self.close(graph),
            }
        }
        Ok(())
    }

    /// Closes the component of a node, and all that its edges lead to.
    fn visit(&mut self, graph: &Graph, node: u32) -> Result<(), AllocError>
        requires graph { IsGraph graph.now }
        requires there { node < length graph.now }
        requires empty { self.old.path ≡ [] }
        requires walk { IsWalk graph.now [] self.old }
        ensures walk { OnOk result (IsWalk graph.now [] self.new) }
        ensures empty { OnOk result (self.new.path ≡ []) }
        ensures knows { OnOk result (KnowsMore self.old.marks.items self.new.marks.items) }
        ensures closed { OnOk result (IsClosed self.new.marks.items node) }
    {
        match self.marks[node as usize] {
            Mark::New => {
                self.open(graph, node)?;
                self.close_path(graph)?;
            }
            Mark::Open(_) | Mark::Closed(_) => {}
        }
        Ok(())
    }
}

/// The numbers of the components of nodes, which were all closed.
fn numbers(alloc: Global, marks: &[Mark]) -> Result<Vec<u32>, AllocError>
    ensures { IfOk result (λ numbers. numbers.items ≡ map number_of marks.now) }
{
    let mut numbers = Vec::new(alloc);
    for mark in marks {
        numbers.push(match mark {
            Mark::Closed(number) => *number,
            _ => 0,
        })?;
    }
    Ok(numbers)
}

/// A number for each node, its component's: no edge leads to a greater number, and the nodes of
/// one number are those that lie on one cycle.
pub(crate) fn components(alloc: Global, graph: &Graph) -> Result<Vec<u32>, AllocError>
    requires { IsGraph graph.now }
    ensures components { IfOk result (λ numbers. AreComponents graph.now numbers.items) }
    ensures few { IfOk result (λ numbers. length numbers.items ≤ 2 ^ 32) }
{
    let mut walk = Walk::new(alloc, graph)?;
    'each: for node in 0..graph.nodes() {
        walk.visit(graph, node as u32)?;
    }
    let found = numbers(alloc, &walk.marks)?;
    Ok(found)
}
