ghost use Rattle.std.specs.Prelude.{◌≡◌, ◌<◌, ◌^◌, ◌++◌, Some, true, IfOk, OnOk, IsTrue, option_to_list};
ghost use Rattle.std.specs.List.{list_all};
ghost use Rattle.clause_store.specs.Store.{Held, clause_at, is_live};
ghost use Rattle.equiv_replace.specs.Nodes.{node_of, negated, are_below, two_of, binary_of, edge_of, edges_of};

use clause_store::ClauseStore;
use sat_lits::{ClauseId, InLit, NoMemory};
use std::alloc::Global;

/// An edge from one node to another.
#[derive(Clone, Copy, Debug)]
pub(crate) struct Edge {
    pub(crate) from: u32,
    pub(crate) to: u32,
}

/// The edges of the hard clauses of two literals, two for each: from the negation of either literal
/// to the other one. The only error is want of memory.
pub(crate) fn binary_edges(alloc: Global, store: &ClauseStore) -> Result<Vec<Edge>, NoMemory>
    requires { list_all (are_below (2 ^ 32)) store.now.held ≡ true }
    ensures { IfOk result (λ edges. edges.items ≡ edges_of store.now.held) }
{
    let mut edges = Vec::new(alloc);
    let mut at = store.first();
    'walk: while let Some(id) = at {
        add_edges(&mut edges, store, id)?;
        at = store.after(id);
    }
    Ok(edges)
}

/// Appends the edges of the clause of a live id, if it is a hard one of two literals.
fn add_edges(edges: &mut Vec<Edge>, store: &ClauseStore, id: ClauseId) -> Result<(), NoMemory>
    requires live { IsTrue (is_live store.now.held id.0) }
    requires below { list_all (are_below (2 ^ 32)) store.now.held ≡ true }
    ensures { OnOk result (edges.new.items ≡ edges.old.items ++ edges_of (option_to_list (clause_at store.now.held id.0))) }
{
    if let Some((first, second)) = binary_of(store, id) {
        edges.push(edge_of(first, second))?;
        edges.push(edge_of(second, first))?;
    }
    Ok(())
}

/// The literals of a hard clause that has two.
fn binary_of(store: &ClauseStore, id: ClauseId) -> Option<(InLit, InLit)>
    requires { IsTrue (is_live store.now.held id.0) }
    ensures { (clause : Held) → clause_at store.now.held id.0 ≡ Some clause → result ≡ binary_of clause }
{
    if store.is_learned(id) {
        None
    } else {
        two_of(store.lits(id))
    }
}

/// The literals of a clause that has two.
fn two_of(lits: &[InLit]) -> Option<(InLit, InLit)>
    ensures { result ≡ two_of lits.now }
{
    match lits {
        [first, second] => Some((*first, *second)),
        _ => None,
    }
}

/// The edge from the negation of a literal to another literal.
fn edge_of(lit: InLit, other: InLit) -> Edge
    requires lit { lit.var.0 < 2 ^ 31 }
    requires other { other.var.0 < 2 ^ 31 }
    ensures { result ≡ edge_of lit other }
{
    Edge {
        from: node_of(negated(lit)),
        to: node_of(other),
    }
}

/// The node of a literal.
fn node_of(lit: InLit) -> u32
    requires { lit.var.0 < 2 ^ 31 }
    ensures { result ≡ node_of lit }
{
    if lit.negative {
        2 * lit.var.0 + 1
    } else {
        2 * lit.var.0
    }
}

/// The opposite literal.
fn negated(lit: InLit) -> InLit
    ensures { result ≡ negated lit }
{
    InLit {
        var: lit.var,
        negative: !lit.negative,
    }
}
