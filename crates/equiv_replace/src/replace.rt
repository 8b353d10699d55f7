ghost use Rattle.std.specs.Prelude.{◌≡◌, ◌<◌, ◌≤◌, ◌+◌, ◌*◌, ◌^◌, [], None, true, false, IfOk, IfSome, OnOk, IsTrue, if◌then◌else◌, length};
ghost use Rattle.std.specs.List.{list_all};
ghost use Rattle.sat_lits.specs.declared.literal.OwnLit.{OwnLit};
ghost use Rattle.state_laws.specs.Kernel.{state_of, TookSame};
ghost use Rattle.sync_laws.specs.Met.{KeepsMet};
ghost use Rattle.equiv_replace.specs.Binary.{AreOnOneCycle, HasNoCycles, opposite};
ghost use Rattle.equiv_replace.specs.Nodes.{lit_of, are_below, edges_of, IsBinaryGraph};
ghost use Rattle.equiv_replace.specs.Replaced.{IsGraphOf, Replaced, OnlyReplaced, HasOpposites, IsReplacing};

use crate::edges::binary_edges;
use crate::graph::Graph;
use crate::roots::roots;
use clause_store::ClauseStore;
use private_state::PrivateState;
use sat_lits::{InLit, Inner, NoMemory, OwnLit};
use std::alloc::Global;

/// The graph of the hard clauses of two literals, for variables below a number. None comes where
/// there is no such clause.
fn binary_graph(alloc: Global, store: &ClauseStore, vars: u32) -> Result<Option<Graph>, NoMemory>
    requires few { vars ≤ 2 ^ 31 }
    requires below { list_all (are_below (2 * vars)) store.now.held ≡ true }
    ensures none { IfOk result (λ found. found ≡ None → edges_of store.now.held ≡ []) }
    ensures some { IfOk result (λ found. IfSome found (IsBinaryGraph store.now.held vars)) }
{
    let edges = binary_edges(alloc, store)?;
    if edges.is_empty() {
        return Ok(None);
    }
    let graph = Graph::of(alloc, &edges, 2 * vars as usize)?;
    Ok(Some(graph))
}

/// The literal of a node.
fn lit_of(node: u32) -> InLit
    ensures { result ≡ lit_of node }
{
    InLit {
        var: Inner(node / 2),
        negative: node % 2 == 1,
    }
}

/// Whether a literal and its opposite have one root.
fn has_opposites(roots: &[u32]) -> bool
    ensures some { IsTrue result → HasOpposites roots.now }
    ensures none { HasOpposites roots.now → IsTrue result }
{
    for var in 0..roots.len() / 2 {
        if roots[2 * var] == roots[2 * var + 1] {
            return true;
        }
    }
    false
}

/// Replaces one variable by the literal of its root, if that is of another variable. Whether it
/// did so.
fn replace_one(state: &mut PrivateState, roots: &[u32], var: Inner) -> Result<bool, NoMemory>
    requires there { 2 * var.0 + 1 < length roots.now }
    requires replacing { IsReplacing roots.now var.0 state.old }
    ensures replacing { OnOk result (IsReplacing roots.now (var.0 + 1) state.new) }
    ensures replaced { IfOk result (λ replaced. Replaced state.old state.new (if replaced then 1 else 0)) }
    ensures taken { TookSame state.old state.new }
    ensures pushed { OnlyReplaced state.old state.new }
    ensures kept { KeepsMet (state_of state.old) (state_of state.new) }
{
    let root = lit_of(roots[2 * var.0 as usize]);
    if root.var.0 == var.0 {
        return Ok(false);
    }
    let Some(own) = state.maps().at_inner(var) else {
        return Ok(false);
    };
    let by = OwnLit {
        var: state.maps().at_inner(root.var).unwrap(),
        negative: root.negative,
    };
    state.replace(own, by)?;
    Ok(true)
}

/// Replaces each variable by the literal of its root, if that is of another variable. The number
/// of variables replaced.
fn replace_all(state: &mut PrivateState, roots: &[u32], vars: u32) -> Result<u64, NoMemory>
    requires there { length roots.now ≡ 2 * vars }
    requires replacing { IsReplacing roots.now 0 state.old }
    ensures replacing { OnOk result (IsReplacing roots.now vars state.new) }
    ensures replaced { IfOk result (λ count. Replaced state.old state.new count) }
    ensures taken { TookSame state.old state.new }
    ensures pushed { OnlyReplaced state.old state.new }
    ensures kept { KeepsMet (state_of state.old) (state_of state.new) }
{
    let mut count = 0;
    'each: for var in 0..vars {
        if replace_one(state, roots, Inner(var))? {
            count += 1;
        }
    }
    Ok(count)
}

/// Replaces variables that lie on cycles of a graph, that of the state's binary hard clauses.
fn replace_on_cycles(
    alloc: Global,
    state: &mut PrivateState,
    graph: &Graph,
    vars: u32,
) -> Result<u64, NoMemory>
    requires graph { IsGraphOf state.old graph.now }
    requires vars { vars ≡ length state.old.maps.owners }
    ensures replaced { IfOk result (λ count. Replaced state.old state.new count) }
    ensures cycles { IfOk result (λ count. count ≡ 0 → IsTrue state.new.okay → HasNoCycles (state_of state.new).hard) }
    ensures opposite { OnOk result ((a : OwnLit) → AreOnOneCycle (state_of state.old).hard a (opposite a) → state.new.okay ≡ false) }
    ensures taken { TookSame state.old state.new }
    ensures pushed { OnlyReplaced state.old state.new }
    ensures kept { KeepsMet (state_of state.old) (state_of state.new) }
{
    let roots = roots(alloc, graph)?;
    if has_opposites(&roots) {
        state.refute();
        return Ok(0);
    }
    let count = replace_all(state, &roots, vars)?;
    Ok(count)
}

/// Replaces variables that lie on cycles of binary hard clauses by one of each cycle, and tells how
/// many it replaced. Where a literal lies on a cycle with its opposite, it replaces none and refutes
/// the state. The only error is want of memory, as which 2147483648 binary clauses count too; it may
/// come after some replacements. Each shared clause that was met stays so, then too.
///
/// The cycles are those of the implication graph (Aspvall, Plass and Tarjan, 1979), whose strongly
/// connected components are found by a path of parts (Gabow, 2000). It takes the time of one walk
/// over the clauses and of one over their graph, and what the clauses of the replaced variables
/// cost. No graph is made where there is no binary hard clause.
pub fn replace_equivalent(alloc: Global, state: &mut PrivateState) -> Result<u64, NoMemory>
    ensures replaced { IfOk result (λ count. Replaced state.old state.new count) }
    ensures cycles { IfOk result (λ count. count ≡ 0 → IsTrue state.new.okay → HasNoCycles (state_of state.new).hard) }
    ensures opposite { OnOk result ((a : OwnLit) → AreOnOneCycle (state_of state.old).hard a (opposite a) → state.new.okay ≡ false) }
    ensures taken { TookSame state.old state.new }
    ensures pushed { OnlyReplaced state.old state.new }
    ensures kept { KeepsMet (state_of state.old) (state_of state.new) }
{
    let vars = state.maps().inner_len();
    match binary_graph(alloc, state.clauses(), vars)? {
        Some(graph) => replace_on_cycles(alloc, state, &graph, vars),
        None => Ok(0),
    }
}
