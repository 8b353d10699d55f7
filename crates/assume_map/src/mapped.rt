ghost use Rattle.std.specs.Prelude.{◌≡◌, ◌<◌, ◌^◌, false, length, IfOk};
ghost use Rattle.rebuild_stack.specs.Roots.{root, is_lost};
ghost use Rattle.state_laws.specs.State.{to_own};
ghost use Rattle.state_laws.specs.Conditions.{Takable};
ghost use Rattle.state_laws.specs.Kernel.{state_of};
ghost use Rattle.assume_map.specs.Mapping.{IsMapped};

use crate::walk::Walk;
use private_state::PrivateState;
use rebuild_stack::Root;
use sat_lits::{InLit, List, Lit, NoMemory, OwnLit};
use std::alloc::Global;

/// What assumptions are mapped to.
#[derive(Debug, Drop)]
pub enum Mapped {
    /// The literals that are left to be assumed, and the positions of the assumptions that they
    /// come from.
    Ready {
        lits: List<InLit>,
        positions: List<u32>,
    },
    /// The positions of assumptions that cannot all be true.
    Clash(List<u32>),
}

/// Maps assumptions to literals of the clauses that a state holds. Their variables are there, and
/// none of them is eliminated, nor replaced by an eliminated one. There are fewer than 2^32.
///
/// An assumption that is fixed true is left out, and so is one that comes to the same literal as an
/// earlier one: each literal of `Ready` comes from the first assumption that comes to it, whose
/// position stands beside it. `Clash` comes exactly where an assumption is fixed false, or two of
/// them come to a literal and its negation. It gives the one position, or the two rising ones, that
/// a walk through the assumptions meets first. The only error is want of memory.
///
/// It takes time linear in the numbers of assumptions and variables.
pub fn map_assumptions(
    alloc: Global,
    state: &PrivateState,
    assumptions: &[Lit],
) -> Result<Mapped, NoMemory>
    requires few { length assumptions.now < 2 ^ 32 }
    requires takable { Takable (state_of state.now) assumptions.now }
    ensures { IfOk result (IsMapped state.now assumptions.now) }
{
    let mut walk = Walk::new(alloc, state.maps().own_len())?;
    for position in 0..assumptions.len() {
        let root = root_of(state, assumptions[position]);
        let clash = walk.meet(state.maps(), root, position as u32)?;
        if let Some(positions) = clash {
            return Ok(Mapped::Clash(positions));
        }
    }
    Ok(Mapped::Ready {
        lits: walk.lits,
        positions: walk.positions,
    })
}

/// What an assumption comes to.
fn root_of(state: &PrivateState, lit: Lit) -> Root
    requires there { lit.var.0 < length state.now.maps.outers }
    requires kept { is_lost (root state.now.stack (to_own state.now.definitions lit)) ≡ false }
    ensures { result ≡ root state.now.stack (to_own state.now.definitions lit) }
{
    let own = OwnLit {
        var: state.maps().to_own(lit.var),
        negative: lit.negative,
    };
    let last = state.root_of(own);
    match state.value_of(last.var) {
        Some(value) => Root::Known(value != last.negative),
        None => Root::Last(last),
    }
}
