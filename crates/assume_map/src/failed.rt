ghost use Rattle.std.specs.Prelude.{◌≡◌, true, false, IfOk, OnOk, length, nat_lt, not};
ghost use Rattle.std.specs.List.{list_all};
ghost use Rattle.std.specs.List.Sorted.{IsStrictlyIncreasing};
ghost use Rattle.sat_lits.specs.declared.literal.Lit.{Lit};
ghost use Rattle.assume_map.specs.Failed.{AreFailedLits};
ghost use Rattle.assume_map.specs.Met.{has_met, HasMet};

use sat_lits::{List, Lit, NoMemory};
use std::alloc::Global;
use std::collections::HashSet;

/// The literals that were met: the numbers of the variables of the positive ones, and of the
/// negative ones.
#[derive(Debug, Drop)]
struct Met {
    positive: HashSet<u32>,
    negative: HashSet<u32>,
}

impl Met {
    fn new(alloc: Global) -> Met
        ensures { (l : Lit) → has_met result l ≡ false }
    {
        Met {
            positive: HashSet::new(alloc),
            negative: HashSet::new(alloc),
        }
    }

    /// Adds a literal, and tells whether it is new.
    fn add(&mut self, lit: Lit) -> Result<bool, NoMemory>
        ensures value { IfOk result (λ added. added ≡ not (has_met self.old lit)) }
        ensures met { OnOk result (HasMet self.old self.new lit) }
    {
        if lit.negative {
            let added = self.negative.insert(lit.var.0)?;
            Ok(added)
        } else {
            let added = self.positive.insert(lit.var.0)?;
            Ok(added)
        }
    }
}

/// The assumptions at the positions, which rise and are in range: each literal once, where it
/// stands first. The only error is want of memory.
pub fn failed_lits(
    alloc: Global,
    assumptions: &[Lit],
    positions: &[u32],
) -> Result<List<Lit>, NoMemory>
    requires rising { IsStrictlyIncreasing positions.now }
    requires within { list_all (λ p. nat_lt p (length assumptions.now)) positions.now ≡ true }
    ensures { IfOk result (AreFailedLits assumptions.now positions.now) }
{
    let mut failed = List::new(alloc);
    let mut met = Met::new(alloc);
    for position in positions {
        let lit = assumptions[*position as usize];
        if met.add(lit)? {
            failed.push(lit)?;
        }
    }
    Ok(failed)
}
