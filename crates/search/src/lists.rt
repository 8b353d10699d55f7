ghost use Rattle.std.specs.Prelude.{◌≡◌, map, IfOk};
ghost use Rattle.search.specs.InUse.{in_use};

use sat_lits::{Inner, List, NoMemory};
use std::alloc::Global;
use var_maps::VarMaps;

/// The inner numbers that active variables have, rising.
pub fn numbers_in_use(alloc: Global, maps: &VarMaps) -> Result<List<Inner>, NoMemory>
    ensures { IfOk result (λ numbers. map (λ inner. inner.0) numbers ≡ in_use maps.now) }
{
    let mut numbers = List::new(alloc);
    for number in 0..maps.inner_len() {
        if maps.at_inner(Inner(number)).is_some() {
            numbers.push(Inner(number))?;
        }
    }
    Ok(numbers)
}
