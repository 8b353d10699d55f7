ghost use Rattle.std.specs.Prelude.{◌≡◌, ◌∷◌, ◌++◌, [], ℕ, false, cond, IfOk, OnOk, ◌==◌};
ghost use Rattle.sat_lits.specs.Truth.{signed, with_value};
ghost use Rattle.parity_forms.specs.Parities.{odd_numbers};
ghost use Rattle.parity_forms.specs.Marks.{is_marked, is_odd_in};

use sat_lits::{List, NoMemory};
use std::alloc::Global;
use std::collections::HashMap;

/// Marks a number that is not marked, and clears the mark of one that is.
fn toggle(marks: &mut HashMap<u32, bool>, number: u32) -> Result<(), NoMemory>
    ensures { OnOk result ((n : ℕ) → is_marked marks.new n ≡ signed (number == n) (is_marked marks.old n)) }
{
    let marked = marks.get(&number).copied().unwrap_or(false);
    marks.insert(number, !marked)?;
    Ok(())
}

/// Marks the numbers that stand an odd number of times.
fn marks_of(alloc: Global, numbers: &[u32]) -> Result<HashMap<u32, bool>, NoMemory>
    ensures { IfOk result (λ marks. (n : ℕ) → is_marked marks n ≡ is_odd_in numbers.now n) }
{
    let mut marks = HashMap::new(alloc);
    'each: for number in numbers {
        toggle(&mut marks, *number)?;
    }
    Ok(marks)
}

/// Takes a number if it is marked, and clears its mark.
fn take_marked(
    marks: &mut HashMap<u32, bool>,
    number: u32,
    to: &mut List<u32>,
) -> Result<(), NoMemory>
    ensures to { OnOk result (to.new ≡ cond (is_marked marks.old number) (to.old ++ number ∷ []) to.old) }
    ensures marks { OnOk result ((n : ℕ) → is_marked marks.new n ≡ cond (is_marked marks.old number) (with_value (is_marked marks.old) number false n) (is_marked marks.old n)) }
{
    if marks.get(&number).copied().unwrap_or(false) {
        to.push(number)?;
        marks.insert(number, false)?;
    }
    Ok(())
}

/// The numbers that stand an odd number of times, each once, in the order of their first places.
pub(crate) fn odd_numbers(alloc: Global, numbers: &[u32]) -> Result<List<u32>, NoMemory>
    ensures { IfOk result (λ odd. odd ≡ odd_numbers numbers.now) }
{
    let mut marks = marks_of(alloc, numbers)?;
    let mut odd = List::new(alloc);
    'each: for number in numbers {
        take_marked(&mut marks, *number, &mut odd)?;
    }
    Ok(odd)
}
