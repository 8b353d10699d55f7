ghost use Rattle.std.specs.Prelude.{◌≡◌, ℕ, ◌==◌, ◌||◌, IfOk, OnOk};
ghost use Rattle.restore_var.specs.Marks.{is_marked};
ghost use Rattle.restore_var.specs.Needs.{is_among};

use sat_lits::{NoMemory, Own};
use std::alloc::Global;
use std::collections::HashMap;

/// Marks a variable.
pub(crate) fn mark(marks: &mut HashMap<u32, bool>, var: Own) -> Result<(), NoMemory>
    ensures { OnOk result ((n : ℕ) → is_marked marks.new n ≡ (var.0 == n || is_marked marks.old n)) }
{
    marks.insert(var.0, true)?;
    Ok(())
}

/// Whether a variable is marked.
pub(crate) fn is_marked(marks: &HashMap<u32, bool>, var: Own) -> bool
    ensures { result ≡ is_marked marks.now var.0 }
{
    marks.get(&var.0).copied().unwrap_or(false)
}

/// Marks of these variables.
pub(crate) fn marks_of(alloc: Global, vars: &[Own]) -> Result<HashMap<u32, bool>, NoMemory>
    ensures { IfOk result (λ marks. (n : ℕ) → is_marked marks n ≡ is_among vars.now n) }
{
    let mut marks = HashMap::new(alloc);
    'each: for var in vars {
        mark(&mut marks, *var)?;
    }
    Ok(marks)
}
