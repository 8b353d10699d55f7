ghost use Rattle.std.specs.Prelude.{◌≡◌, ℕ, ◌&&◌, not, slice_set};
ghost use Rattle.indexed_store.specs.Flags.{is_flagged, is_hard_with};

use sat_lits::{InLit, Inner, NoMemory};

/// Makes places for the flags of so many variables, where there are fewer. New flags are not set.
pub(crate) fn make_flags(flags: &mut Vec<bool>, vars: usize) -> Result<(), NoMemory>
    ensures { (v : ℕ) → is_flagged flags.new.items v ≡ is_flagged flags.old.items v }
{
    'each: for _ in flags.len()..vars {
        flags.push(false)?;
    }
    Ok(())
}

/// Sets or clears the flag of a variable, if there is a place for it.
pub(crate) fn write_flag(flags: &mut Vec<bool>, var: Inner, value: bool)
    ensures { flags.new.items ≡ slice_set flags.old.items var.0 value }
{
    let at = var.0 as usize;
    if at < flags.len() {
        flags[at] = value;
    }
}

/// Clears the flag of each variable of a clause, if that is hard.
pub(crate) fn clear_flags(flags: &mut Vec<bool>, lits: &[InLit], learned: bool)
    ensures { (v : ℕ) → is_flagged flags.new.items v ≡ (not (is_hard_with v learned lits.now) && is_flagged flags.old.items v) }
{
    if learned {
        return;
    }
    'each: for lit in lits {
        write_flag(flags, lit.var, false);
    }
}
