//! The variables that left the clauses of one solver, and what their entries make of clauses.
//!
//! `RemovedVars` keeps the stack of entries, and beside it a table of what each own variable's entry
//! says. So a literal is followed to what it comes to in as many steps as there are replacements on
//! its way. `put_in` makes a clause of what its literals come to, `own_form` does so with a clause
//! of the caller, `collect` with each stored clause that holds an entry's variable, and `hold_block`
//! with the clauses of an entry whose variable is active again.
#![tactic(auto)]

mod changes;
mod literals;
mod removed;
mod restoring;
mod roots;
mod stamps;
mod taking;

pub use changes::{Changes, Fresh, add_all, collect, drop_all};
pub use literals::{in_lits, outer_lit, own_lit, own_lits};
pub use removed::{RemovedVars, Status};
pub use restoring::hold_block;
pub use roots::{put_in, put_in_entry, turned, var_of};
pub use taking::{add_hard, own_form};
