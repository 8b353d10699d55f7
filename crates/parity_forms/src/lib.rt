//! A parity or a definition as clauses over own and private variables.
//!
//! A parity of the caller is cancelled, followed along the stack and cut into pieces; each piece is
//! held as clauses, one for each choice of values that does not satisfy it, and the fresh variable of
//! each cut becomes a private one (Tseitin, 1968). `made_of` tells for pieces, and `made_by` for one
//! definition, which private variables and clauses that asks for. `add_made` makes and adds them, all
//! or none.
#![tactic(auto)]

mod defined;
mod forms;
mod made;
mod odd;
mod parity;

pub use defined::made_by;
pub use forms::made_of;
pub use made::{Made, add_made};
pub use parity::own_pieces;
