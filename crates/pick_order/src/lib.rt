//! Which variable a search decides next, and with which sign.
//!
//! Variables that conflicts were about lately come first (variable state independent decaying sum:
//! Moskewicz, Madigan, Zhao, Zhang and Malik, 2001; with an increment that grows, Eén and
//! Sörensson, 2003).
#![tactic(auto)]

mod interval;
mod order;
mod preference;
mod tournament;

pub use interval::interval_len;
pub use order::PickOrder;
pub use preference::Preference;
