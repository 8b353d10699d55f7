//! The literals that a search has assigned, each with its level and its reason.
//!
//! Level 0 holds what was assigned before any decision. Each level above it begins with a decision.
#![tactic(auto)]

mod trail;

pub use trail::{Step, Trail};
