//! The text that commands are read from, in any pieces, and the text that answers are written as.
#![tactic(auto)]

mod arguments;
mod command;
mod comment;
pub mod laws;
mod phrase;
mod print;
mod reader;
mod refusal;
mod state;
mod token;

pub use command::{Command, Commands};
pub use print::{print_alarm, print_limit, print_refusal, print_shared, print_verdict};
pub use reader::Reader;
pub use refusal::{ReadError, Refusal};
