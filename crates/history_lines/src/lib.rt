//! The lines of a history, one for each entry, and the line of its outcome; and the words that lines are made of.
#![tactic(auto)]

mod lines;
mod pieces;
mod words;

pub use base::NoMemory;
pub use lines::{print_entry, print_outcome, print_step, print_trap};
pub use words::{put, put_number, put_value, put_values};
