//! The bytes of logs and tapes: their grammar, and how they are written.
#![tactic(auto)]

mod items;
mod spellings;
pub mod tags;

pub use base::NoMemory;
pub use spellings::{write_log, write_tape};
