//! The command `build`, from the bytes of its files to what it prints or why it refuses.
#![tactic(auto)]

mod build_command;
mod built_replays;
mod read_tapes;

pub use build_command::build;
pub use r3_faults::Fault;
