//! The lines of what the run of a replay module shows of its original, from the bytes of the module.
#![tactic(auto)]

mod replay_command;
mod texts;

pub use replay_command::replay_text;
