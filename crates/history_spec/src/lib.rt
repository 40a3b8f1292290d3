//! What a run of a module under a script is: its configurations, its steps, its history.
#![tactic(auto)]

pub mod entries;
pub mod laws;

pub use base::Outcome;
pub use entries::{Entries, Entry, FaultKind, TrapKind};
pub use laws::{runs_have_one_result_at_most, runs_have_some_result};
