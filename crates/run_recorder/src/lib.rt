//! The recorded run of a module in the hooked form: the events of its log are passed to a sink while it runs.
#![tactic(auto)]

mod recorded_runs;

pub use base::NoMemory;
pub use host_play::{Play, PlayFault, RunSettings};
pub use recorded_runs::{record_into, record_log};
