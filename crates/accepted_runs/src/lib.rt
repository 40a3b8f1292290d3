//! The module and the script that bytes encode, the run of the one under the other, and the fault of a call
//! without these.
#![tactic(auto)]

mod inputs;
mod links;
mod runs;

pub use host_play::PrintedRun;
pub use inputs::inputs_of;
pub use links::{start_store, supply_and_store, supply_that_links};
pub use runs::{printed_run, run_fault};
