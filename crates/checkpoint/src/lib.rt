//! Replay from a later call: a recorder that is frozen before the call, the module that begins in the frozen state, and
//! the cut of a tape.
#![tactic(auto)]

mod constants;
mod cuts;
mod data_segments;
mod elem_segments;
mod freezers;
mod frozen_laws;
mod globals;
mod segment_copies;
mod state_modules;

pub use base::NoMemory;
pub use cuts::{CutFault, cut};
pub use freezers::{Freezer, runs_are_frozen};
pub use frozen_laws::frozen_states_are_known;
pub use state_modules::state_module;
