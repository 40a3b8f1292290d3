//! The recorder: from the hook calls that an instrumented module makes to the events of their log.
#![tactic(auto)]

mod accesses;
mod bytes;
mod calls;
mod frozen;
mod laws;
mod memory;
mod recorder;
mod recording;
mod tables;

pub use base::NoMemory;
pub use frozen::Frozen;
pub use laws::{calls_are_recorded, logs_are_recorded, steps_are_recorded};
pub use recorder::Recorder;
