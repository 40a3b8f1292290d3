//! The reducer: from the events of a log, one after another, to the tape of what its host did.
#![tactic(auto)]

mod builder;
mod byte_groups;
pub mod faults;
mod first_values;
pub mod laws;
mod limited_tape;
pub mod logs;
pub mod reducer;
mod runs;

pub use base::NoMemory;
pub use faults::{ReduceFault, ReducerFault};
pub use logs::reduce;
pub use reducer::Reducer;
