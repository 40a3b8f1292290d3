//! The plan of a replay, made from a tape, whose segments are moved into it.
#![tactic(auto)]

mod front_list;
mod plans;

pub use base::NoMemory;
pub use plans::plan;
pub use replay_module_spec::{Calls, Plan};
