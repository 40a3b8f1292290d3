//! A library that serves measuring and tests: an instance of a module with the machine alone, calls of its
//! functions by the host, and how they go on.
#![tactic(auto)]

mod calls;
pub mod instances;
mod turns;

pub use base::NoMemory;
pub use instances::{Instance, MachineFault, instance_of};
