//! Why a call ends without its job done: one fault for each line of error, with its status.
#![tactic(auto)]

pub mod faults;
mod lines;

pub use faults::Fault;
