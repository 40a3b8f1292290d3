//! The accepted profile: which valid modules are played, recorded and replayed.
#![tactic(auto)]

mod accepted;
mod faults;
mod instructions;
mod quantities;
mod reserved;

pub use accepted::accept;
pub use faults::ProfileFault;
