//! What one action of the host does to a store, and which function it calls.
#![tactic(auto)]

mod actions;
mod addresses;
mod calls;
mod laws;

pub use actions::{ActionEnd, ActionFault, perform};
pub use addresses::Addresses;
pub use base::NoMemory;
pub use calls::Functions;
pub use laws::fitting_actions;
