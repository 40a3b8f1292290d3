//! The store that a module's run under a script begins with (Core 1.0, 4.5.4).
#![tactic(auto)]

mod links;
mod segments;
mod sizes;

pub use base::NoMemory;
pub use host_script::LinkFault;
pub use links::{link, link_with_supply, linked_supply};
