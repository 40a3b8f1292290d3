//! What is known of a memory: its bytes and its size.
#![tactic(auto)]

mod known_bytes;
mod laws;
mod opening;
mod runs;
mod shadow;

pub use base::NoMemory;
pub use laws::takings_are_a_map;
pub use runs::Difference;
pub use shadow::ShadowMemory;
