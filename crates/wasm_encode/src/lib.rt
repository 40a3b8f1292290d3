//! Writing modules in the binary format (Core 1.0, 5).
#![tactic(auto)]

mod encoding;
mod instructions;
mod items;
mod kinds;
mod lengths;
mod limited;
mod modules;
mod parts;
mod sections;
mod types;
mod vectors;

pub use base::NoMemory;
pub use limited::{EncodeFault, encode};
