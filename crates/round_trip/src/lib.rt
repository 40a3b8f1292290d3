//! Encoding a module and decoding it again (Core 1.0, section 5).
#![tactic(auto)]

mod laws;

pub use laws::round_trip;
