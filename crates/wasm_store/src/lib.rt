//! What a run of a module changes: its memory, its table, its globals (Core 1.0, 4.2.3).
#![tactic(auto)]

pub mod bounds;
mod bytes;
pub mod store;
mod table;

pub use bounds::{OutOfBounds, OutOfTable};
pub use store::Store;
