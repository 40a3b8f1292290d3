//! What is known of a table, its entries and their number, and of globals.
#![tactic(auto)]

mod opening;
mod tables;

pub use base::NoMemory;
pub use tables::ShadowTables;
