//! What a script supplies for a module's imports, or the first import that it does not match.
#![tactic(auto)]

mod match_rules;
mod supply;

pub use base::NoMemory;
pub use supply::{imports_memory, imports_table, supply_of};
