//! Large inputs: a module and its script, for a number of calls of an import.
#![tactic(auto)]

pub mod load_module;
mod scripts;

pub use base::NoMemory;
pub use scripts::make_load;
