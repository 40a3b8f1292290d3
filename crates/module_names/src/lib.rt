//! A module with indexes of its names: what it imports, by the names of modules and of imports, and
//! what it exports, by name.
#![tactic(auto)]

mod exports;
mod funcs;
mod globals;
pub mod imports;
pub mod index_spaces;
pub mod names;

pub use base::NoMemory;
pub use imports::{FirstsByNames, firsts_by_names};
pub use names::ModuleNames;
