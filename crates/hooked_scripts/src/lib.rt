//! Scripts for instrumented modules: the scripts of the originals, with their functions renumbered and hooks
//! answered.
#![tactic(auto)]

mod actions;
mod answers;
mod scripts;

pub use base::NoMemory;
pub use scripts::{count_of_imports, script_with_hooks};
