//! The module and the script that bytes encode, or why they are refused.
#![tactic(auto)]

mod inputs;
mod module_files;

pub use inputs::{module_in, module_of, script_of};
pub use module_files::ModuleFile;
