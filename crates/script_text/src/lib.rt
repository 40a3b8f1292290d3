//! Reads the text of a script for a module: returns the script, or the first fault of its form, its names and
//! its types.
#![tactic(auto)]

pub mod action_keys;
mod actions;
mod common_types;
pub mod faults;
mod fitting_scripts;
mod import_texts;
mod objects;
mod paths;
mod places;
mod responses;
pub mod scripts;
mod targets;
mod types;
mod values;

pub use action_keys::Lead;
pub use base::NoMemory;
pub use faults::ScriptFault;
pub use fitting_scripts::scripts_that_are_read_fit;
pub use scripts::read_script;
