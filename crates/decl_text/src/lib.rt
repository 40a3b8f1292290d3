//! Reads declarations of functions of the host that a module does not import: returns the list, or the first fault of
//! its form or its names. Laws on JSON texts say that declarations are no larger than their text.
#![tactic(auto)]

pub mod decls;
pub mod faults;
mod json_laws;
pub mod laws;
mod names;
mod objects;
mod paths;
mod types;

pub use decls::read_decls;
pub use faults::DeclFault;
pub use json_laws::values_are_within_texts;
pub use laws::{declarations_are_within_texts, declarations_that_are_read_fit};
