//! Instrumented modules: the original with hook calls around its instructions, and the weights under which its
//! run takes the original's turns.
#![tactic(auto)]

mod bodies;
pub mod encoding_laws;
mod form_imports;
mod forms;
mod functions;
mod hook_imports;
mod insertions;
mod locals;
mod modules;
mod pieces;
mod renumbered_parts;
mod sites;

pub use base::NoMemory;
pub use encoding_laws::{files_are_of_words, instrumented_are_encodable, instrumented_meters_fit};
pub use forms::{HookedFault, HookedForm, hooked_form};
pub use modules::{InstrumentedModule, instrument};
