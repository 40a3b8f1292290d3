//! Instrumented modules are valid, accepted if their originals are, and link with what these link with: laws about
//! the definitions, whose statements are in `specs/`; their functions do nothing.
#![tactic(auto)]

pub mod laws;
pub mod size_laws;

pub use laws::{
    encodable_have_words, instrumented_are_accepted, instrumented_are_fitted,
    instrumented_are_instantiated, instrumented_are_runnable, instrumented_are_supplied,
    instrumented_are_valid,
};
pub use size_laws::{
    encoded_have_words, globals_within_encoding, instrumented_are_short, instrumented_have_stores,
    instrumented_import_hooks,
};
