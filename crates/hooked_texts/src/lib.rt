//! A script's text means the same for a module and for its instrumented module: laws about the definitions, whose
//! statements are in `specs/`; their functions do nothing.
#![tactic(auto)]

pub mod laws;

pub use laws::{accepted_import_no_hooks, texts_are_renumbered, texts_leave_hooks_unanswered};
