//! The history of the run of a module under a script, from the bytes of both.
#![tactic(auto)]

mod histories;
mod lines;

pub use histories::history;
pub use lines::history_of;
