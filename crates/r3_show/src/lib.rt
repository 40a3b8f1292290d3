//! The lines of the log or of the tape that the bytes of a file encode.
#![tactic(auto)]

mod file_lines;

pub use file_lines::{fault_of, show};
pub use r3_faults::Fault;
