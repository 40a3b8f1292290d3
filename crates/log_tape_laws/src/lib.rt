//! The tape of a log that a file encodes can be written, and weighs no more than the file has bytes. This is a law
//! about the definitions, whose statement is in `specs/`; its function does nothing.
#![tactic(auto)]

pub mod laws;

pub use laws::log_tapes_are_writable;
