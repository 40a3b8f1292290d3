//! What every layer shares: the opcodes and marks of the binary format, the fault of being out of memory, how a run
//! ends, and lemmas of general use on options, Booleans and lists.
#![tactic(auto)]

pub mod marks;
pub mod no_memory;
pub mod opcodes;
pub mod outcomes;

pub use no_memory::NoMemory;
pub use outcomes::Outcome;
