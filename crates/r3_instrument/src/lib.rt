//! The instrumented module of the module that bytes encode, as bytes.
#![tactic(auto)]

mod instrumentation;

pub use instrumentation::instrument_bytes;
pub use r3_faults::Fault;
