//! The file of the tape that the log of a file is reduced to.
#![tactic(auto)]

mod reducer_sink;
mod tape_files;

pub use r3_faults::Fault;
pub use tape_files::reduce_log;
