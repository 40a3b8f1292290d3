//! The command `record`, from the bytes of its files to what it prints or why it refuses.
#![tactic(auto)]

mod log_files;
mod module_logs;
mod run_logs;

pub use log_files::log_run;
pub use r3_faults::Fault;
