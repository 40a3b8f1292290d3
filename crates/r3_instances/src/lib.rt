//! The commands `foreign` and `pair`, with their histories, from the bytes of their files to what they print or why
//! they refuse: runs of several modules, of which the replay module of one module is made.
#![tactic(auto)]

mod declared_modules;
mod file_modules;
mod foreign_command;
mod foreign_histories;
mod foreign_inputs;
mod pair_command;
mod pair_histories;
mod pair_inputs;
mod run_inputs;

pub use foreign_command::foreign;
pub use foreign_histories::foreign_history;
pub use pair_command::pair;
pub use pair_histories::pair_history;
pub use r3_faults::Fault;
