//! The commands `make`, `load` and `from`, from the bytes of their files to what they print or why they refuse.
#![tactic(auto)]

mod from_command;
mod frozen_runs;
mod frozen_tapes;
mod lines;
mod make_command;
mod recorded_runs;
mod replay_binary;
mod rest_binary;
mod states_and_cuts;
mod summaries;
mod tapes;

pub use from_command::{MAX_CALL_NUMBER, from_call};
pub use make_command::make;
pub use r3_faults::Fault;
pub use replay_binary::replay_of;
pub use states_and_cuts::{StateAndCut, state_and_cut};
pub use summaries::load_summary;
pub use tapes::{SuppliedTape, needed_tape};
