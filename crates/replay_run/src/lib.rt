//! Runs a replay module within a budget of turns and writes what the run shows of the original, line by line, or
//! reports why there is nothing to show.
#![tactic(auto)]

mod calls;
mod replay_runs;
mod results;

pub use base::NoMemory;
pub use host_play::PrintedRun;
pub use replay_runs::replay;
pub use results::ReplayFault;
