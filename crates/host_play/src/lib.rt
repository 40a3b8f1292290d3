//! The run of a module under a script, within a budget of turns: the machine does the module's part,
//! and the script is the host, whose activations are on a stack of their own.
#![tactic(auto)]

mod actions;
pub mod history_text;
mod hook_answers;
mod hook_calls;
mod hooked_parts;
mod hooked_plays;
pub mod host_steps;
mod laws;
mod modules;
pub mod play_state;
mod printed_runs;
mod responses;
pub mod results;
mod script_runs;
mod scripted_host;
mod starts;
mod steps;

pub use base::NoMemory;
pub use hooked_plays::{RunSettings, play};
pub use laws::forms_have_hooks;
pub use results::{PlayFault, PrintedRun};
pub use script_runs::{Play, print};
