//! What the code of a replay module does: its functions make the effects of the tape, and its run shows what the run of
//! the tape shows. These are laws about the definitions, whose statements are in `specs/`; their functions do nothing.
#![tactic(auto)]

pub mod effect_code;
pub mod generated_steps;
pub mod laws;
pub mod numbers;
pub mod single_steps;

pub use effect_code::effects_are_made;
pub use generated_steps::{calls_are_played, dispatches_reach_arms, leads_run_along};
pub use laws::{replays_are_within_bound, replays_begin, replays_show_runs};
pub use numbers::bytes_are_numbers;
pub use single_steps::{leads_go_on, steps_lead_on};
