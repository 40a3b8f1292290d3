//! Writes the lines of what the run of a replay module shows of its original, while it runs.
#![tactic(auto)]

mod shown_text;

pub use shown_text::{ShownText, trap_outcome, trap_outcome_of_turn};
