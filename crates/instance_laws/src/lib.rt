//! Laws of runs over instances. A run whose indices are resolved when an instruction is executed is the run of the
//! program in whose bodies they are resolved beforehand. So a widened module runs as its original does with foreign
//! functions, and it is valid, accepted, encodable and short as its original is. These are laws about definitions, and
//! their functions do nothing.
#![tactic(auto)]

pub mod laws;
pub mod widened_laws;

pub use laws::{
    bodies_are_renamed, functions_have_their_numbers, runs_follow, typings_are_kept,
    widened_are_valid, widened_runs_follow,
};
pub use widened_laws::{
    outcomes_follow, widened_are_accepted, widened_are_core, widened_are_encodable,
    widened_are_short, widened_are_supported, widened_are_within, widened_have_lists_within,
    widened_outcomes_follow,
};
