//! Runs of small modules over instances, which the checker computes from the definitions: runs with foreign functions,
//! and runs of linked modules, with the history of a pair and of both its modules, linked modules, and the faults of
//! pairs that do not link.
#![tactic(auto)]

mod foreign;
mod pairs;

pub use foreign::{foreign_runs_have_their_histories, widened_modules_run_alike};
pub use pairs::{
    linked_modules_are_these, pairs_have_their_histories, refused_pairs_have_their_faults,
};
