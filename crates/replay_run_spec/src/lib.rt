//! What functions outside the original change in the run of a replay module, and the number of steps that they
//! make.
#![tactic(auto)]

pub mod laws;

pub use laws::{
    items_show_projections, plain_tests_hold, projections_run_along, traps_change_nothing,
};
