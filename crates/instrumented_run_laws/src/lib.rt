//! The run of an instrumented module follows the original's, and reports to hooks what the original does: a law about
//! the definitions, whose statement is in `specs/Laws.antt`; its function does nothing.
#![tactic(auto)]

pub mod laws;

pub use laws::instrumented_runs_follow;
