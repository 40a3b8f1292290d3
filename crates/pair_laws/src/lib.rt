//! Laws of pairs of linked modules. Functions keep their types in the run of a pair, the run of the linked module is
//! the run of the pair, and the linked module is valid, accepted, encodable and short as both modules are. These are
//! laws about definitions, and their functions do nothing.
#![tactic(auto)]

pub mod laws;
pub mod linked_laws;

pub use laws::{functions_keep_their_types, linked_outcomes_follow, linked_runs_follow};
pub use linked_laws::{
    counts_are_within, linked_are_accepted, linked_are_core, linked_are_encodable,
    linked_are_short, linked_are_supported, linked_are_valid, linked_are_within,
    linked_have_lists_within,
};
