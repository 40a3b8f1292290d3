//! The replay theorem for the rest of a run from a top-level call on: the replay module of the cut of the run's tape,
//! for a module that begins with what is known before the call, shows exactly the rest. These are laws about the
//! definitions, whose statements are in `specs/`; their functions do nothing.
#![tactic(auto)]

pub mod laws;

pub use laws::{
    cuts_are_constant, cuts_are_playable, rests_are_replayed, rests_are_replayed_from_states,
};
