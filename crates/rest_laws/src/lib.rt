//! The rest of a run from a top-level call of the host on: where the run makes the call, what is known there, which
//! makes a well-typed store, and that the cut of the tape that the run needs replays the rest; and what the run's hook
//! calls report of its top-level calls. These are laws about the definitions, whose statements are in `specs/`; their
//! functions do nothing.
#![tactic(auto)]

pub mod call_laws;
pub mod laws;

pub use call_laws::{logs_are_there, logs_know_what_is_known, top_calls_are_reported};
pub use laws::{
    calls_are_of_runs, counts_do_not_matter, cut_tapes_replay_rests, cuts_are_last, cuts_are_light,
    cuts_are_needed, cuts_are_there, cuts_fit, known_before_is_kept, known_stores_are_typed,
    rests_are_there,
};
