//! The tape that a run needs: a run has exactly one, which fits the module and replays the run, and from which nothing
//! can be removed; the hook calls of a run are in order, and their log gives that tape. These are laws about the
//! definitions, whose statements are in `specs/`; their functions do nothing.
#![tactic(auto)]

pub mod call_laws;
pub mod laws;
pub mod log_laws;

pub use call_laws::{hook_calls_are_in_order, hook_calls_observe_runs};
pub use laws::{
    known_values_are_typed, laws_of_runs, laws_of_steps, needed_tape_fits, needed_tape_replays,
    nothing_can_be_dropped, other_runs_differ, reads_are_real, run_has_one_needed_tape,
    runs_read_what_is_there,
};
pub use log_laws::{
    events_are_differences, logs_are_balanced, logs_are_differences, logs_give_needed_tapes,
};
