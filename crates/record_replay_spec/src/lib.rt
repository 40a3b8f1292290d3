//! Record and replay, as definitions: what a run observes, what is known of it, the tape that it needs, the run of a
//! tape, instrumented modules, the hook calls of a run and their order, logs; and laws on single steps.
#![tactic(auto)]

pub mod hook_laws;
pub mod hooks;
pub mod laws;
pub mod observed_step_laws;
pub mod shown_step_laws;

pub use hook_laws::{
    bodies_are_instrumented, differing_bytes_are_reported, hooks_are_answered,
    indices_are_renumbered, instrumented_are_hooked, instrumented_keep_indices, log_tape_is_one,
    order_knows_table, tested_tapes_are_of_logs,
};
pub use hooks::Hook;
pub use laws::{
    known_is_kept, needed_segments_are_kept, needed_tape_is_one, tested_segments_are_needed,
};
pub use observed_step_laws::{kinds_of_stores, observed_steps, own_answers, own_steps};
pub use shown_step_laws::shown_steps;
