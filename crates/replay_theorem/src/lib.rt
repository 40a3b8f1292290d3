//! The replay theorem: a run with an outcome is replayed by the replay module of the tape that it needs, and recording
//! the instrumented module gives that tape. These are laws about the definitions, whose statements are in `specs/`;
//! their functions do nothing.
#![tactic(auto)]

pub mod constants;
pub mod laws;
mod record_laws;
mod recorded_original_laws;
pub mod recorded_run_laws;

pub use constants::needed_tapes_are_constant;
pub use laws::{
    needed_tapes_are_playable, needed_tapes_grow_sizes, needed_tapes_write_bytes,
    runs_are_replayed, runs_are_replayed_from_logs,
};
pub use record_laws::{logs_have_spellings, records_are_one};
pub use recorded_original_laws::records_report_originals;
pub use recorded_run_laws::{recorded_runs_are_replayed, runs_are_recorded, weights_mean_meters};
