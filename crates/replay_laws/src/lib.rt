//! The tape of a run's log, which is the one that the run needs; and the replay module of a tape, whose run follows
//! the run of the tape, and its encoding.
#![tactic(auto)]

mod binaries;
mod encoded_replays;
mod laws;
mod tapes;

pub use base::NoMemory;
pub use binaries::build_binary;
pub use encoded_replays::{encoded_replay, know_maximum, replay_bytes};
pub use laws::{replay_modules_follow_tapes, replay_modules_of_tapes_stand};
pub use tapes::{tape_from, tape_of};
