//! What `replay` prints of the modules that `make`, `foreign` and `pair` print: laws about the definitions, whose
//! statements are in `specs/`; each function does nothing.
#![tactic(auto)]

mod instances;
mod modules;

pub use instances::{foreign_replays_print_histories, pair_replays_print_histories};
pub use modules::{replay_modules_are_accepted, replays_are_shown, replays_print_histories};
