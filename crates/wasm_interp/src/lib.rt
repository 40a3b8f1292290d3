//! The machine: flat code run over a store, turn by turn (Core 1.0, 4.4).
#![tactic(auto)]

mod advances;
mod calls;
pub mod control;
mod form_advances;
mod form_calls;
mod form_pairs;
mod form_steps;
mod form_walks;
mod form_weights;
mod host;
pub mod instr_entries;
mod instructions;
mod laws;
mod loop_code;
mod loops;
pub mod machine;
mod memory;
mod numeric;
mod operands;
mod plain;
mod returns;
mod signatures;
mod stack;
mod stretch_ends;
mod table;
mod top_walks;
mod turns;
mod values;

pub use base::NoMemory;
pub use instr_entries::{InstrEntry, TurnEntries};
pub use laws::{calls_are_ready, hosts_go_on, meters_fit, weightless_turns_end};
pub use machine::{Machine, Pause, Turn};
