//! A recorded run: the log of what its module saw, and the tape of what its host did; which logs are balanced,
//! and which tapes fit a module.
#![tactic(auto)]

pub mod balance;
pub mod events;
pub mod fitting;
mod ordering;
pub mod sinks;
pub mod tapes;

pub use balance::{Balance, BalanceFault, check_balance};
pub use base::{NoMemory, Outcome};
pub use events::{Event, Events, Log};
pub use fitting::{TapeFault, fits};
pub use sinks::EventSink;
pub use tapes::{Effect, Effects, Next, Origin, Segment, Segments, Tape};
