//! The order of hook calls: which call may come next, and the state after each call.
#![tactic(auto)]

mod access;
mod args;
mod calls;
mod frameless_calls;
mod frames;
mod hook_values;
mod order;
mod shape;
mod types;

pub use access::{Access, EntryCall, ReportedGlobal};
pub use base::NoMemory;
pub use order::Order;
pub use shape::Shape;
