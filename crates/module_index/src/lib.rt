//! What is looked up in a module, valid or not: its index spaces, the locals of a function, the
//! types of opcodes and of values.
#![tactic(auto)]

mod index;
pub mod locals;
mod marks;
pub mod opcodes;
pub mod scope;
mod types;

pub use base::NoMemory;
pub use opcodes::is_aligned;
pub use types::{is_number, is_value, result_of, same_type};
