//! What the imports of two linked modules come to: the ends of their chains, the numbers of functions and globals, and
//! the first fault of a pair.
#![tactic(auto)]

mod ends;
mod exports;
mod faults;
mod jumps;
mod matches;
mod modules;
mod numbers;
mod seen;
mod spaces;
mod types;

pub use base::NoMemory;
pub use ends::{Ends, PairEnds, ends_in};
pub use faults::first_fault;
pub use jumps::End;
pub use modules::{LinkedModules, is_from_other};
pub use numbers::{Numbers, numbers_in};
pub use spaces::IndexSpace;
