//! Modules in which types, functions and globals get other numbers: their bodies, functions, exports and element
//! segments, with each index replaced by the number of what it names. Each takes one pass.
#![tactic(auto)]

pub mod elems;
pub mod exports;
pub mod funcs;
pub mod numbering;

pub use base::NoMemory;
pub use elems::{numbers_of, renamed_elems};
pub use exports::renamed_exports;
pub use funcs::{renamed_body, renamed_funcs};
pub use numbering::{Numbering, renamed_start};
