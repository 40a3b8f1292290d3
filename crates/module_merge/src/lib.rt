//! The replay module of a module, of a supply for its imports and of a generated part. The parts are moved and
//! not copied.
#![tactic(auto)]

mod constants;
mod globals;
mod lists;
mod modules;
mod sections;
mod segments;

pub use base::NoMemory;
pub use modules::merge;
