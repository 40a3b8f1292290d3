//! The linked module of two modules, of which each may import what the other exports, or why they do not link. It has
//! the types, functions and all else of both modules, with each index of both resolved.
#![tactic(auto)]

mod constants;
mod exports;
mod funcs;
mod global_constants;
mod globals;
mod imports;
mod kept;
mod link;
mod linked;
mod numbers;
mod pair_numbers;
mod segments;

pub use link::{Maps, Pair, link_pair};
pub use pair_spec::PairFault;
