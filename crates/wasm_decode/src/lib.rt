//! Reading modules in the binary format (Core 1.0, section 5).
#![tactic(auto)]

mod code;
mod draft;
mod expressions;
mod funcs;
mod instructions;
mod items;
mod kinds;
mod locals;
mod modules;
mod section_contents;
mod sections;
mod types;
mod values;
mod vectors;

pub use modules::{DecodeFault, decode};
