//! Validation of modules (Core 1.0, section 3, and its appendix 7.3).
#![tactic(auto)]

mod body;
mod changes;
mod checked;
mod export_names;
mod func_scope;
mod funcs;
mod operands;
mod outside;
mod stacks;
mod whole;

pub use base::NoMemory;
pub use checked::Checked;
pub use whole::{InvalidFault, validate};
