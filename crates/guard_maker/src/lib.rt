//! The guarded module of a replay module, computed. The functions of the replay module are moved and not copied.
#![tactic(auto)]

mod calls;
mod digests;
mod forms;
mod fronts;
mod funcs;
mod modules;
mod numbers;
mod own;
mod parts;
mod words;

pub use base::NoMemory;
pub use forms::{exports_entry_alone, is_guardable};
pub use modules::guard_of;
