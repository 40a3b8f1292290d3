//! The generated part of a replay module, made of a plan.
#![tactic(auto)]

mod bodies;
mod dispatch;
mod effects;
mod fragments;
mod funcs;
mod imports;
mod parts;
mod references;
mod segments;
mod stores;

pub use base::NoMemory;
pub use bodies::import_body;
pub use dispatch::{push_dispatch_end, push_dispatch_start};
pub use fragments::generate;
pub use imports::{group, group_count};
pub use parts::{counter, one_type, push_group_type};
pub use references::mark;
pub use replay_module_spec::Fragment;
