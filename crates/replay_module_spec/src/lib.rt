//! Replay modules, as definitions: the plan of a tape, the functions that are generated from it, and the module
//! without imports that has them in addition to the functions of an original.
#![tactic(auto)]

pub mod fragments;
pub mod groups;
pub mod plans;

pub use fragments::Fragment;
pub use groups::GROUP_CALLS;
pub use plans::{Calls, Plan};
pub use trace_model::{Segment, Segments};
