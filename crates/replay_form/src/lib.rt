//! What a replay module declares of its original, and the function that it exports.
#![tactic(auto)]

mod entry_functions;
mod laws;
mod layouts;

pub use entry_functions::entry_of;
pub use laws::layouts_are_one;
pub use layouts::{Layout, Side, layout_of};
