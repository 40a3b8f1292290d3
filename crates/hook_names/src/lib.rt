//! Hooks as a run calls them: what takes their calls, what a call sees of the store, and the indices of
//! functions in an instrumented module.
#![tactic(auto)]

mod hooks;
mod indices;
mod view;

pub use hooks::{HookFault, Hooks, NoHooks};
pub use indices::{HOOK_COUNT, HOOKS, original, renumber};
pub use record_replay_spec::Hook;
pub use view::View;
