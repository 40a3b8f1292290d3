//! Foreign functions: functions of the host that a module does not import, and that a run may call through the module's
//! table. A widened module is the module in which they are imports.
#![tactic(auto)]

mod declared;
mod numbers;
mod widened;

pub use base::NoMemory;
pub use instance_spec::{Decl, Decls};
pub use widened::widen;
