//! Parts of an instantiation (Core 1.0, 4.5.4): values of constant expressions, limits of memory and
//! table.
#![tactic(auto)]

mod constants;
mod laws;
mod limits;

pub use base::NoMemory;
pub use constants::{all_globals, offset_of};
pub use laws::instantiated_parts;
pub use limits::{memory_limits, table_limits};
