//! Functions of several instances in one run, as definitions: what the indices of a module name in a run, the step that
//! looks this up when it executes an instruction, the run of a module with functions of the host besides its imports,
//! and the module in which these functions are imports.
#![tactic(auto)]

pub mod decls;
pub mod sides;

pub use decls::{Decl, Decls};
pub use sides::Side;
