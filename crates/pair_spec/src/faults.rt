// Why two modules do not link.

use instance_spec::Side;
use thiserror::Error;

/// The first fault of a pair of modules. An import has its index among all imports of its module.
#[derive(Clone, Copy, PartialEq, Eq, Debug, Error)]
pub enum PairFault {
    /// An import from the other module has no export of its kind, or comes back to itself. Or it is an immutable global
    /// whose definition is initialised with something else than one constant.
    #[error("an import without an export")]
    Unresolved { side: Side, import: u32 },
    /// An import has another type than what it comes to, or limits that this does not match.
    #[error("an import that does not match")]
    Mismatch { side: Side, import: u32 },
    /// The linked module would have two memories.
    #[error("two memories")]
    TwoMemories,
    /// The linked module would have two tables.
    #[error("two tables")]
    TwoTables,
    /// Both modules have a start function.
    #[error("two start functions")]
    TwoStarts,
    #[error("out of memory")]
    Memory,
}
