// Why a valid module is refused.

use thiserror::Error;
use wasm_syntax::{Feature, Which};

/// Why a valid module is refused.
#[derive(Clone, Copy, PartialEq, Eq, Debug, Error)]
pub enum ProfileFault {
    /// An instruction that the profile leaves out, by the index of its function and its number in
    /// the body; `else` and `end` have no number.
    #[error("an instruction is not supported")]
    Unsupported {
        func: u32,
        number: u32,
        feature: Feature,
    },
    /// A quantity past its limit.
    #[error("a quantity is past its limit")]
    Limit {
        which: Which,
        value: u64,
    },
    /// An import that only an instrumented module has, by its place in the list of imports.
    #[error("an import is reserved")]
    Reserved {
        import: u32,
    },
}
