// Why an access is refused.

use thiserror::Error;

/// A range of bytes passes the memory's length.
#[derive(Clone, Copy, PartialEq, Eq, Debug, Error)]
#[error("outside of the memory")]
pub struct OutOfBounds;

/// An index is not below the table's size.
#[derive(Clone, Copy, PartialEq, Eq, Debug, Error)]
#[error("outside of the table")]
pub struct OutOfTable;
