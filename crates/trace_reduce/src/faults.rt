// Why there is no tape.

use thiserror::Error;

/// Why a log has no tape, or why its tape is not known.
#[derive(Clone, Copy, PartialEq, Eq, Debug, Error)]
pub enum ReduceFault {
    /// The first unbalanced event; the number of events if only the outcome is unbalanced.
    #[error("unbalanced: event {event}")]
    Unbalanced { event: u64 },
    /// Out of memory.
    #[error("out of memory")]
    Memory,
}

/// Why there is no tape that is light enough, or why it is not known.
#[derive(Clone, Copy, PartialEq, Eq, Debug, Error)]
pub enum ReducerFault {
    /// The first unbalanced event; the number of events if only the outcome is unbalanced.
    #[error("unbalanced: event {event}")]
    Unbalanced { event: u64 },
    /// The weight of the tape, which is too heavy; 2^64 - 1 if the weight is more.
    #[error("too heavy: {weight}")]
    TooHeavy { weight: u64 },
    /// Out of memory.
    #[error("out of memory")]
    Memory,
}
