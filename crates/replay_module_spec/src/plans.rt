// What the host of a replay does, activation by activation.

use trace_model::Segments;
use wasm_syntax::List;

/// What the host does in its own work, and in each call of an import.
#[derive(Drop)]
pub struct Plan {
    /// The segments of the host's own work, by time.
    pub begin: Segments,
    /// The calls of each imported function.
    pub imports: Calls,
}

/// The calls of each imported function, in the order in which they begin; each call has its segments by time.
pub type Calls = List<List<Segments>>;
