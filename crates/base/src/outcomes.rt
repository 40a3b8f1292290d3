// The outcome of a run.

/// How a run ends: the host's work is done, or the first trap is the module's or the host's.
#[derive(Clone, Copy, PartialEq, Eq, Debug)]
pub enum Outcome {
    Ended,
    Trapped,
    HostTrapped,
}
