// The two forms of the binary format.

/// A form of the binary format: that of Core 1.0 with the sign extensions, `memory.copy` and
/// `memory.fill` of Core 2.0, or the one of replay binaries, which has a few forms of Core 2.0 besides.
#[derive(Clone, Copy, PartialEq, Eq, Debug)]
pub enum Form {
    Core,
    Replay,
}
