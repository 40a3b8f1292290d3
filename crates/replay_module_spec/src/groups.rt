// How the calls of an import are cut into groups; definitions name it from `TheConstants`.

/// The most calls of an import that one generated function holds.
pub const GROUP_CALLS: u32 = 256;
