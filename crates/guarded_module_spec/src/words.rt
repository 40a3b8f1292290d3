// How words become a digest; definitions name these from `TheConstants`.

/// The number by which a digest is multiplied for each word. It is odd, so that no two digests give the same.
pub const DIGEST_FACTOR: u64 = 0x9e37_79b9_7f4a_7c15;

/// The number of bits by which a digest is rotated for each word, so that its highest bits count too.
pub const DIGEST_ROTATION: u64 = 29;
