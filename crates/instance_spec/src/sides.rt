// The modules of a linked pair.

/// One of the two modules of a pair.
#[derive(Clone, Copy, PartialEq, Eq, Debug)]
pub enum Side {
    Left,
    Right,
}
