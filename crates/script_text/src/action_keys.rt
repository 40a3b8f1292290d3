// The keys that distinguish the actions.

/// The lead key of an action.
#[derive(Clone, Copy)]
pub enum Lead {
    Write,
    Copy,
    SetTable,
    SetGlobal,
    Grow,
    GrowTable,
    Call,
    CallTable,
}
