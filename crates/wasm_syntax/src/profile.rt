// What the accepted profile leaves out of valid modules.

/// A class of instructions that the profile refuses.
#[derive(Clone, Copy, PartialEq, Eq, Debug)]
pub enum Feature {
    FloatComparison,
    FloatArithmetic,
    FloatConversion,
}

/// A quantity of a module that the profile limits.
#[derive(Clone, Copy, PartialEq, Eq, Debug)]
pub enum Which {
    Parameters,
    Table,
    Memory,
    Locals,
}
