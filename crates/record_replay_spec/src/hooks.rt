// The functions that an instrumented module imports.

/// A hook: a function that an instrumented module imports, to which it reports what it does. All hooks are imported
/// from one module, in this order, and none gives a result. Functions are reported by their indices in the original
/// module.
#[derive(Clone, Copy, PartialEq, Eq)]
pub enum Hook {
    /// A value, by its type's byte and its bits, for the next `Enter`, `Post` or `Ipost`.
    Arg,
    /// A function is entered.
    Enter,
    /// A function ends.
    Leave,
    /// A function is called by its index.
    Pre,
    /// A call of a function by its index ends.
    Post,
    /// A function is called by an index of the table.
    Ipre,
    /// A call of a function by an index of the table ends.
    Ipost,
    /// A load, by its base, offset and width in bytes.
    Load,
    /// A store, by its base, offset, width in bytes, and bits.
    Store,
    /// The memory's size is read.
    Size,
    /// A growth of the memory, by its result.
    Grow,
    /// A mutable global is read, by its index and bits.
    Gget,
    /// A global is set, by its index and bits.
    Gset,
    /// A copy of bytes, by its target, source and count.
    Copy,
    /// A fill with a byte, by its target, value and count.
    Fill,
}
