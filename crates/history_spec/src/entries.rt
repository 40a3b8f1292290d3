// The entries of a history.

use thiserror::Error;
use wasm_syntax::{List, Vals};

/// One entry of a history. Functions are named by their indices, and an instruction by its number
/// in its body: the number of instructions other than `else` and `end` before it.
#[derive(Debug, Drop)]
pub enum Entry {
    /// The host calls a function of the module.
    HostCall {
        func: u32,
        args: Vals,
    },
    /// A function that the host called returns to the host.
    HostReturn {
        func: u32,
        results: Vals,
    },
    /// The module calls an import.
    ImportCall {
        import: u32,
        args: Vals,
    },
    /// The host returns from a call of an import.
    ImportReturn {
        import: u32,
        results: Vals,
    },
    /// The module enters a defined function that it called itself.
    Enter {
        func: u32,
    },
    /// A function that the module called returns to the module.
    Exit {
        func: u32,
        results: Vals,
    },
    /// An instruction: its operands, its results, and what it finds. `found` is the function that a
    /// `call_indirect` finds, or the memory's size in pages that a `memory.grow` finds.
    Step {
        func: u32,
        number: u32,
        operands: Vals,
        results: Vals,
        found: Option<u32>,
    },
    /// An instruction that traps. `found` is the memory's size in pages or the table's size if
    /// an access passes it, or the function if its type is another.
    Trap {
        func: u32,
        number: u32,
        kind: TrapKind,
        operands: Vals,
        found: Option<u32>,
    },
    /// The host traps instead of returning.
    HostTrap,
}

/// Why an instruction traps.
#[derive(Clone, Copy, PartialEq, Eq, Debug)]
pub enum TrapKind {
    Unreachable,
    DivideByZero,
    Overflow,
    Memory,
    Table,
    Empty,
    Signature,
}

/// Why the host cannot do what its script says.
#[derive(Clone, Copy, PartialEq, Eq, Debug, Error)]
pub enum FaultKind {
    /// The script has no answer for this call.
    #[error("no response")]
    NoResponse,
    /// A range of bytes passes the memory's length.
    #[error("outside")]
    Outside,
    /// A table index is not below the table's size.
    #[error("table outside")]
    TableOutside,
    /// The memory or the table cannot grow so far.
    #[error("grow refused")]
    GrowRefused,
    /// The table entry to be called is empty.
    #[error("empty entry")]
    EmptyEntry,
    /// The table entry to be called holds one of the host's own functions.
    #[error("calls own")]
    CallsOwn,
    /// The arguments do not fit the function that the table entry holds.
    #[error("entry type")]
    EntryType,
}

/// The entries of a history, or of a part of it, one after another.
pub type Entries = List<Entry>;
