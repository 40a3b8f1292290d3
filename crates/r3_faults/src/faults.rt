// Why a call ends without its job done.

ghost use Rattle.std.specs.Prelude.{◌≡◌};
ghost use Rattle.r3_faults.specs.Lines.{status_of};
ghost use Rattle.r3_faults.specs.declared.faults.Fault.TheVariants.{Memory, Write as WriteFault};

use base::NoMemory;
use history_spec::FaultKind;
use instance_spec::Side;
use r3_outside::PutFault;
use std::alloc::{AllocError, AllocFailed};
use std::error::Error;
use std::fmt;
use wasm_syntax::{Feature, Name, Which};

/// Why a call ends without its job done: one variant for each line of error, in the order of their statuses.
/// Functions, imports, segments and instructions are given by their numbers from 0 on; `at` is a number of
/// bytes, `turn` and `turns` are numbers of turns, `limit` and `value` are in the unit of what they limit.
#[derive(Drop)]
pub enum Fault {
    /// The words are not a listed call.
    Usage,
    /// A read of a file failed.
    Read {
        name: Name,
    },
    /// A file is longer than its limit.
    TooLong {
        name: Name,
        limit: u64,
    },
    /// The bytes do not encode a module.
    Malformed {
        at: u64,
    },
    /// A function's body is not well typed.
    InvalidFunction {
        func: u64,
    },
    /// The module is invalid outside of its bodies.
    InvalidModule,
    /// An instruction that is not supported.
    Unsupported {
        func: u64,
        number: u64,
        feature: Feature,
    },
    /// A quantity is past its limit.
    Limit {
        which: Which,
        value: u64,
    },
    /// An import from a module whose name is reserved.
    Reserved {
        import: u64,
    },
    /// The script is not a JSON text.
    NotJson,
    /// A value of the script has a wrong form.
    Shape {
        path: Name,
    },
    /// The script uses an unknown name.
    UnknownName {
        name: Name,
    },
    /// A value of the script has a wrong type.
    WrongType {
        name: Name,
    },
    /// The script uses what the module does not share.
    NoAccess {
        name: Name,
    },
    /// The script calls an import.
    CallsOwn {
        name: Name,
    },
    /// An import is not supplied.
    Missing {
        import: u64,
    },
    /// The supply for an import does not match it.
    Mismatch {
        import: u64,
    },
    /// A segment does not fit into its table or memory.
    Segment {
        number: u64,
    },
    /// The host cannot do what the script says.
    Script {
        turn: u64,
        kind: FaultKind,
    },
    /// All turns are used.
    Spent {
        turns: u64,
    },
    /// A write failed.
    Write,
    /// Out of memory.
    Memory,
    /// A file does not encode a log or a tape.
    BadTrace {
        at: u64,
    },
    /// The version of a log's or a tape's file is not known.
    TraceVersion {
        found: u64,
    },
    /// The tape is of another module: the digest in the tape, and that of the given module.
    OtherModule {
        tape: [u8; 32],
        given: [u8; 32],
    },
    /// The module does not have the form of an instrumented one.
    NotHooked,
    /// A hook is called out of order.
    HookOrder {
        number: u64,
    },
    /// An event of the log, or its outcome, is not allowed.
    Unbalanced {
        event: u64,
    },
    /// A segment of the tape does not fit the module.
    Unfit {
        segment: u64,
    },
    /// The module has no layout of a replay module.
    NoLayout,
    /// The replay module has an import.
    NoImports,
    /// The replay module does not export exactly its entry.
    NoEntry,
    /// The tape weighs more than it may.
    TapeLimit {
        weight: u64,
    },
    /// The declarations are not a JSON text.
    DeclNotJson,
    /// A value of the declarations has a wrong form.
    DeclShape {
        path: Name,
    },
    /// The module imports from `foreign`, where the declared functions have their place.
    DeclReserved {
        import: u64,
    },
    /// A declared name is that of an export or of an earlier declaration.
    DeclTaken {
        name: Name,
    },
    /// An import of one module of a pair has no export of the other module for it.
    PairUnresolved {
        side: Side,
        import: u64,
    },
    /// An import of one module of a pair does not match what it stands for.
    PairMismatch {
        side: Side,
        import: u64,
    },
    /// A pair has two memories.
    TwoMemories,
    /// A pair has two tables.
    TwoTables,
    /// Both modules of a pair have a start function.
    TwoStarts,
    /// The run has `calls` top-level calls, and call `k`, from 0 on, is none of them.
    NoCall {
        k: u64,
        calls: u64,
    },
    /// The instrumented module is too long for a file of one.
    HookedLimit,
}

// A failed test prints the variant. The program prints a fault by its line; a derived implementation would need
// a proof for each variant.
impl fmt::Debug for Fault {
    fn fmt<W: fmt::Write>(&self, f: &mut fmt::Formatter<W>) -> fmt::Result {
        let status = self.status();
        write!(f, "a fault of status {status}")
    }
}

impl fmt::Display for Fault {
    fn fmt<W: fmt::Write>(&self, f: &mut fmt::Formatter<W>) -> fmt::Result {
        let status = self.status();
        write!(f, "a fault of status {status}")
    }
}

impl Error for Fault {}

impl From<NoMemory> for Fault {
    ghost from_gives = { λ _ fault. fault ≡ Memory };

    fn from(_refused: NoMemory) -> Fault {
        Fault::Memory
    }
}

impl From<AllocError> for Fault {
    ghost from_gives = { λ _ fault. fault ≡ Memory };

    fn from(_refused: AllocError) -> Fault {
        Fault::Memory
    }
}

impl<T: Drop> From<AllocFailed<T>> for Fault {
    ghost from_gives = { λ _ fault. fault ≡ Memory };

    fn from(_refused: AllocFailed<T>) -> Fault {
        Fault::Memory
    }
}

impl From<PutFault> for Fault {
    ghost from_gives = { λ _ fault. fault ≡ WriteFault };

    fn from(_failed: PutFault) -> Fault {
        Fault::Write
    }
}

impl Fault {
    /// The status that the program ends with.
    pub fn status(&self) -> u8
        ensures { result ≡ status_of self.now }
    {
        match self {
            Fault::Usage => 2,
            Fault::Read { .. } => 3,
            Fault::TooLong { .. } => 4,
            Fault::Malformed { .. } => 5,
            Fault::InvalidFunction { .. } | Fault::InvalidModule => 6,
            Fault::Unsupported { .. } => 7,
            Fault::Limit { .. } | Fault::Reserved { .. } => 8,
            Fault::NotJson
            | Fault::Shape { .. }
            | Fault::UnknownName { .. }
            | Fault::WrongType { .. }
            | Fault::NoAccess { .. }
            | Fault::CallsOwn { .. } => 9,
            Fault::Missing { .. } | Fault::Mismatch { .. } | Fault::Segment { .. } => 10,
            Fault::Script { .. } => 11,
            Fault::Spent { .. } => 12,
            Fault::Write => 13,
            Fault::Memory => 14,
            Fault::BadTrace { .. } | Fault::TraceVersion { .. } => 15,
            Fault::OtherModule { .. } => 16,
            Fault::NotHooked
            | Fault::HookOrder { .. }
            | Fault::Unbalanced { .. }
            | Fault::Unfit { .. }
            | Fault::NoLayout
            | Fault::NoImports
            | Fault::NoEntry => 17,
            Fault::TapeLimit { .. } => 18,
            Fault::DeclNotJson
            | Fault::DeclShape { .. }
            | Fault::DeclReserved { .. }
            | Fault::DeclTaken { .. } => 20,
            Fault::PairUnresolved { .. }
            | Fault::PairMismatch { .. }
            | Fault::TwoMemories
            | Fault::TwoTables
            | Fault::TwoStarts => 21,
            Fault::NoCall { .. } => 22,
            Fault::HookedLimit => 23,
        }
    }
}
