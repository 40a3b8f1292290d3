// The limits of what is read, run and printed; clauses and definitions name them from `TheConstants`.

/// The most bytes of a module or of a script.
pub const MAX_FILE_BYTES: u64 = 8_388_608;

/// The most bytes of the encoding of a module whose run is recorded: a module from a file, or one that is made from
/// the modules and declarations of files.
pub const MAX_ORIGINAL_BYTES: u64 = 67_108_864;

/// The most bytes of an instrumented module.
pub const MAX_INSTRUMENTED_BYTES: u64 = 134_217_728;

/// The most bytes of a log or of a tape.
pub const MAX_TRACE_BYTES: u64 = 268_435_456;

/// The most bytes of a replay module, and of any file.
pub const MAX_REPLAY_BYTES: u64 = 536_870_912;

/// The most parameters of a function type.
pub const MAX_PARAMETERS: u32 = 1_000;

/// The most locals of a function, its parameters left out.
pub const MAX_LOCALS: u32 = 50_000;

/// The most locals of a function in an instrumented module, which has five more.
pub const MAX_LOCALS_HOOKED: u32 = 50_005;

/// The most entries that a table may begin with or grow to.
pub const MAX_ENTRIES: u32 = 1_000_000;

/// The most pages that a memory may begin with or grow to.
pub const MAX_PAGES: u32 = 4_096;

/// The most pages that the limits of a valid memory may declare (Core 1.0, 3.2.4).
pub const MAX_DECLARED_PAGES: u32 = 65_536;

/// The bytes of a page (Core 1.0, 4.2.8).
pub const PAGE_SIZE: u32 = 65_536;

/// The most turns of a run.
pub const MAX_TURNS: u64 = 1_000_000_000;

/// The most turns of a run whose history is printed.
pub const MAX_HISTORY_TURNS: u64 = 2_000_000;

/// The most turns of a run whose log is printed, and of the run of a replay module.
pub const MAX_RECORD_TURNS: u64 = 20_000_000;

/// The turns within which a load is run.
pub const LOAD_TURNS: u64 = 2_000_000;

/// The most calls of an import in a load.
pub const MAX_LOAD_CALLS: u32 = 60_000;

/// The most that the tape of a replay module weighs.
pub const MAX_TAPE_WEIGHT: u64 = 2_000_000;
