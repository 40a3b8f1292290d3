// The jobs of the program.

/// A job of the program: a command with its files and its numbers, in the sequence of the words. `B` is the name of a
/// file before the files are loaded, and then its bytes.
#[derive(Drop)]
pub(crate) enum Job<B> {
    Make {
        module: B,
        script: B,
        turns: u64,
    },
    Instrument {
        module: B,
    },
    Record {
        hooked: B,
        script: B,
        turns: u64,
    },
    Reduce {
        log: B,
    },
    Build {
        module: B,
        script: B,
        tape: B,
    },
    History {
        module: B,
        script: B,
        turns: u64,
    },
    Replay {
        binary: B,
        turns: u64,
    },
    Show {
        trace: B,
    },
    Load {
        calls: u32,
    },
    Foreign {
        module: B,
        decls: B,
        script: B,
        turns: u64,
    },
    ForeignHistory {
        module: B,
        decls: B,
        script: B,
        turns: u64,
    },
    Pair {
        left: B,
        right: B,
        script: B,
        turns: u64,
    },
    PairHistory {
        left: B,
        right: B,
        script: B,
        turns: u64,
    },
    From {
        module: B,
        script: B,
        turns: u64,
        call: u32,
    },
}
