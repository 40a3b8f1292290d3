// How many imports of each index space come before an import.

ghost use Rattle.std.specs.Prelude.{◌≡◌, ◌<◌, ◌^◌};
ghost use Rattle.pair_ends.specs.Faults.{no_seen, seen_on, with_seen};

use crate::spaces::IndexSpace;

/// How many imports there were so far, by their index spaces.
#[derive(Clone, Copy)]
pub(crate) struct Seen {
    funcs: usize,
    tables: usize,
    memories: usize,
    globals: usize,
}

impl Seen {
    /// None so far.
    pub(crate) fn new() -> Seen
        ensures { result ≡ no_seen }
    {
        Seen {
            funcs: 0,
            tables: 0,
            memories: 0,
            globals: 0,
        }
    }

    /// How many there were in a space.
    pub(crate) fn on(self, space: IndexSpace) -> usize
        ensures { result ≡ seen_on self space }
    {
        match space {
            IndexSpace::Funcs => self.funcs,
            IndexSpace::Tables => self.tables,
            IndexSpace::Memories => self.memories,
            IndexSpace::Globals => self.globals,
        }
    }

    /// One more in a space.
    pub(crate) fn with(mut self, space: IndexSpace) -> Seen
        requires { seen_on self space < 2 ^ 32 }
        ensures { result ≡ with_seen self space }
    {
        match space {
            IndexSpace::Funcs => self.funcs += 1,
            IndexSpace::Tables => self.tables += 1,
            IndexSpace::Memories => self.memories += 1,
            IndexSpace::Globals => self.globals += 1,
        }
        self
    }
}
