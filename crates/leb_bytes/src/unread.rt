//! Why nothing was read, for readers of the crates above.

ghost use Rattle.std.specs.Prelude.{◌≡◌};
ghost use Rattle.leb_bytes.specs.declared.unread.Unread.TheVariants.{NotThere, Memory};

use crate::read::BadLeb;
use base::NoMemory;
use std::alloc::{AllocError, AllocFailed};

/// Why a reader read nothing.
#[derive(Clone, Copy, PartialEq, Eq, Debug)]
pub enum Unread {
    /// No front of the bytes encodes what was looked for.
    NotThere,
    /// Out of memory.
    Memory,
}

impl From<BadLeb> for Unread {
    ghost from_gives = { λ _ unread. unread ≡ NotThere };

    fn from(_bad: BadLeb) -> Unread {
        Unread::NotThere
    }
}

impl From<NoMemory> for Unread {
    ghost from_gives = { λ _ unread. unread ≡ Memory };

    fn from(_refused: NoMemory) -> Unread {
        Unread::Memory
    }
}

impl From<AllocError> for Unread {
    ghost from_gives = { λ _ unread. unread ≡ Memory };

    fn from(_refused: AllocError) -> Unread {
        Unread::Memory
    }
}

impl<T: Drop> From<AllocFailed<T>> for Unread {
    ghost from_gives = { λ _ unread. unread ≡ Memory };

    fn from(_refused: AllocFailed<T>) -> Unread {
        Unread::Memory
    }
}
