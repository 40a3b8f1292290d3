//! The world outside: files that are read and sinks that are written, as traits with meanings,
//! and what reads a whole file or writes a whole list over any of them.
#![tactic(auto)]

ghost use Rattle.std.specs.Prelude.{◌≡◌, ℕ, ◌<◌, ◌≤◌, List, length, take, Option, OnOk, OnErr, IfOk};
ghost use Rattle.std.specs.Option.{ForSome};
ghost use Rattle.r3_outside.specs.Count.{Rose, NoneFell, saturating_add};
ghost use Rattle.r3_outside.specs.Contents.{FileMap, file_bytes, IsPiece};
ghost use Rattle.r3_outside.specs.Growth.{Grew};

use thiserror::Error;

mod byte_writer;
mod counts;
mod file_reader;
mod memory;
mod sure;
mod system;
mod table;

pub use base::NoMemory;
pub use byte_writer::{PutFault, put_all, put_parts};
pub use file_reader::{LoadFault, load};
pub use memory::{MemFiles, MemSink};
pub use sure::{SureFiles, SureSink};
pub use system::{DiskFiles, StdSink};

/// A call on the world outside failed. The count of faults rose; for files, that of the name.
#[derive(Clone, Copy, PartialEq, Eq, Debug, Error)]
#[error("a read or a write failed")]
pub struct Failed;

/// Files that are read by name and place.
pub trait Files {
    // The bytes under each name, if these files show them.
    ghost contents: { Self → Option FileMap };

    // How many calls on each name failed.
    ghost faults: { Self → List ℕ → ℕ };

    // How many bytes were taken from the file of each name.
    ghost taken: { Self → List ℕ → ℕ };

    /// Reads at most `into.len()` bytes of a file, from its byte `at` on (counted from 0), into the
    /// front of `into`, and returns how many. It reads 0 bytes only if there is no byte at `at`.
    ///
    /// # Errors
    ///
    /// `Failed` if the read failed; `into` may then hold any bytes.
    fn read_at(&mut self, name: &str, at: u64, into: &mut [u8]) -> Result<usize, Failed>
        requires { 0 < length into.old }

        ensures contents_unchanged { contents self.new ≡ contents self.old }

        // If there is no memory for a name, what is counted for it may count for others too.
        ensures faults_never_fall { NoneFell (faults self.old) (faults self.new) }
        ensures failed { OnErr result (Rose (faults self.old name.now) (faults self.new name.now)) }
        ensures failed_none { OnOk result ((other : List ℕ) → faults self.new other ≡ faults self.old other) }

        ensures taken_never_falls { NoneFell (taken self.old) (taken self.new) }
        ensures took { IfOk result
            (λ k. taken self.new name.now ≡ saturating_add (taken self.old name.now) k) }
        ensures took_none { OnErr result ((other : List ℕ) → taken self.new other ≡ taken self.old other) }

        ensures within_buffer { IfOk result (λ k. k ≤ length into.new) }
        // An unknown name is read as an empty file, if the read does not fail.
        ensures piece { IfOk result (λ k. ForSome (contents self.old)
            (λ files. IsPiece (file_bytes files name.now) at k into.new)) };
}

/// Where bytes are written, one after the other.
pub trait Sink {
    // All bytes that were written, if this sink shows them.
    ghost written: { Self → Option (List ℕ) };

    // How many calls failed.
    ghost faults: { Self → ℕ };

    /// Writes the first bytes of `piece`, at least one, and returns how many.
    ///
    /// # Errors
    ///
    /// `Failed` if the write failed; nothing of `piece` is then written.
    fn write(&mut self, piece: &[u8]) -> Result<usize, Failed>
        requires { 0 < length piece.now }

        ensures faults_never_fall { faults self.old ≤ faults self.new }
        ensures failed { OnErr result (Rose (faults self.old) (faults self.new)) }
        ensures failed_none { OnOk result (faults self.new ≡ faults self.old) }

        ensures some { IfOk result (λ k. 0 < k) }
        ensures within_piece { IfOk result (λ k. k ≤ length piece.now) }
        ensures wrote { IfOk result (λ k. Grew (written self.old) (written self.new) (take k piece.now)) }
        ensures wrote_none { OnErr result (written self.new ≡ written self.old) };
}
