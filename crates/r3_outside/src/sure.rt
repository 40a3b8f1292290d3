// Files and a sink in memory that never fail.

ghost use Rattle.std.specs.Prelude.{◌≡◌, ℕ, ◌<◌, ◌≤◌, List, [], ◌++◌, length, Option, Some, OnOk, OnErr, IfOk};
ghost use Rattle.std.specs.Option.{option_copied};
ghost use Rattle.std.specs.FinMap as map;
ghost use Rattle.r3_outside.specs.Count.{NoneFell, saturating_add};
ghost use Rattle.r3_outside.specs.Contents.{FileMap, file_bytes, piece_length, IsPiece};
ghost use Rattle.r3_outside.specs.Growth.{Grew};
ghost use Rattle.r3_outside.specs.NameCounts.{no_counts, count_of, IsCountedFor};

use crate::counts::Counts;
use crate::table::{Table, copy_piece};
use crate::{Failed, Files, NoMemory, Sink};
use std::alloc::Global;
use std::marker::Model;

/// Files in memory that never fail. An unknown name is read as an empty file.
#[derive(Drop)]
pub struct SureFiles {
    table: Table,
    taken: Counts,
}

impl Model for SureFiles {
    ghost use Rattle.r3_outside.specs.Stores.{SureStore, sure_store_code};

    ghost Value = { SureStore };

    ghost coded = { sure_store_code };

    ghost view = { λ s. record { files = s.table; taken = s.taken } };
}

impl SureFiles {
    /// No files yet. Takes no memory.
    pub fn new(alloc: Global) -> SureFiles
        ensures { result ≡ record { files = map.empty; taken = no_counts } }
    {
        SureFiles {
            table: Table::new(alloc),
            taken: Counts::new(alloc),
        }
    }

    /// Adds a file, which replaces one of the same name.
    ///
    /// # Errors
    ///
    /// `NoMemory` if memory runs out; the files are then as they were.
    pub fn add(&mut self, name: &str, bytes: &[u8]) -> Result<(), NoMemory>
        ensures ok { OnOk result
            (self.new ≡ record self.old { files = map.insert self.old.files name.now bytes.now }) }
        ensures err { OnErr result (self.new ≡ self.old) }
    {
        self.table.insert(name, bytes)
    }
}

impl Files for SureFiles {
    ghost contents = { λ s. Some s.files };

    ghost faults = { λ _ _. 0 };

    ghost taken = { λ s. count_of s.taken };

    fn read_at(&mut self, name: &str, at: u64, into: &mut [u8]) -> Result<usize, Failed>
        requires { 0 < length into.old }
        ensures count { result ≡ Ok (piece_length (file_bytes self.old.files name.now) at (length into.new)) }
        ensures bytes_counted { IfOk result (λ k. IsCountedFor name.now k self.old.taken self.new.taken) }
        ensures byte_count { IfOk result
            (λ k. count_of self.new.taken name.now ≡ saturating_add (count_of self.old.taken name.now) k) }
        ensures contents_unchanged { self.new.files ≡ self.old.files }
        ensures taken_never_falls { NoneFell (count_of self.old.taken) (count_of self.new.taken) }
        ensures piece { IfOk result (λ k. IsPiece (file_bytes self.old.files name.now) at k into.new) }
    {
        let bytes = self.table.get(name).unwrap_or(&[]);
        let count = copy_piece(bytes, at, into);
        self.taken.add(name, count as u64);
        Ok(count)
    }
}

/// A sink in memory that never fails. If memory runs out, it drops its bytes and no longer shows
/// them.
#[derive(Drop)]
pub struct SureSink {
    bytes: Option<Vec<u8>>,
}

impl Model for SureSink {
    ghost use Rattle.std.specs.Prelude.{ℕ, List, Option};
    ghost use Rattle.std.specs.Option.{option_map};

    ghost Value = { Option (List ℕ) };

    ghost view = { λ s. option_map (λ bytes. bytes.items) s.bytes };
}

impl SureSink {
    /// A sink to which nothing was written yet. Takes no memory.
    pub fn new(alloc: Global) -> SureSink
        ensures { result ≡ Some [] }
    {
        SureSink {
            bytes: Some(Vec::new(alloc)),
        }
    }

    /// All bytes that were written, unless there was no memory for them.
    pub fn bytes(&self) -> Option<&[u8]>
        ensures { option_copied result ≡ self.now }
    {
        match &self.bytes {
            Some(bytes) => Some(bytes.as_slice()),
            None => None,
        }
    }
}

impl Sink for SureSink {
    ghost written = { λ s. s };

    ghost faults = { λ _. 0 };

    fn write(&mut self, piece: &[u8]) -> Result<usize, Failed>
        requires { 0 < length piece.now }
        ensures count { result ≡ Ok (length piece.now) }
        ensures wrote { Grew self.old self.new piece.now }
    {
        if let Some(bytes) = &mut self.bytes {
            if bytes.extend_from_slice(piece).is_err() {
                self.bytes = None;
            }
        }
        Ok(piece.len())
    }
}
