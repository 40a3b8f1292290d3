// Files by name, in memory.

ghost use Rattle.std.specs.Prelude.{◌≡◌, ℕ, ◌<◌, List, length, OnOk, OnErr};
ghost use Rattle.std.specs.Option.{option_copied};
ghost use Rattle.std.specs.FinMap as map;
ghost use Rattle.r3_outside.specs.Contents.{piece_length, IsPiece};

use crate::NoMemory;
use std::alloc::Global;
use std::collections::BTreeMap;
use std::marker::Model;

/// Bytes under names.
#[derive(Drop)]
pub(crate) struct Table {
    alloc: Global,
    files: BTreeMap<String, Vec<u8>>,
}

impl Model for Table {
    ghost use Rattle.r3_outside.specs.Contents.{FileMap};
    ghost use Rattle.r3_outside.specs.Stores.{file_map_code, by_name};

    ghost Value = { FileMap };

    ghost coded = { file_map_code };

    ghost view = { λ table. by_name (λ bytes. bytes.items) table.files.entries };
}

impl Table {
    /// No files. Takes no memory.
    pub(crate) fn new(alloc: Global) -> Table
        ensures { result ≡ map.empty }
    {
        Table {
            alloc,
            files: BTreeMap::new(alloc),
        }
    }

    /// Puts bytes under a name, instead of any earlier ones. If memory runs out the
    /// table is as it was.
    pub(crate) fn insert(&mut self, name: &str, bytes: &[u8]) -> Result<(), NoMemory>
        ensures ok { OnOk result (self.new ≡ map.insert self.old name.now bytes.now) }
        ensures err { OnErr result (self.new ≡ self.old) }
    {
        let name = String::from_str(self.alloc, name)?;
        let bytes = Vec::from_slice(self.alloc, bytes)?;
        self.files.insert(name, bytes)?;
        Ok(())
    }

    /// The bytes under a name; None if the name is unknown.
    pub(crate) fn get(&self, name: &str) -> Option<&[u8]>
        ensures { option_copied result ≡ map.get self.now name.now }
    {
        match self.files.get(name) {
            Some(bytes) => Some(bytes.as_slice()),
            None => None,
        }
    }
}

/// Copies the bytes from `at` on to the front of `into`, as many as there is room for, and
/// returns how many bytes these are.
pub(crate) fn copy_piece(bytes: &[u8], at: u64, into: &mut [u8]) -> usize
    requires { 0 < length into.old }
    ensures count { result ≡ piece_length bytes.now at (length into.old) }
    ensures piece { IsPiece bytes.now at result into.new }
{
    let start = at.min(bytes.len() as u64) as usize;
    let rest = &bytes[start..];
    let count = into.len().min(rest.len());
    into[..count].copy_from_slice(&rest[..count]);
    count
}
