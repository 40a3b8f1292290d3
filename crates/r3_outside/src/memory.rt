// Files and a sink in memory, some of whose calls fail.

ghost use Rattle.std.specs.Prelude.{◌≡◌, ℕ, ◌+◌, ◌<◌, ◌≤◌, List, [], ◌++◌, length, min, take, Some, OnOk, OnErr, IfOk, IsErr, IsTrue, ◌↔◌};
ghost use Rattle.std.specs.FinMap as map;
ghost use Rattle.r3_outside.specs.Count.{NoneFell, saturating_add};
ghost use Rattle.r3_outside.specs.Contents.{FileMap, file_bytes, piece_length, IsPiece};
ghost use Rattle.r3_outside.specs.NameCounts.{no_counts, count_of, IsCountedFor};
ghost use Rattle.r3_outside.specs.Stores.{is_failing_read, is_failing_write};

use crate::counts::Counts;
use crate::table::{Table, copy_piece};
use crate::{Failed, Files, NoMemory, Sink};
use std::alloc::Global;
use std::marker::Model;

/// Files in memory, some of whose calls fail.
///
/// The calls of `read_at` are numbered from 0. Those with a number among the failing ones return
/// `Failed`, and so does a call on an unknown name.
#[derive(Drop)]
pub struct MemFiles {
    table: Table,
    failing: Vec<u64>,
    calls: u64,
    faults: Counts,
    taken: Counts,
}

impl Model for MemFiles {
    ghost use Rattle.r3_outside.specs.Stores.{MemStore, mem_store_code};

    ghost Value = { MemStore };

    ghost coded = { mem_store_code };

    ghost view = { λ m. record {
      files = m.table;
      failing = m.failing.items;
      calls = m.calls;
      faults = m.faults;
      taken = m.taken;
    } };
}

impl MemFiles {
    /// No files yet. `failing` has the numbers of the calls that fail, in any order.
    pub fn new(alloc: Global, failing: Vec<u64>) -> MemFiles
        ensures { result ≡ record {
          files = map.empty;
          failing = failing.items;
          calls = 0;
          faults = no_counts;
          taken = no_counts;
        } }
    {
        MemFiles {
            table: Table::new(alloc),
            failing,
            calls: 0,
            faults: Counts::new(alloc),
            taken: Counts::new(alloc),
        }
    }

    /// Adds a file, which replaces one of the same name.
    ///
    /// # Errors
    ///
    /// `NoMemory` if memory runs out; the files are then as they were.
    pub fn add(&mut self, name: &str, bytes: &[u8]) -> Result<(), NoMemory>
        ensures ok { OnOk result
            (self.new ≡ record self.old { files = map.insert self.old.files name.now bytes.now }) }
        ensures err { OnErr result (self.new ≡ self.old) }
    {
        self.table.insert(name, bytes)
    }
}

impl Files for MemFiles {
    ghost contents = { λ m. Some m.files };

    ghost faults = { λ m. count_of m.faults };

    ghost taken = { λ m. count_of m.taken };

    fn read_at(&mut self, name: &str, at: u64, into: &mut [u8]) -> Result<usize, Failed>
        requires { 0 < length into.old }
        ensures fails { IsErr result ↔ IsTrue (is_failing_read self.old name.now) }
        ensures failed { OnErr result (self.new ≡ record self.old {
          calls = saturating_add self.old.calls 1;
          faults = self.new.faults;
        }) }
        ensures fault_counted { OnErr result (IsCountedFor name.now 1 self.old.faults self.new.faults) }
        ensures fault_count { OnErr result
            (count_of self.new.faults name.now ≡ saturating_add (count_of self.old.faults name.now) 1) }
        ensures took { OnOk result (self.new ≡ record self.old {
          calls = saturating_add self.old.calls 1;
          taken = self.new.taken;
        }) }
        ensures bytes_counted { IfOk result (λ k. IsCountedFor name.now k self.old.taken self.new.taken) }
        ensures byte_count { IfOk result
            (λ k. count_of self.new.taken name.now ≡ saturating_add (count_of self.old.taken name.now) k) }
        ensures faults_never_fall { NoneFell (count_of self.old.faults) (count_of self.new.faults) }
        ensures taken_never_falls { NoneFell (count_of self.old.taken) (count_of self.new.taken) }
        ensures count { IfOk result
            (λ k. k ≡ piece_length (file_bytes self.old.files name.now) at (length into.new)) }
        ensures piece { IfOk result (λ k. IsPiece (file_bytes self.old.files name.now) at k into.new) }
    {
        let is_failing = self.failing.contains(&self.calls);
        self.calls = self.calls.saturating_add(1);
        match self.table.get(name) {
            Some(bytes) if !is_failing => {
                let count = copy_piece(bytes, at, into);
                self.taken.add(name, count as u64);
                Ok(count)
            }
            _ => {
                self.faults.add(name, 1);
                Err(Failed)
            }
        }
    }
}

/// A sink in memory, some of whose calls fail.
///
/// The calls of `write` are numbered from 0. Those with a number among the failing ones return
/// `Failed`, and so does a call for whose bytes there is no memory.
#[derive(Drop)]
pub struct MemSink {
    bytes: Vec<u8>,
    most: u64,
    failing: Vec<u64>,
    calls: u64,
    faults: u64,
}

impl Model for MemSink {
    ghost use Rattle.std.specs.Prelude.{◌≤◌};
    ghost use Rattle.r3_outside.specs.Stores.{MemOutput, mem_output_code};

    ghost Value = { MemOutput };

    ghost coded = { mem_output_code };

    ghost view = { λ m. record {
      written = m.bytes.items;
      most = m.most;
      failing = m.failing.items;
      calls = m.calls;
      faults = m.faults;
    } };

    ghost invariant = { λ m. 1 ≤ m.most };
}

impl MemSink {
    /// An empty sink that takes at most `most` bytes a call. `failing` has the numbers of the
    /// calls that fail, in any order.
    pub fn new(alloc: Global, most: u64, failing: Vec<u64>) -> MemSink
        requires { 1 ≤ most }
        ensures { result ≡ record {
          written = [];
          most = most;
          failing = failing.items;
          calls = 0;
          faults = 0;
        } }
    {
        MemSink {
            bytes: Vec::new(alloc),
            most,
            failing,
            calls: 0,
            faults: 0,
        }
    }

    /// All bytes that were written.
    pub fn bytes(&self) -> &[u8]
        ensures { result.now ≡ self.now.written }
    {
        self.bytes.as_slice()
    }
}

impl Sink for MemSink {
    ghost written = { λ m. Some m.written };

    ghost faults = { λ m. m.faults };

    fn write(&mut self, piece: &[u8]) -> Result<usize, Failed>
        requires { 0 < length piece.now }
        ensures fails { IsTrue (is_failing_write self.old) → IsErr result }
        ensures failed { OnErr result (self.new ≡ record self.old {
          calls = saturating_add self.old.calls 1;
          faults = saturating_add self.old.faults 1;
        }) }
        ensures faults_never_fall { self.old.faults ≤ self.new.faults }
        ensures some { IfOk result (λ k. 0 < k) }
        ensures count { IfOk result (λ k. k ≡ min self.old.most (length piece.now)) }
        ensures wrote { IfOk result (λ k. self.new ≡ record self.old {
          written = self.old.written ++ take k piece.now;
          calls = saturating_add self.old.calls 1;
        }) }
    {
        let is_failing = self.failing.contains(&self.calls);
        self.calls = self.calls.saturating_add(1);
        let count = self.most.min(piece.len() as u64) as usize;
        if !is_failing && self.bytes.extend_from_slice(&piece[..count]).is_ok() {
            return Ok(count);
        }
        self.faults = self.faults.saturating_add(1);
        Err(Failed)
    }
}
