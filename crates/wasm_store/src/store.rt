// The store of a run.

ghost use Rattle.std.specs.Prelude.{◌≡◌, ℕ, ◌+◌, ◌*◌, ◌^◌, ◌<◌, ◌≤◌, List, length, Option, Some, None, IsTrue, IfOk, OnOk, OnErr, IfSome, IfNone, IsSome, OnSome, ◌&&◌, nat_le, is_some, option_map, slice_get};
ghost use Rattle.wasm_syntax.specs.declared.limits.TheConstants.{MAX_ENTRIES, MAX_PAGES, PAGE_SIZE};
ghost use Rattle.host_script.specs.Supply.{is_within};
ghost use Rattle.history_spec.specs.Store.{bytes_of, with_global};
ghost use Rattle.history_spec.specs.Instantiation.{new_memory, new_table};
ghost use Rattle.wasm_store.specs.Parts.{maximum_of, minimum_of, size_if};
ghost use Rattle.wasm_store.specs.Calls as calls;

use crate::bounds::{OutOfBounds, OutOfTable};
use crate::{bytes, table};
use base::NoMemory;
use std::alloc::Global;
use std::marker::Model;
use wasm_syntax::limits::{MAX_ENTRIES, MAX_PAGES, PAGE_SIZE};
use wasm_syntax::{Limits, Val};

/// A memory, a table and globals (Core 1.0, 4.2.3). The memory and the table may be absent.
#[derive(Drop)]
pub struct Store {
    bytes: Vec<u8>,
    pages: u32,
    memory: Option<Limits>,
    entries: Vec<Option<u32>>,
    table: Option<Limits>,
    globals: Vec<Val>,
}

impl Model for Store {
    ghost use Rattle.history_spec.specs.Store as model;
    ghost use Rattle.wasm_store.specs.Parts.{store_of, IsSized};

    ghost Value = { model.Store };

    ghost view = { λ s. store_of s.bytes.items s.memory s.entries.items s.table s.globals.items };

    ghost invariant = { λ s. IsSized s.bytes.items s.pages s.memory s.entries.items s.table };
}

/// The number of pages or entries at first.
fn minimum(limits: Option<Limits>) -> u32
    ensures { result ≡ minimum_of limits }
{
    match limits {
        Some(limits) => limits.min,
        None => 0,
    }
}

/// The number of bytes of a number of pages (Core 1.0, 4.2.8).
fn byte_count(pages: u32) -> usize
    requires { pages ≤ MAX_PAGES }
    ensures { result ≡ pages * PAGE_SIZE }
{
    pages as usize * PAGE_SIZE as usize
}

/// The most pages or entries by these limits. None if they name no maximum.
fn maximum(limits: Option<Limits>) -> Option<u32>
    ensures { result ≡ maximum_of limits }
{
    match limits {
        Some(limits) => limits.max,
        None => None,
    }
}

/// The size of a memory or a table with `by` pages or entries more, unless its maximum or
/// the most of any memory or table forbids it.
fn grown_size(size: u32, by: u32, max: Option<u32>, most: u32) -> Option<u32>
    ensures { let grown = size + by
        in result ≡ size_if (is_within grown max && nat_le grown most) grown }
{
    let grown = size.checked_add(by)?;
    let is_within = match max {
        Some(max) => grown <= max,
        None => true,
    };
    if is_within && grown <= most {
        Some(grown)
    } else {
        None
    }
}

impl Store {
    /// The store of zeros and empty entries, with the minimum of pages and of entries, and with
    /// these globals (Core 1.0, 4.5.3). The minima are within the limits of this project.
    ///
    /// # Errors
    /// If an allocation failed.
    pub fn new(
        alloc: Global,
        pages: Option<Limits>,
        entries: Option<Limits>,
        globals: Vec<Val>,
    ) -> Result<Store, NoMemory>
        requires pages { minimum_of pages ≤ MAX_PAGES }
        requires entries { minimum_of entries ≤ MAX_ENTRIES }
        ensures { IfOk result (λ store. store ≡ record {
          memory = option_map new_memory pages;
          table = option_map new_table entries;
          globals = globals.items;
        }) }
    {
        let size = minimum(pages);
        let bytes = vec![in alloc; 0; byte_count(size)]?;
        let count = minimum(entries) as usize;
        let empty = vec![in alloc; None; count]?;
        Ok(Store {
            bytes,
            pages: size,
            memory: pages,
            entries: empty,
            table: entries,
            globals,
        })
    }

    /// An equal store.
    ///
    /// # Errors
    /// If an allocation failed.
    pub fn clone(&self) -> Result<Store, NoMemory>
        ensures { IfOk result (λ copy. copy ≡ self.now) }
    {
        let alloc = *self.bytes.allocator();
        Ok(Store {
            bytes: Vec::from_slice(alloc, self.bytes.as_slice())?,
            pages: self.pages,
            memory: self.memory,
            entries: Vec::from_slice(alloc, self.entries.as_slice())?,
            table: self.table,
            globals: Vec::from_slice(alloc, self.globals.as_slice())?,
        })
    }

    /// Whether there is a memory.
    pub fn has_memory(&self) -> bool
        ensures { result ≡ is_some self.now.memory }
    {
        self.memory.is_some()
    }

    /// The bytes of the memory, empty if there is no memory.
    pub fn bytes(&self) -> &[u8]
        ensures { result.now ≡ calls.bytes_in self.now }
    {
        self.bytes.as_slice()
    }

    /// The size of the memory in pages of 65,536 bytes, 0 if there is no memory.
    pub fn pages(&self) -> u32
        ensures size { result ≡ calls.pages_in self.now }
        ensures whole { length (calls.bytes_in self.now) ≡ result * PAGE_SIZE }
        ensures most { result ≤ MAX_PAGES }
    {
        self.pages
    }

    /// Adds pages of zeros to the memory, which exists, and returns its old size in pages (Core
    /// 1.0, 4.5.3). None, and nothing is changed, if its maximum or the most pages of any memory
    /// forbids the new size.
    ///
    /// # Errors
    /// If an allocation failed; nothing is changed then.
    pub fn grow(&mut self, pages: u32) -> Result<Option<u32>, NoMemory>
        requires { IsSome self.old.memory }
        ensures grown { IfOk result
            (λ answer. OnSome answer (calls.grow self.old pages ≡ Some self.new)) }
        ensures size { IfOk result
            (λ answer. IfSome answer (λ size. size ≡ calls.pages_in self.old)) }
        ensures refused { IfOk result
            (λ answer. IfNone answer (calls.grow self.old pages ≡ None)) }
        ensures same { IfOk result (λ answer. IfNone answer (self.new ≡ self.old)) }
        ensures err { OnErr result (self.new ≡ self.old) }
    {
        let old = self.pages;
        let Some(size) = grown_size(old, pages, maximum(self.memory), MAX_PAGES) else {
            return Ok(None);
        };
        self.bytes.resize(byte_count(size), 0)?;
        self.pages = size;
        Ok(Some(old))
    }

    /// Adds empty entries to the table, which exists, and returns its old size. None, and nothing
    /// is changed, if its maximum or the most entries of any table forbids the new size.
    ///
    /// # Errors
    /// If an allocation failed; nothing is changed then.
    pub fn grow_table(&mut self, entries: u32) -> Result<Option<u32>, NoMemory>
        requires { IsSome self.old.table }
        ensures grown { IfOk result
            (λ answer. OnSome answer (calls.grow_table self.old entries None ≡ Some self.new)) }
        ensures size { IfOk result
            (λ answer. IfSome answer (λ size. size ≡ length (calls.entries_in self.old))) }
        ensures refused { IfOk result
            (λ answer. IfNone answer (calls.grow_table self.old entries None ≡ None)) }
        ensures same { IfOk result (λ answer. IfNone answer (self.new ≡ self.old)) }
        ensures err { OnErr result (self.new ≡ self.old) }
    {
        self.grow_table_with(entries, None)
    }

    /// Adds entries that hold a function (Core 2.0, 4.4.6, `table.grow`), or are empty, as `grow_table` does.
    ///
    /// # Errors
    /// If an allocation failed; nothing is changed then.
    #[inline]
    pub fn grow_table_with(
        &mut self,
        entries: u32,
        func: Option<u32>,
    ) -> Result<Option<u32>, NoMemory>
        requires { IsSome self.old.table }
        ensures grown { IfOk result
            (λ answer. OnSome answer (calls.grow_table self.old entries func ≡ Some self.new)) }
        ensures size { IfOk result
            (λ answer. IfSome answer (λ size. size ≡ length (calls.entries_in self.old))) }
        ensures refused { IfOk result
            (λ answer. IfNone answer (calls.grow_table self.old entries func ≡ None)) }
        ensures same { IfOk result (λ answer. IfNone answer (self.new ≡ self.old)) }
        ensures err { OnErr result (self.new ≡ self.old) }
    {
        let old_size = self.table_size();
        let Some(size) = grown_size(old_size, entries, maximum(self.table), MAX_ENTRIES) else {
            return Ok(None);
        };
        self.entries.resize(size as usize, func)?;
        Ok(Some(old_size))
    }

    /// The number that `width` bytes at `addr` encode, the lowest first (Core 1.0, 4.4.4). The
    /// width is 1, 2, 4 or 8.
    ///
    /// # Errors
    /// If these bytes are not all within the memory.
    #[inline(always)]
    pub fn load_at(&self, addr: u64, width: u32) -> Result<u64, OutOfBounds>
        requires { IsTrue (calls.is_width width) }
        ensures ok { IfOk result (λ bits. calls.load_at self.now addr width ≡ Some bits) }
        ensures fits { IfOk result (λ bits. bits < 256 ^ width) }
        ensures err { OnErr result (calls.load_at self.now addr width ≡ None) }
    {
        bytes::load_width(self.bytes.as_slice(), addr, width)
    }

    /// Writes the lowest `width` bytes of `bits` at `addr`, the lowest first (Core 1.0, 4.4.4). The
    /// width is 1, 2, 4 or 8.
    ///
    /// # Errors
    /// If these bytes are not all within the memory; nothing is changed then.
    #[inline(always)]
    pub fn store_at(&mut self, addr: u64, width: u32, bits: u64) -> Result<(), OutOfBounds>
        requires { IsTrue (calls.is_width width) }
        ensures ok { OnOk result
            (calls.put_bytes self.old addr (bytes_of width bits) ≡ Some self.new) }
        ensures err { OnErr result (calls.put_bytes self.old addr (bytes_of width bits) ≡ None) }
        ensures same { OnErr result (self.new ≡ self.old) }
    {
        bytes::store_width(self.bytes.as_mut_slice(), addr, width, bits)
    }

    /// Writes bytes at `addr`.
    ///
    /// # Errors
    /// If these are not all within the memory; nothing is changed then.
    pub fn put_bytes(&mut self, addr: u64, bytes: &[u8]) -> Result<(), OutOfBounds>
        ensures ok { OnOk result (calls.put_bytes self.old addr bytes.now ≡ Some self.new) }
        ensures err { OnErr result (calls.put_bytes self.old addr bytes.now ≡ None) }
        ensures same { OnErr result (self.new ≡ self.old) }
    {
        bytes::put(self.bytes.as_mut_slice(), addr, bytes)
    }

    /// Writes at `to` the `count` bytes at `from`, as if all were read first.
    ///
    /// # Errors
    /// If either range is not within the memory; nothing is changed then.
    #[inline]
    pub fn move_bytes(&mut self, to: u64, from: u64, count: u64) -> Result<(), OutOfBounds>
        ensures ok { OnOk result (calls.move_bytes self.old to from count ≡ Some self.new) }
        ensures err { OnErr result (calls.move_bytes self.old to from count ≡ None) }
        ensures same { OnErr result (self.new ≡ self.old) }
    {
        let length = self.bytes.len();
        bytes::end_of(length, from, count)?;
        bytes::end_of(length, to, count)?;
        bytes::copy_range(
            self.bytes.as_mut_slice(),
            to as usize,
            from as usize,
            count as usize,
        );
        Ok(())
    }

    /// Writes `count` times `byte` from `to` on.
    ///
    /// # Errors
    /// If the range is not within the memory; nothing is changed then.
    #[inline]
    pub fn fill_bytes(&mut self, to: u64, byte: u8, count: u64) -> Result<(), OutOfBounds>
        ensures ok { OnOk result (calls.fill_bytes self.old to byte count ≡ Some self.new) }
        ensures err { OnErr result (calls.fill_bytes self.old to byte count ≡ None) }
        ensures same { OnErr result (self.new ≡ self.old) }
    {
        let length = self.bytes.len();
        let end = bytes::end_of(length, to, count)?;
        self.bytes[to as usize..end].fill(byte);
        Ok(())
    }

    /// Whether there is a table.
    pub fn has_table(&self) -> bool
        ensures { result ≡ is_some self.now.table }
    {
        self.table.is_some()
    }

    /// The number of entries of the table, 0 if there is no table.
    #[inline]
    pub fn table_size(&self) -> u32
        ensures size { result ≡ length (calls.entries_in self.now) }
        ensures most { result ≤ MAX_ENTRIES }
    {
        self.entries.len() as u32
    }

    /// The function in an entry of the table, or None if the entry is empty.
    ///
    /// # Errors
    /// If the index is not below the table's size.
    #[inline(always)]
    pub fn entry(&self, index: u32) -> Result<Option<u32>, OutOfTable>
        ensures ok { IfOk result (λ entry. calls.entry_at self.now index ≡ Some entry) }
        ensures err { OnErr result (calls.entry_at self.now index ≡ None) }
    {
        match self.entries.get(index as usize) {
            Some(entry) => Ok(*entry),
            None => Err(OutOfTable),
        }
    }

    /// Puts a function into an entry of the table, or empties it (Core 2.0, 4.4.6).
    ///
    /// # Errors
    /// If the index is not below the table's size; nothing is changed then.
    pub fn set_entry(&mut self, index: u32, func: Option<u32>) -> Result<(), OutOfTable>
        ensures ok { OnOk result (calls.set_entry self.old index func ≡ Some self.new) }
        ensures err { OnErr result (calls.set_entry self.old index func ≡ None) }
        ensures same { OnErr result (self.new ≡ self.old) }
    {
        let at = index as usize;
        if at >= self.entries.len() {
            return Err(OutOfTable);
        }
        self.entries[at] = func;
        Ok(())
    }

    /// The entries of the table, empty if there is no table.
    pub fn entries(&self) -> &[Option<u32>]
        ensures { result.now ≡ calls.entries_in self.now }
    {
        self.entries.as_slice()
    }

    /// Puts functions into the entries from `index` on.
    ///
    /// # Errors
    /// If these are not all below the table's size; nothing is changed then.
    pub fn put_funcs(&mut self, index: u64, funcs: &[u32]) -> Result<(), OutOfTable>
        ensures ok { OnOk result (calls.put_funcs self.old index funcs.now ≡ Some self.new) }
        ensures err { OnErr result (calls.put_funcs self.old index funcs.now ≡ None) }
        ensures same { OnErr result (self.new ≡ self.old) }
    {
        table::put_funcs(self.entries.as_mut_slice(), index, funcs)
    }

    /// The globals, by their indices.
    pub fn globals(&self) -> &[Val]
        ensures { result.now ≡ self.now.globals }
    {
        self.globals.as_slice()
    }

    /// The value of a global, which exists.
    #[inline(always)]
    pub fn global(&self, index: u32) -> Val
        requires { index < length self.now.globals }
        ensures { slice_get self.now.globals index ≡ Some result }
    {
        self.globals[index as usize]
    }

    /// Gives a value to a global, which exists.
    #[inline(always)]
    pub fn set_global(&mut self, index: u32, value: Val)
        requires { index < length self.old.globals }
        ensures { self.new ≡ with_global self.old index value }
    {
        self.globals[index as usize] = value;
    }
}
