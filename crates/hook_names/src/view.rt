// What a hook call sees of the store.

ghost use Rattle.std.specs.Prelude.{◌≡◌, ◌*◌, ◌≤◌, is_some, length, slice_get};
ghost use Rattle.wasm_syntax.specs.declared.limits.TheConstants.{MAX_PAGES, PAGE_SIZE};
ghost use Rattle.wasm_store.specs.Calls.{bytes_in, entries_in, entry_at, pages_in};

use std::marker::Model;
use wasm_store::Store;

/// What a hook call sees: the memory and the table of a store at the time of the call. Contracts see the store.
#[derive(Drop)]
pub struct View<'a> {
    store: &'a Store,
}

impl<'a> Model for View<'a> {
    ghost use Rattle.history_spec.specs.Store as model;

    ghost Value = { model.Store };

    ghost view = { λ v. v.store.now };
}

impl<'a> View<'a> {
    /// The view of a store. Takes no memory.
    pub fn of(store: &'a Store) -> View<'a>
        ensures { result ≡ store.now }
    {
        View { store }
    }

    /// The size of the memory in pages of 65,536 bytes, 0 if there is no memory.
    #[inline]
    pub fn pages(&self) -> u32
        ensures { result ≡ pages_in self.now }
    {
        self.store.pages()
    }

    /// Whether there is a memory.
    #[inline]
    pub fn has_memory(&self) -> bool
        ensures { result ≡ is_some self.now.memory }
    {
        self.store.has_memory()
    }

    /// The bytes of the memory, empty if there is no memory.
    #[inline]
    pub fn bytes(&self) -> &[u8]
        ensures bytes { result.now ≡ bytes_in self.now }
        ensures most { length result.now ≤ MAX_PAGES * PAGE_SIZE }
    {
        let _pages = self.store.pages();
        self.store.bytes()
    }

    /// The number of entries of the table, 0 if there is no table.
    #[inline]
    pub fn table_size(&self) -> u32
        ensures { result ≡ length (entries_in self.now) }
    {
        self.store.table_size()
    }

    /// The function in an entry of the table, or `Some(None)` if the entry is empty. `None` if and only if the
    /// index is not below the table's size, which is 0 without a table.
    #[inline]
    pub fn entry(&self, index: u32) -> Option<Option<u32>>
        ensures { result ≡ entry_at self.now index }
    {
        match self.store.entry(index) {
            Ok(entry) => Some(entry),
            Err(_) => None,
        }
    }

    /// A byte of the memory. `None` if and only if the address is not below the memory's length, which is 0
    /// without a memory.
    #[inline]
    pub fn byte(&self, addr: u64) -> Option<u8>
        ensures { result ≡ slice_get (bytes_in self.now) addr }
    {
        self.store.bytes().get(addr as usize).copied()
    }
}
