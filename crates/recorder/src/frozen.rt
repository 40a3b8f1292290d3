// What was known when a recorder was frozen.

ghost use Rattle.std.specs.Prelude.{◌≡◌, ◌<◌, length, slice_get, slice_index, Some};
ghost use Rattle.shadow_memory.specs.Shadow.{IsBlock};
ghost use Rattle.recorder.specs.FrozenViews.{original_entry};

use hook_names::original;
use shadow_memory::ShadowMemory;
use shadow_tables::ShadowTables;
use std::marker::Model;
use wasm_syntax::Val;

/// What was known of the table and of globals when a recorder was frozen, and the number of functions that the
/// original imports.
#[derive(Drop)]
pub(crate) struct FrozenTables {
    pub(crate) tables: ShadowTables,
    pub(crate) imports: u32,
}

/// What was known when a recorder was frozen: the memory, the table and the globals of the original.
#[derive(Drop)]
pub struct Frozen {
    pub(crate) memory: ShadowMemory,
    pub(crate) tables: FrozenTables,
}

impl Model for Frozen {
    ghost use Rattle.recorder.specs.FrozenViews.{FrozenView, view_of};

    ghost Value = { FrozenView };

    ghost view = { λ frozen. view_of frozen.memory.frozen frozen.tables.tables frozen.tables.imports };
}

impl Frozen {
    /// The number of pages that the memory was known to have.
    pub fn pages(&self) -> u32
        ensures { result ≡ self.now.pages }
    {
        self.memory.frozen_pages()
    }

    /// The byte that was known at an address.
    pub fn byte(&self, addr: u64) -> u8
        ensures { result ≡ slice_index self.now.bytes addr }
    {
        self.memory.frozen_byte(addr)
    }

    /// The bytes that were known of a place, that is of 4,096 addresses from a multiple of 4,096 on; no bytes if
    /// nothing was kept of the place, so that all are zeros.
    pub fn block(&self, place: usize) -> &[u8]
        ensures { IsBlock self.now.bytes place result.now }
    {
        self.memory.frozen_block(place)
    }

    /// The number of entries that the table was known to have.
    pub fn entries(&self) -> u32
        ensures { result ≡ length self.now.entries }
    {
        self.tables.tables.known_size()
    }

    /// The function of the original that an entry was known to hold; `None` if the entry was known as empty, or to
    /// hold a hook, which no function of the original is. The index is below the known size.
    pub fn entry(&self, index: u32) -> Option<u32>
        requires { index < length self.now.entries }
        ensures { result ≡ original_entry self.now index }
    {
        match self.tables.tables.entry(index) {
            Some(func) => original(self.tables.imports, func),
            None => None,
        }
    }

    /// The value that a global was known to have. The global exists.
    pub fn global(&self, global: u32) -> Val
        requires { global < length self.now.globals }
        ensures { slice_get self.now.globals global ≡ Some result }
    {
        self.tables.tables.global(global)
    }
}
