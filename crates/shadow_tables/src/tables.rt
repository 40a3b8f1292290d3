// What is known of a table and of globals.

ghost use Rattle.std.specs.Prelude.{◌≡◌, ◌≢◌, ◌↔◌, ◌++◌, ◌-◌, ◌<◌, ◌≤◌, length, replicate, slice_get, slice_set, Some, None, Ok, IsTrue, IsOk, IfOk, OnOk, OnErr};
ghost use Rattle.history_spec.specs.Store.{Store};
ghost use Rattle.history_spec.specs.Instantiation as history;
ghost use Rattle.shadow_tables.specs.Tables.{IsOpening};

use crate::opening::opening_entries;
use base::NoMemory;
use host_script::Supply;
use instantiation_parts::{all_globals, instantiated_parts};
use std::alloc::Global;
use std::marker::Model;
use wasm_syntax::Val;
use wasm_validate::Checked;

/// What is known of a table, its entries and their number, and of globals.
#[derive(Drop)]
pub struct ShadowTables {
    entries: Vec<Option<u32>>,
    globals: Vec<Val>,
}

impl Model for ShadowTables {
    ghost use Rattle.std.specs.Prelude.{◌<◌, ◌^◌, length};
    ghost use Rattle.shadow_tables.specs.Tables.{Tables};

    ghost Value = { Tables };

    ghost view = { λ tables. record {
      entries = tables.entries.items;
      globals = tables.globals.items;
    } };

    ghost invariant = { λ tables. length tables.entries.items < 2 ^ 32 };
}

impl ShadowTables {
    /// What is known at the beginning of a run of a module that links with a supply: the table and the globals that
    /// it is instantiated with (Core 1.0, 4.5.4).
    ///
    /// # Errors
    /// `NoMemory` if an allocation failed.
    pub fn of_opening(
        alloc: Global,
        checked: &Checked,
        supply: &Supply,
    ) -> Result<ShadowTables, NoMemory>
        requires { IsOk (history.instantiate checked.now supply.now) }
        ensures { IfOk result (λ tables. (store : Store)
            → history.instantiate checked.now supply.now ≡ Ok store → IsOpening store tables) }
    {
        instantiated_parts();
        let module = checked.module();
        let entries = opening_entries(alloc, module, supply)?;
        let globals = all_globals(alloc, supply.globals.as_slice(), module.globals.as_slice())?;
        Ok(ShadowTables { entries, globals })
    }

    /// A copy of what is known. Later changes do not show in it.
    ///
    /// # Errors
    /// `NoMemory` if an allocation failed.
    pub fn copy(&self) -> Result<ShadowTables, NoMemory>
        ensures { IfOk result (λ copy. copy ≡ self.now) }
    {
        let alloc = *self.entries.allocator();
        let entries = Vec::from_slice(alloc, self.entries.as_slice())?;
        let globals = Vec::from_slice(alloc, self.globals.as_slice())?;
        Ok(ShadowTables { entries, globals })
    }

    /// The function that is known of an entry, `None` if the entry is known as empty. The index is below the known
    /// size.
    pub fn entry(&self, index: u32) -> Option<u32>
        requires { index < length self.now.entries }
        ensures { slice_get self.now.entries index ≡ Some result }
    {
        self.entries[index as usize]
    }

    /// The known value of a global, which exists.
    pub fn global(&self, global: u32) -> Val
        requires { global < length self.now.globals }
        ensures { slice_get self.now.globals global ≡ Some result }
    {
        self.globals[global as usize]
    }

    /// Whether a function, or an empty entry, is not what is known of an entry. The index is below the known
    /// size.
    #[inline]
    pub fn entry_differs(&self, index: u32, func: Option<u32>) -> bool
        requires { index < length self.now.entries }
        ensures { IsTrue result ↔ (slice_get self.now.entries index ≢ Some func) }
    {
        self.entries[index as usize] != func
    }

    /// Takes a function, or an empty entry, as what is known of an entry. The index is below the known size.
    #[inline]
    pub fn take_entry(&mut self, index: u32, func: Option<u32>)
        requires { index < length self.old.entries }
        ensures { self.new ≡ record self.old { entries = slice_set self.old.entries index func } }
    {
        self.entries[index as usize] = func;
    }

    /// Whether a value is not the known value of a global, which exists.
    #[inline]
    pub fn global_differs(&self, global: u32, value: Val) -> bool
        requires { global < length self.now.globals }
        ensures { IsTrue result ↔ (slice_get self.now.globals global ≢ Some value) }
    {
        self.globals[global as usize] != value
    }

    /// Takes a value as the known value of a global, which exists.
    #[inline]
    pub fn take_global(&mut self, global: u32, value: Val)
        requires { global < length self.old.globals }
        ensures { self.new ≡ record self.old { globals = slice_set self.old.globals global value } }
    {
        self.globals[global as usize] = value;
    }

    /// The number of entries that the table is known to have.
    #[inline]
    pub fn known_size(&self) -> u32
        ensures { result ≡ length self.now.entries }
    {
        self.entries.len() as u32
    }

    /// Sets the number of entries that the table is known to have, at least as many as before; further entries
    /// are known as empty.
    ///
    /// # Errors
    /// `NoMemory` if an allocation failed; nothing has changed then.
    pub fn set_known_size(&mut self, size: u32) -> Result<(), NoMemory>
        requires { length self.old.entries ≤ size }
        ensures ok { OnOk result (self.new ≡ record self.old {
          entries = self.old.entries ++ replicate (size - length self.old.entries) None;
        }) }
        ensures err { OnErr result (self.new ≡ self.old) }
    {
        self.entries.resize(size as usize, None)?;
        Ok(())
    }
}
