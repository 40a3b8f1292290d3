// What is looked up in a module.

ghost use Rattle.std.specs.Prelude.{◌≡◌, ◌&&◌, length, slice_get, nat_eq, nat_le, nat_lt, IfOk};
ghost use Rattle.std.specs.Option.{option_copied};
ghost use Rattle.std.specs.List.{list_any};
ghost use Rattle.wasm_syntax.specs.Index.{type_at, func_type as type_of_func, imported_funcs, all_tables, all_memories, imported_globals, all_globals, func_indices};
ghost use Rattle.wasm_syntax.specs.Validity.{declared_funcs};

use crate::index::IndexSpaces;
use crate::marks::marks_of;
use base::NoMemory;
use std::alloc::Global;
use std::marker::Model;
use wasm_syntax::{FuncType, GlobalType, Module};

/// A module with its index spaces and the functions that bodies may refer to. Contracts see the
/// module.
#[derive(Drop)]
pub struct Scope<'a> {
    module: &'a Module,
    spaces: IndexSpaces,
    imported_funcs: usize,
    imported_globals: usize,
    declared: Vec<bool>,
}

impl<'a> Model for Scope<'a> {
    ghost use Rattle.wasm_syntax.specs.declared.modules.Module.{Module};
    ghost use Rattle.module_index.specs.IndexSpaces.{IsScope};

    ghost Value = { Module };

    ghost view = { λ s. s.module.now };

    ghost invariant = { λ s. IsScope s.module.now s.spaces s.imported_funcs s.imported_globals s.declared.items };
}

impl<'a> Scope<'a> {
    /// The scope of this module.
    ///
    /// # Errors
    ///
    /// If an allocation fails.
    pub fn of(alloc: Global, module: &'a Module) -> Result<Scope<'a>, NoMemory>
        ensures { IfOk result (λ scope. scope ≡ «module».now) }
    {
        let mut spaces = IndexSpaces::of_imports(alloc, module.imports.as_slice())?;
        let imported_funcs = spaces.funcs.len();
        let imported_globals = spaces.globals.len();
        spaces.define(module)?;
        let declared = marks_of(alloc, module, spaces.funcs.len())?;
        Ok(Scope {
            module,
            spaces,
            imported_funcs,
            imported_globals,
            declared,
        })
    }

    /// The module.
    pub fn module(&self) -> &'a Module
        ensures { result.now ≡ self.now }
    {
        self.module
    }

    /// The type index of each function.
    pub fn funcs(&self) -> &[u32]
        ensures { result.now ≡ func_indices self.now }
    {
        self.spaces.funcs.as_slice()
    }

    /// The type of each global.
    pub fn globals(&self) -> &[GlobalType]
        ensures { result.now ≡ all_globals self.now }
    {
        self.spaces.globals.as_slice()
    }

    /// The type of this index.
    pub fn type_at(&self, index: u32) -> Option<&FuncType>
        ensures { option_copied result ≡ type_at self.now index }
    {
        self.module.types.as_slice().get(index as usize)
    }

    /// The type of the function of this index.
    pub fn func_type(&self, func: u32) -> Option<&FuncType>
        ensures { option_copied result ≡ type_of_func self.now func }
    {
        match self.spaces.funcs.get(func as usize) {
            Some(index) => self.type_at(*index),
            None => None,
        }
    }

    /// The type of the global of this index.
    pub fn global(&self, global: u32) -> Option<GlobalType>
        ensures { result ≡ slice_get (all_globals self.now) global }
    {
        self.spaces.globals.get(global as usize).copied()
    }

    /// The type of the imported global of this index.
    pub fn imported_global(&self, global: u32) -> Option<GlobalType>
        ensures { result ≡ slice_get (imported_globals self.now) global }
    {
        if (global as usize) < self.imported_globals {
            self.global(global)
        } else {
            None
        }
    }

    /// Whether there is a function of this index.
    pub fn has_func(&self, func: u32) -> bool
        ensures { result ≡ nat_lt func (length (func_indices self.now)) }
    {
        (func as usize) < self.spaces.funcs.len()
    }

    /// Whether there is a table of this index.
    pub fn has_table(&self, table: u32) -> bool
        ensures { result ≡ nat_lt table (length (all_tables self.now)) }
    {
        (table as usize) < self.spaces.tables.len()
    }

    /// Whether there is a memory of this index.
    pub fn has_memory(&self, memory: u32) -> bool
        ensures { result ≡ nat_lt memory (length (all_memories self.now)) }
    {
        (memory as usize) < self.spaces.memories.len()
    }

    /// Whether there is a type of this index.
    pub fn has_type(&self, ty: u32) -> bool
        ensures { result ≡ nat_lt ty (length self.now.types) }
    {
        (ty as usize) < self.module.types.as_slice().len()
    }

    /// Whether there is at most one table.
    pub fn has_one_table(&self) -> bool
        ensures { result ≡ nat_le (length (all_tables self.now)) 1 }
    {
        self.spaces.tables.len() <= 1
    }

    /// Whether there is at most one memory.
    pub fn has_one_memory(&self) -> bool
        ensures { result ≡ nat_le (length (all_memories self.now)) 1 }
    {
        self.spaces.memories.len() <= 1
    }

    /// Whether there is a global of this index.
    pub fn has_global(&self, global: u32) -> bool
        ensures { result ≡ nat_lt global (length (all_globals self.now)) }
    {
        (global as usize) < self.spaces.globals.len()
    }

    /// The number of imported functions.
    pub fn imported_funcs(&self) -> usize
        ensures { result ≡ imported_funcs self.now }
    {
        self.imported_funcs
    }

    /// Whether bodies may refer to the function of this index.
    pub fn is_declared(&self, func: u32) -> bool
        ensures { result
            ≡ (nat_lt func (length (func_indices self.now)) && list_any (nat_eq func) (declared_funcs self.now)) }
    {
        self.has_func(func) && self.declared[func as usize]
    }
}
