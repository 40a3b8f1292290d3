// The globals that a module imports, with indexes of their names.

ghost use Rattle.std.specs.Prelude.{◌≡◌, IfOk, map};
ghost use Rattle.wasm_syntax.specs.Index.{global_import};
ghost use Rattle.module_names.specs.Names.{imports_with, imports_from, imports_named, imported_global};

use crate::imports::{FirstsByNames, firsts_by_names, imports_of, modules_of};
use crate::index_spaces::Space;
use base::NoMemory;
use indexmap::IndexSet;
use std::alloc::Global;
use std::marker::Model;
use wasm_syntax::{Import, Module};

/// The globals that a module imports, with indexes of their names.
#[derive(Drop)]
pub(crate) struct ImportedGlobals<'a> {
    source: &'a Module,
    imports: Vec<&'a Import>,
    modules: IndexSet<&'a str>,
    places: FirstsByNames<'a>,
}

impl<'a> Model for ImportedGlobals<'a> {
    ghost use Rattle.std.specs.Prelude.{◌≡◌, map};
    ghost use Rattle.wasm_syntax.specs.declared.modules.Module.{Module};
    ghost use Rattle.wasm_syntax.specs.Index.{global_import};
    ghost use Rattle.module_names.specs.Names.{imports_with};
    ghost use Rattle.module_names.specs.Indexes.{HoldsModules, HoldsFirsts};

    ghost Value = { Module };

    ghost view = { λ globals. globals.source.now };

    ghost invariant = { λ globals.
        (map (λ import. import.now) globals.imports.items ≡ imports_with global_import globals.source.now)
        × HoldsModules globals.modules.keys (imports_with global_import globals.source.now)
        × HoldsFirsts globals.places.entries (imports_with global_import globals.source.now) };
}

impl<'a> ImportedGlobals<'a> {
    /// The globals that a module imports.
    pub(crate) fn of(alloc: Global, module: &'a Module) -> Result<ImportedGlobals<'a>, NoMemory>
        ensures { IfOk result (λ globals. globals ≡ «module».now) }
    {
        let imports = imports_of(alloc, module, Space::Globals)?;
        let modules = modules_of(alloc, imports.as_slice())?;
        let places = firsts_by_names(alloc, imports.as_slice())?;
        Ok(ImportedGlobals {
            source: module,
            imports,
            modules,
            places,
        })
    }

    /// The imported globals, in the module's order.
    pub(crate) fn imports(&self) -> &[&'a Import]
        ensures { map (λ import. import.now) result.now ≡ imports_with global_import self.now }
    {
        self.imports.as_slice()
    }

    /// Whether globals are imported from a module of this name.
    pub(crate) fn has_module(&self, from: &str) -> bool
        ensures { result ≡ imports_from global_import self.now from.now }
    {
        self.modules.contains(from)
    }

    /// Whether globals are imported under two names.
    pub(crate) fn has_names(&self, from: &'a str, name: &'a str) -> bool
        ensures { result ≡ imports_named global_import self.now from.now name.now }
    {
        self.places.contains_key(&(from, name))
    }

    /// The index of the first global imported under two names.
    pub(crate) fn first(&self, from: &'a str, name: &'a str) -> Option<usize>
        ensures { result ≡ imported_global self.now from.now name.now }
    {
        self.places.get(&(from, name)).copied()
    }
}
