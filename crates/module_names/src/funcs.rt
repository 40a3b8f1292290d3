// The functions that a module imports, with indexes of their names.

ghost use Rattle.std.specs.Prelude.{◌≡◌, is_some, IfOk, map, [], option_map, unwrap_or};
ghost use Rattle.wasm_syntax.specs.Index.{func_import, imported_funcs as count_of_funcs};
ghost use Rattle.module_names.specs.Names.{imports_with, imports_from, imports_named, func_types_named};

use crate::imports::{TypesByNames, imports_of, modules_of, types_by_names};
use crate::index_spaces::Space;
use base::NoMemory;
use indexmap::IndexSet;
use std::alloc::Global;
use std::marker::Model;
use wasm_syntax::{FuncType, Import, Module};

/// The functions that a module imports, with indexes of their names.
#[derive(Drop)]
pub(crate) struct ImportedFuncs<'a> {
    source: &'a Module,
    imports: Vec<&'a Import>,
    modules: IndexSet<&'a str>,
    types: TypesByNames<'a>,
}

impl<'a> Model for ImportedFuncs<'a> {
    ghost use Rattle.std.specs.Prelude.{◌≡◌, map};
    ghost use Rattle.wasm_syntax.specs.declared.modules.Module.{Module};
    ghost use Rattle.wasm_syntax.specs.Index.{func_import};
    ghost use Rattle.module_names.specs.Names.{imports_with};
    ghost use Rattle.module_names.specs.Indexes.{HoldsModules, HoldsTypes};

    ghost Value = { Module };

    ghost view = { λ funcs. funcs.source.now };

    ghost invariant = { λ funcs.
        (map (λ import. import.now) funcs.imports.items ≡ imports_with func_import funcs.source.now)
        × HoldsModules funcs.modules.keys (imports_with func_import funcs.source.now)
        × HoldsTypes funcs.types.entries funcs.source.now (imports_with func_import funcs.source.now) };
}

impl<'a> ImportedFuncs<'a> {
    /// The functions that a module imports.
    pub(crate) fn of(alloc: Global, module: &'a Module) -> Result<ImportedFuncs<'a>, NoMemory>
        ensures { IfOk result (λ funcs. funcs ≡ «module».now) }
    {
        let imports = imports_of(alloc, module, Space::Funcs)?;
        let modules = modules_of(alloc, imports.as_slice())?;
        let types = types_by_names(alloc, module, imports.as_slice())?;
        Ok(ImportedFuncs {
            source: module,
            imports,
            modules,
            types,
        })
    }

    /// The imported functions, in the module's order.
    pub(crate) fn imports(&self) -> &[&'a Import]
        ensures { map (λ import. import.now) result.now ≡ imports_with func_import self.now }
    {
        self.imports.as_slice()
    }

    /// The number of imported functions.
    pub(crate) fn count(&self) -> usize
        ensures { result ≡ count_of_funcs self.now }
    {
        self.imports().len()
    }

    /// Whether functions are imported from a module of this name.
    pub(crate) fn has_module(&self, from: &str) -> bool
        ensures { result ≡ imports_from func_import self.now from.now }
    {
        self.modules.contains(from)
    }

    /// Whether functions are imported under two names.
    pub(crate) fn has_names(&self, from: &'a str, name: &'a str) -> bool
        ensures { result ≡ imports_named func_import self.now from.now name.now }
    {
        self.types.contains_key(&(from, name))
    }

    /// The types of the functions imported under two names, if a function is.
    pub(crate) fn types(&self, from: &'a str, name: &'a str) -> Option<&Vec<&'a FuncType>>
        ensures types { unwrap_or (option_map (λ types. map (λ ty. ty.now) types.now.items) result) []
            ≡ func_types_named self.now from.now name.now }
        ensures there { is_some result ≡ imports_named func_import self.now from.now name.now }
    {
        self.types.get(&(from, name))
    }
}
