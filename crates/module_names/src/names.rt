// A module, with indexes of its names.

ghost use Rattle.std.specs.Prelude.{◌≡◌, ◌≤◌, ◌||◌, is_some, nat_lt, IfOk, map, [], option_map, option_and_then, unwrap_or, slice_get};
ghost use Rattle.std.specs.List.{list_any};
ghost use Rattle.wasm_syntax.specs.Index.{func_import, global_import, all_globals, func_type, type_at, imported_funcs as count_of_funcs};
ghost use Rattle.module_names.specs.Names.{imports_with, imports_from, imports_named, imported_global, func_types_named, exported_func, exported_global, exports_some, index_in, is_in, reaches_memory, reaches_table};

use crate::exports::Exports;
use crate::funcs::ImportedFuncs;
use crate::globals::ImportedGlobals;
use crate::index_spaces::Space;
use base::NoMemory;
use std::alloc::Global;
use std::marker::Model;
use wasm_syntax::{Export, ExportKind, FuncType, GlobalType, Import, ImportKind, Module};

/// A module, with indexes of its names, so that no look-up goes through its imports or exports.
#[derive(Drop)]
pub struct ModuleNames<'a> {
    source: &'a Module,
    exports: Exports<'a>,
    funcs: ImportedFuncs<'a>,
    globals: ImportedGlobals<'a>,
    memory: bool,
    table: bool,
}

impl<'a> Model for ModuleNames<'a> {
    ghost use Rattle.std.specs.Prelude.{◌≡◌};
    ghost use Rattle.wasm_syntax.specs.declared.modules.Module.{Module};
    ghost use Rattle.module_names.specs.Names.{reaches_memory, reaches_table};

    ghost Value = { Module };

    ghost view = { λ names. names.source.now };

    ghost invariant = { λ names.
        (names.exports ≡ names.source.now)
        × (names.funcs ≡ names.source.now)
        × (names.globals ≡ names.source.now)
        × (names.memory ≡ reaches_memory names.source.now)
        × (names.table ≡ reaches_table names.source.now) };
}

/// Whether something in an index space is imported or exported.
fn reaches(module: &Module, space: Space) -> bool
    ensures { result ≡ (list_any (is_in space) «module».now.imports || exports_some space «module».now) }
{
    imports_some(module.imports.as_slice(), space) || exports_some(module.exports.as_slice(), space)
}

fn imports_some(imports: &[Import], space: Space) -> bool
    ensures { result ≡ list_any (is_in space) imports.now }
{
    imports.iter().any(|import| space.has_import(import))
}

fn exports_some(exports: &[Export], space: Space) -> bool
    ensures { result ≡ list_any (λ export. is_some (index_in space export.kind)) exports.now }
{
    exports.iter().any(|export| space.has_export(export.kind))
}

impl<'a> ModuleNames<'a> {
    /// A module with indexes of its names.
    ///
    /// # Errors
    ///
    /// `NoMemory` if an allocation failed.
    pub fn of(alloc: Global, module: &'a Module) -> Result<ModuleNames<'a>, NoMemory>
        ensures { IfOk result (λ names. names ≡ «module».now) }
    {
        let exports = Exports::of(alloc, module)?;
        let funcs = ImportedFuncs::of(alloc, module)?;
        let globals = ImportedGlobals::of(alloc, module)?;
        Ok(ModuleNames {
            source: module,
            exports,
            funcs,
            globals,
            memory: reaches(module, Space::Memories),
            table: reaches(module, Space::Tables),
        })
    }

    /// Whether the host reaches a memory: one is imported or exported.
    pub fn reaches_memory(&self) -> bool
        ensures { result ≡ reaches_memory self.now }
    {
        self.memory
    }

    /// Whether the host reaches a table: one is imported or exported.
    pub fn reaches_table(&self) -> bool
        ensures { result ≡ reaches_table self.now }
    {
        self.table
    }

    /// The imported functions, in the module's order.
    pub fn funcs(&self) -> &[&'a Import]
        ensures { map (λ import. import.now) result.now ≡ imports_with func_import self.now }
    {
        self.funcs.imports()
    }

    /// The imported globals, in the module's order.
    pub fn globals(&self) -> &[&'a Import]
        ensures { map (λ import. import.now) result.now ≡ imports_with global_import self.now }
    {
        self.globals.imports()
    }

    /// Whether functions are imported from a module of this name.
    pub fn has_funcs_from(&self, from: &str) -> bool
        ensures { result ≡ imports_from func_import self.now from.now }
    {
        self.funcs.has_module(from)
    }

    /// Whether globals are imported from a module of this name.
    pub fn has_globals_from(&self, from: &str) -> bool
        ensures { result ≡ imports_from global_import self.now from.now }
    {
        self.globals.has_module(from)
    }

    /// Whether functions are imported under two names: of a module, and their own.
    pub fn has_func(&self, from: &'a str, name: &'a str) -> bool
        ensures { result ≡ imports_named func_import self.now from.now name.now }
    {
        self.funcs.has_names(from, name)
    }

    /// The types of the functions imported under two names, in the module's order, if a function is.
    pub fn func_types(&self, from: &'a str, name: &'a str) -> Option<&Vec<&'a FuncType>>
        ensures types { unwrap_or (option_map (λ types. map (λ ty. ty.now) types.now.items) result) []
            ≡ func_types_named self.now from.now name.now }
        ensures there { is_some result ≡ imports_named func_import self.now from.now name.now }
    {
        self.funcs.types(from, name)
    }

    /// Whether globals are imported under two names: of a module, and their own.
    pub fn has_global(&self, from: &'a str, name: &'a str) -> bool
        ensures { result ≡ imports_named global_import self.now from.now name.now }
    {
        self.globals.has_names(from, name)
    }

    /// The exported function of a name, by its index.
    pub fn exported_func(&self, name: &str) -> Option<u32>
        ensures { result ≡ exported_func self.now name.now }
    {
        match self.exports.get(name) {
            Some(ExportKind::Func(index)) => Some(index),
            _ => None,
        }
    }

    /// The exported global of a name, by its index.
    pub fn exported_global(&self, name: &str) -> Option<u32>
        ensures { result ≡ exported_global self.now name.now }
    {
        match self.exports.get(name) {
            Some(ExportKind::Global(index)) => Some(index),
            _ => None,
        }
    }

    /// The first global imported under two names, by its index.
    pub fn imported_global(&self, from: &'a str, name: &'a str) -> Option<usize>
        ensures { result ≡ imported_global self.now from.now name.now }
    {
        self.globals.first(from, name)
    }

    /// Whether a function, by its index, is imported.
    pub fn is_import(&self, func: u32) -> bool
        ensures { result ≡ nat_lt func (count_of_funcs self.now) }
    {
        (func as usize) < self.funcs.count()
    }

    /// The type of a function that the module defines, by its index.
    pub fn defined_type(&self, func: u32) -> Option<&'a FuncType>
        requires { count_of_funcs self.now ≤ func }
        ensures { option_map (λ ty. ty.now) result ≡ func_type self.now func }
    {
        type_of_defined(self.source, func as usize - self.funcs.count())
    }

    /// The type of a global, by its index.
    pub fn global_type(&self, index: u32) -> Option<GlobalType>
        ensures { result ≡ slice_get (all_globals self.now) index }
    {
        type_of_global(self.source, self.globals.imports(), index as usize)
    }
}

/// The type of a defined function, by its place among them.
fn type_of_defined(module: &Module, place: usize) -> Option<&FuncType>
    ensures { option_map (λ ty. ty.now) result ≡ option_and_then (type_at «module».now)
        (slice_get (map (λ func. func.ty) «module».now.funcs) place) }
{
    match module.funcs.as_slice().get(place) {
        Some(func) => module.types.as_slice().get(func.ty as usize),
        None => None,
    }
}

/// The type of a global, given the imported globals.
fn type_of_global(module: &Module, globals: &[&Import], index: usize) -> Option<GlobalType>
    requires { map (λ import. import.now) globals.now ≡ imports_with global_import «module».now }
    ensures { result ≡ slice_get (all_globals «module».now) index }
{
    if index < globals.len() {
        type_of_imported(globals[index])
    } else {
        type_of_defined_global(module, index - globals.len())
    }
}

fn type_of_imported(import: &Import) -> Option<GlobalType>
    ensures { result ≡ global_import import.now.kind }
{
    match import.kind {
        ImportKind::Global(ty) => Some(ty),
        _ => None,
    }
}

fn type_of_defined_global(module: &Module, place: usize) -> Option<GlobalType>
    ensures { result ≡ slice_get (map (λ global. global.ty) «module».now.globals) place }
{
    match module.globals.as_slice().get(place) {
        Some(global) => Some(global.ty),
        None => None,
    }
}
