// The index spaces of a module (Core 1.0, 2.5.1).

ghost use Rattle.std.specs.Prelude.{◌≡◌, ◌++◌, [], map, IfOk, OnOk};
ghost use Rattle.wasm_syntax.specs.declared.modules.Func.{Func as Defined};
ghost use Rattle.wasm_syntax.specs.declared.modules.Global.{Global as Item};
ghost use Rattle.module_index.specs.IndexSpaces.{spaces, imported_spaces, with_import, with_definitions};

use base::NoMemory;
use std::alloc::Global;
use std::marker::Model;
use wasm_syntax::{Func, Global as Variable, GlobalType, Import, ImportKind, Limits, Module};

/// The type index of each function, the limits of each table and of each memory, and the type of
/// each global.
#[derive(Drop)]
pub(crate) struct IndexSpaces {
    pub(crate) funcs: Vec<u32>,
    pub(crate) tables: Vec<Limits>,
    pub(crate) memories: Vec<Limits>,
    pub(crate) globals: Vec<GlobalType>,
}

impl Model for IndexSpaces {
    ghost use Rattle.module_index.specs.IndexSpaces.{Spaces, spaces};

    ghost Value = { Spaces };

    ghost view = { λ s. spaces s.funcs.items s.tables.items s.memories.items s.globals.items };
}

impl IndexSpaces {
    /// Empty index spaces. Takes no memory.
    fn new(alloc: Global) -> IndexSpaces
        ensures { result ≡ spaces [] [] [] [] }
    {
        IndexSpaces {
            funcs: Vec::new(alloc),
            tables: Vec::new(alloc),
            memories: Vec::new(alloc),
            globals: Vec::new(alloc),
        }
    }

    /// The index spaces of these imports.
    pub(crate) fn of_imports(alloc: Global, imports: &[Import]) -> Result<IndexSpaces, NoMemory>
        ensures { IfOk result (λ found. found ≡ imported_spaces imports.now) }
    {
        let mut found = IndexSpaces::new(alloc);
        'imports: for import in imports {
            found.import(import.kind)?;
        }
        Ok(found)
    }

    /// Adds an import.
    fn import(&mut self, kind: ImportKind) -> Result<(), NoMemory>
        ensures { OnOk result (self.new ≡ with_import kind self.old) }
    {
        match kind {
            ImportKind::Func(ty) => self.funcs.push(ty)?,
            ImportKind::Table(limits) => self.tables.push(limits)?,
            ImportKind::Memory(limits) => self.memories.push(limits)?,
            ImportKind::Global(ty) => self.globals.push(ty)?,
        }
        Ok(())
    }

    /// Adds the definitions of a module.
    pub(crate) fn define(&mut self, module: &Module) -> Result<(), NoMemory>
        ensures { OnOk result (self.new ≡ with_definitions «module».now self.old) }
    {
        self.tables.extend_from_slice(module.tables.as_slice())?;
        self.memories.extend_from_slice(module.memories.as_slice())?;
        add_funcs(&mut self.funcs, module.funcs.as_slice())?;
        add_globals(&mut self.globals, module.globals.as_slice())
    }
}

/// Adds the type index of each of the functions.
fn add_funcs(indices: &mut Vec<u32>, funcs: &[Func]) -> Result<(), NoMemory>
    ensures { OnOk result (indices.new.items ≡ indices.old.items ++ map (λ (f : Defined). f.ty) funcs.now) }
{
    'funcs: for func in funcs {
        indices.push(func.ty)?;
    }
    Ok(())
}

/// Adds the type of each of the globals.
fn add_globals(types: &mut Vec<GlobalType>, globals: &[Variable]) -> Result<(), NoMemory>
    ensures { OnOk result (types.new.items ≡ types.old.items ++ map (λ (g : Item). g.ty) globals.now) }
{
    'globals: for global in globals {
        types.push(global.ty)?;
    }
    Ok(())
}
