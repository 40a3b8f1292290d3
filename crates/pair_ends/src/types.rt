// The types and limits of what a module has, by index.

ghost use Rattle.std.specs.Prelude.{◌≡◌, IfOk, length, slice_get};
ghost use Rattle.std.specs.Option.{option_copied};
ghost use Rattle.wasm_syntax.specs.Index.{all_globals, all_memories, all_tables, memory_import, of_kind, table_import, func_type as type_of_func, type_at as type_of_index};
ghost use Rattle.pair_spec.specs.Pairs.{Globals, imports_in, module_of};
ghost use Rattle.pair_spec.specs.Chains.{end_module};
ghost use Rattle.pair_spec.specs.Faults.{is_one_const as is_one};
ghost use Rattle.pair_ends.specs.Ends.{chain_end};
ghost use Rattle.pair_ends.specs.Types.{global_init};

use crate::jumps::End;
use base::NoMemory;
use instance_spec::Side;
use module_index::scope::Scope;
use std::alloc::Global;
use std::marker::Model;
use wasm_syntax::{FuncType, GlobalType, ImportKind, Instr, Limits, Module};

/// A module with the types and limits of what it has. Contracts see the module.
#[derive(Drop)]
pub(crate) struct ModuleTypes<'a> {
    source: &'a Module,
    scope: Scope<'a>,
    tables: Vec<Limits>,
    memories: Vec<Limits>,
}

impl<'a> Model for ModuleTypes<'a> {
    ghost use Rattle.std.specs.Prelude.{◌≡◌};
    ghost use Rattle.wasm_syntax.specs.declared.modules.Module.{Module};
    ghost use Rattle.wasm_syntax.specs.Index.{all_memories, all_tables};

    ghost Value = { Module };

    ghost view = { λ types. types.source.now };

    ghost invariant = { λ types.
        (types.scope ≡ types.source.now)
        × (types.tables.items ≡ all_tables types.source.now)
        × (types.memories.items ≡ all_memories types.source.now) };
}

/// A pair with the types and limits of what its modules have. Contracts see the pair.
#[derive(Drop)]
pub(crate) struct PairTypes<'a> {
    left: ModuleTypes<'a>,
    right: ModuleTypes<'a>,
}

impl<'a> Model for PairTypes<'a> {
    ghost use Rattle.pair_spec.specs.Pairs.{ModulePair};

    ghost Value = { ModulePair };

    ghost view = { λ types. record { left = types.left; right = types.right } };
}

/// The limits of all tables of a module.
fn tables_of(alloc: Global, module: &Module) -> Result<Vec<Limits>, NoMemory>
    ensures { IfOk result (λ tables. tables.items ≡ all_tables «module».now) }
{
    let mut tables = imported_tables(alloc, module)?;
    tables.extend_from_slice(module.tables.as_slice())?;
    Ok(tables)
}

/// The limits of the tables that a module imports.
fn imported_tables(alloc: Global, module: &Module) -> Result<Vec<Limits>, NoMemory>
    ensures { IfOk result (λ tables. tables.items ≡ of_kind table_import «module».now.imports) }
{
    let mut tables = Vec::new(alloc);
    'imports: for import in module.imports.as_slice() {
        if let ImportKind::Table(limits) = import.kind {
            tables.push(limits)?;
        }
    }
    Ok(tables)
}

/// The limits of all memories of a module.
fn memories_of(alloc: Global, module: &Module) -> Result<Vec<Limits>, NoMemory>
    ensures { IfOk result (λ memories. memories.items ≡ all_memories «module».now) }
{
    let mut memories = imported_memories(alloc, module)?;
    memories.extend_from_slice(module.memories.as_slice())?;
    Ok(memories)
}

/// The limits of the memories that a module imports.
fn imported_memories(alloc: Global, module: &Module) -> Result<Vec<Limits>, NoMemory>
    ensures { IfOk result (λ memories. memories.items ≡ of_kind memory_import «module».now.imports) }
{
    let mut memories = Vec::new(alloc);
    'imports: for import in module.imports.as_slice() {
        if let ImportKind::Memory(limits) = import.kind {
            memories.push(limits)?;
        }
    }
    Ok(memories)
}

/// Whether a constant expression is one constant.
fn is_one_const(body: &[Instr]) -> bool
    ensures { result ≡ is_one body.now }
{
    matches!(body, [Instr::Const(_), Instr::End])
}

/// The number of globals that a module imports.
fn imported_globals(scope: &Scope, module: &Module) -> usize
    requires { scope.now ≡ «module».now }
    ensures { result ≡ length (imports_in Globals «module».now) }
{
    let all = scope.globals().len();
    let own = module.globals.as_slice().len();
    all - own
}

/// Whether the global of an index is a defined one that is initialised with one constant. `imported` are imports.
fn is_constant_at(module: &Module, imported: usize, index: usize) -> bool
    requires { imported ≡ length (imports_in Globals «module».now) }
    ensures { result ≡ is_one (global_init «module».now index) }
{
    match module
        .globals
        .as_slice()
        .get(index.saturating_sub(imported))
    {
        Some(global) => is_one_const(global.init.as_slice()),
        None => false,
    }
}

impl<'a> ModuleTypes<'a> {
    /// A module with the types and limits of what it has.
    pub(crate) fn of(alloc: Global, module: &'a Module) -> Result<ModuleTypes<'a>, NoMemory>
        ensures { IfOk result (λ types. types ≡ «module».now) }
    {
        let scope = Scope::of(alloc, module)?;
        let tables = tables_of(alloc, module)?;
        let memories = memories_of(alloc, module)?;
        Ok(ModuleTypes {
            source: module,
            scope,
            tables,
            memories,
        })
    }

    /// The module.
    pub(crate) fn module(&self) -> &'a Module
        ensures { result.now ≡ self.now }
    {
        self.source
    }

    /// The type of this index.
    pub(crate) fn type_at(&self, index: u32) -> Option<&FuncType>
        ensures { option_copied result ≡ type_of_index self.now index }
    {
        self.scope.type_at(index)
    }

    /// The type of the function of this index.
    pub(crate) fn func_type(&self, index: usize) -> Option<&FuncType>
        ensures { option_copied result ≡ type_of_func self.now index }
    {
        match self.scope.funcs().get(index) {
            Some(ty) => self.type_at(*ty),
            None => None,
        }
    }

    /// The limits of the table of this index.
    pub(crate) fn table(&self, index: usize) -> Option<Limits>
        ensures { result ≡ slice_get (all_tables self.now) index }
    {
        self.tables.get(index).copied()
    }

    /// The limits of the memory of this index.
    pub(crate) fn memory(&self, index: usize) -> Option<Limits>
        ensures { result ≡ slice_get (all_memories self.now) index }
    {
        self.memories.get(index).copied()
    }

    /// The type of the global of this index.
    pub(crate) fn global(&self, index: usize) -> Option<GlobalType>
        ensures { result ≡ slice_get (all_globals self.now) index }
    {
        self.scope.globals().get(index).copied()
    }

    /// Whether the global of this index is a defined one that is initialised with one constant.
    pub(crate) fn is_constant(&self, index: usize) -> bool
        ensures { result ≡ is_one (global_init self.now index) }
    {
        is_constant_at(
            self.source,
            imported_globals(&self.scope, self.source),
            index,
        )
    }
}

impl<'a> PairTypes<'a> {
    /// A pair with the types and limits of what its modules have.
    pub(crate) fn of(
        alloc: Global,
        left: &'a Module,
        right: &'a Module,
    ) -> Result<PairTypes<'a>, NoMemory>
        ensures { IfOk result (λ types. types ≡ record { left = left.now; right = right.now }) }
    {
        let left = ModuleTypes::of(alloc, left)?;
        let right = ModuleTypes::of(alloc, right)?;
        Ok(PairTypes { left, right })
    }

    /// The module on a side, with its types.
    pub(crate) fn on(&self, side: Side) -> &ModuleTypes<'a>
        ensures { result.now ≡ module_of self.now side }
    {
        match side {
            Side::Left => &self.left,
            Side::Right => &self.right,
        }
    }

    /// The module that an end is in, with its types.
    pub(crate) fn of_end(&self, end: End) -> &ModuleTypes<'a>
        ensures { result.now ≡ end_module self.now (chain_end «end») }
    {
        match end {
            End::Defined(side, _) | End::HostImport(side, _) => self.on(side),
        }
    }

    /// The module on a side.
    pub(crate) fn module(&self, side: Side) -> &'a Module
        ensures { result.now ≡ module_of self.now side }
    {
        self.on(side).module()
    }
}
