// What is outside the bodies of a module's functions (Core 1.0, 3.2 and 3.4).

ghost use Rattle.std.specs.Prelude.{◌≡◌, ◌&&◌, IfOk};
ghost use Rattle.std.specs.List.{list_all};
ghost use Rattle.std.specs.Option.{option_copied};
ghost use Rattle.wasm_syntax.specs.Validity.{single as single_instr, constant_type as type_of_constant};
ghost use Rattle.wasm_syntax.specs.Typing.{is_number as is_number_type};
ghost use Rattle.wasm_syntax.specs.ValidityTests as decide;

use crate::export_names::names_differ;
use base::NoMemory;
use module_index::scope::Scope;
use module_index::{is_number, is_value, same_type};
use std::alloc::Global;
use wasm_syntax::limits::MAX_DECLARED_PAGES;
use wasm_syntax::{
    DataSeg, ElemSeg, ExportKind, Func, FuncType, Global as Variable, ImportKind, Instr, Limits,
    Run, ValType,
};

/// All of a module but the bodies of its functions is valid (Core 1.0, 3.4.10).
pub(crate) fn is_valid_outside(alloc: Global, scope: &Scope) -> Result<bool, NoMemory>
    ensures { IfOk result (λ valid. valid ≡ decide.is_valid_outside scope.now) }
{
    if !declares(scope) {
        return Ok(false);
    }
    refers(alloc, scope)
}

/// The types and all that is imported or defined.
fn declares(scope: &Scope) -> bool
    ensures { result ≡ decide.declares scope.now }
{
    if !are_types(scope) || !are_imports(scope) || !are_declared_funcs(scope) {
        return false;
    }
    are_tables(scope) && are_memories(scope) && are_globals(scope)
}

/// Exports, the start function, segments, and how many tables and memories there are.
fn refers(alloc: Global, scope: &Scope) -> Result<bool, NoMemory>
    ensures { IfOk result (λ valid. valid ≡ decide.refers scope.now) }
{
    if !are_exports(scope) || !names_differ(alloc, scope.module().exports.as_slice())? {
        return Ok(false);
    }
    if !is_start(scope, scope.module().start) || !are_elems(scope) {
        return Ok(false);
    }
    Ok(are_datas(scope) && scope.has_one_table() && scope.has_one_memory())
}

fn are_types(scope: &Scope) -> bool
    ensures { result ≡ list_all decide.is_func_type scope.now.types }
{
    let types = scope.module().types.as_slice();
    types.iter().all(|ty| is_func_type(ty))
}

fn are_imports(scope: &Scope) -> bool
    ensures { result ≡ list_all (λ i. decide.is_import scope.now i.kind) scope.now.imports }
{
    let imports = scope.module().imports.as_slice();
    imports.iter().all(|import| is_import(scope, import.kind))
}

fn are_declared_funcs(scope: &Scope) -> bool
    ensures { result ≡ list_all (decide.is_declared_func scope.now) scope.now.funcs }
{
    let funcs = scope.module().funcs.as_slice();
    funcs.iter().all(|func| is_declared_func(scope, func))
}

fn are_tables(scope: &Scope) -> bool
    ensures { result ≡ list_all decide.is_table scope.now.tables }
{
    let tables = scope.module().tables.as_slice();
    tables.iter().all(|table| is_table(*table))
}

fn are_memories(scope: &Scope) -> bool
    ensures { result ≡ list_all decide.is_memory scope.now.memories }
{
    let memories = scope.module().memories.as_slice();
    memories.iter().all(|memory| is_memory(*memory))
}

fn are_globals(scope: &Scope) -> bool
    ensures { result ≡ list_all (decide.is_global scope.now) scope.now.globals }
{
    let globals = scope.module().globals.as_slice();
    globals.iter().all(|global| is_global(scope, global))
}

fn are_exports(scope: &Scope) -> bool
    ensures { result ≡ list_all (λ e. decide.is_there scope.now e.kind) scope.now.exports }
{
    let exports = scope.module().exports.as_slice();
    exports.iter().all(|export| is_there(scope, export.kind))
}

fn are_elems(scope: &Scope) -> bool
    ensures { result ≡ list_all (decide.is_elem scope.now) scope.now.elems }
{
    let elems = scope.module().elems.as_slice();
    elems.iter().all(|elem| is_elem(scope, elem))
}

fn are_datas(scope: &Scope) -> bool
    ensures { result ≡ list_all (decide.is_data scope.now) scope.now.datas }
{
    let datas = scope.module().datas.as_slice();
    datas.iter().all(|segment| is_data(scope, segment))
}

/// A function type (Core 1.0, 3.2.2).
fn is_func_type(ty: &FuncType) -> bool
    ensures { result ≡ decide.is_func_type ty.now }
{
    are_numbers(ty.params.as_slice())
        && are_numbers(ty.results.as_slice())
        && ty.results.as_slice().len() <= 1
}

fn are_numbers(types: &[ValType]) -> bool
    ensures { result ≡ decide.are_numbers types.now }
{
    types.iter().all(|ty| is_number(*ty))
}

/// Limits within a range (Core 1.0, 3.2.1).
fn is_limits(range: u64, limits: Limits) -> bool
    ensures { result ≡ decide.is_limits range limits }
{
    u64::from(limits.min) <= range && is_maximum(range, limits.min, limits.max)
}

fn is_maximum(range: u64, min: u32, max: Option<u32>) -> bool
    ensures { result ≡ decide.is_maximum range min max }
{
    match max {
        None => true,
        Some(max) => u64::from(max) <= range && min <= max,
    }
}

/// The limits of a table (Core 1.0, 3.2.3).
fn is_table(limits: Limits) -> bool
    ensures { result ≡ decide.is_table limits }
{
    is_limits(1 << 32, limits)
}

/// The limits of a memory (Core 1.0, 3.2.4).
fn is_memory(limits: Limits) -> bool
    ensures { result ≡ decide.is_memory limits }
{
    is_limits(u64::from(MAX_DECLARED_PAGES), limits)
}

/// What is imported (Core 1.0, 3.4.9).
fn is_import(scope: &Scope, kind: ImportKind) -> bool
    ensures { result ≡ decide.is_import scope.now kind }
{
    match kind {
        ImportKind::Func(ty) => scope.has_type(ty),
        ImportKind::Table(limits) => is_table(limits),
        ImportKind::Memory(limits) => is_memory(limits),
        ImportKind::Global(global) => is_number(global.ty),
    }
}

/// A function but for its body (Core 1.0, 3.4.1).
fn is_declared_func(scope: &Scope, func: &Func) -> bool
    ensures { result ≡ decide.is_declared_func scope.now func.now }
{
    scope.has_type(func.ty) && are_locals(func.locals.as_slice())
}

fn are_locals(runs: &[Run]) -> bool
    ensures { result ≡ list_all (λ run. is_number_type run.ty) runs.now }
{
    runs.iter().all(|run| is_number(run.ty))
}

/// A global (Core 1.0, 3.4.4).
fn is_global(scope: &Scope, global: &Variable) -> bool
    ensures { result ≡ decide.is_global scope.now global.now }
{
    is_number(global.ty.ty) && is_constant_of(scope, global.ty.ty, global.init.as_slice())
}

/// There is what an export names (Core 1.0, 3.4.8).
fn is_there(scope: &Scope, kind: ExportKind) -> bool
    ensures { result ≡ decide.is_there scope.now kind }
{
    match kind {
        ExportKind::Func(func) => scope.has_func(func),
        ExportKind::Table(table) => scope.has_table(table),
        ExportKind::Memory(memory) => scope.has_memory(memory),
        ExportKind::Global(global) => scope.has_global(global),
    }
}

/// The start function (Core 1.0, 3.4.7).
fn is_start(scope: &Scope, start: Option<u32>) -> bool
    ensures { result ≡ decide.is_start scope.now start }
{
    match start {
        None => true,
        Some(func) => match scope.func_type(func) {
            None => false,
            Some(ty) => is_nil(ty.params.as_slice()) && is_nil(ty.results.as_slice()),
        },
    }
}

fn is_nil(types: &[ValType]) -> bool
    ensures { result ≡ decide.is_nil types.now }
{
    match types {
        [] => true,
        [..] => false,
    }
}

/// An element segment (Core 1.0, 3.4.5; a declared one: Core 2.0, 3.4.5).
fn is_elem(scope: &Scope, elem: &ElemSeg) -> bool
    ensures { result ≡ decide.is_elem scope.now elem.now }
{
    match elem {
        ElemSeg::Active {
            table,
            offset,
            funcs,
        } => {
            scope.has_table(*table)
                && is_constant_of(scope, ValType::I32, offset.as_slice())
                && are_funcs(scope, funcs.as_slice())
        }
        ElemSeg::Declared { funcs } => are_funcs(scope, funcs.as_slice()),
    }
}

fn are_funcs(scope: &Scope, funcs: &[u32]) -> bool
    ensures { result ≡ decide.are_funcs scope.now funcs.now }
{
    funcs.iter().all(|func| scope.has_func(*func))
}

/// A data segment (Core 1.0, 3.4.6).
fn is_data(scope: &Scope, segment: &DataSeg) -> bool
    ensures { result ≡ decide.is_data scope.now segment.now }
{
    scope.has_memory(segment.memory)
        && is_constant_of(scope, ValType::I32, segment.offset.as_slice())
}

/// A constant expression of a type (Core 1.0, 3.3.7).
fn is_constant_of(scope: &Scope, ty: ValType, body: &[Instr]) -> bool
    ensures { result ≡ decide.is_constant_of scope.now ty body.now }
{
    match single(body) {
        None => false,
        Some(instr) => match constant_type(scope, instr) {
            None => false,
            Some(found) => same_type(found, ty),
        },
    }
}

/// The one instruction of an expression that has just one.
fn single(body: &[Instr]) -> Option<&Instr>
    ensures { option_copied result ≡ single_instr body.now }
{
    match body {
        [instr, Instr::End] => Some(instr),
        _ => None,
    }
}

/// The type of a constant instruction (Core 1.0, 3.3.7.2).
fn constant_type(scope: &Scope, instr: &Instr) -> Option<ValType>
    ensures { result ≡ type_of_constant scope.now instr.now }
{
    match instr {
        Instr::Const(value) if is_value(*value) => Some(value.ty),
        Instr::GlobalGet(global) => match scope.imported_global(*global) {
            Some(ty) if !ty.mutable => Some(ty.ty),
            _ => None,
        },
        _ => None,
    }
}
