// Linked modules.

ghost use Rattle.std.specs.Prelude.{◌≡◌, ◌++◌, map, IfOk, option_map};
ghost use Rattle.std.specs.Option.{option_or};
ghost use Rattle.instance_spec.specs.declared.sides.Side.TheVariants.{Left as OnLeft, Right as OnRight};
ghost use Rattle.pair_spec.specs.Linked.{linked, linked_func};
ghost use Rattle.linked_pair.specs.SideNumbers.{AreNumbersOf, instance_by};
ghost use Rattle.linked_pair.specs.Parts.{data_by, elem_by, export_by, global_by, imports_by, module_by, module_of_parts, pair_of};

use crate::exports::with_linked_exports;
use crate::funcs::with_linked_funcs;
use crate::globals::with_linked_globals;
use crate::imports::with_linked_imports;
use crate::kept::{limits_of_both, types_of_both};
use crate::numbers::{SideNumbers, linked_start};
use crate::segments::{with_linked_datas, with_linked_elems};
use base::NoMemory;
use instance_spec::Side;
use std::alloc::Global;
use wasm_syntax::{
    Customs, DataSegs, ElemSegs, Exports, FuncTypes, Funcs, Globals, Imports, LimitsList, List,
    Module,
};

/// A module of a pair, with what its indices are in the linked module.
#[derive(Clone, Copy)]
pub(crate) struct LinkedSide<'a> {
    pub(crate) module: &'a Module,
    pub(crate) numbers: &'a SideNumbers,
}

/// The imports, functions, exports and the start function of a linked module.
#[derive(Drop)]
pub(crate) struct CodeParts {
    imports: Imports,
    funcs: Funcs,
    exports: Exports,
    start: Option<u32>,
}

/// What a linked module has with constant expressions.
#[derive(Drop)]
pub(crate) struct ConstantParts {
    globals: Globals,
    elems: ElemSegs,
    datas: DataSegs,
}

/// What a linked module has as both modules have it.
#[derive(Drop)]
pub(crate) struct KeptParts {
    types: FuncTypes,
    tables: LimitsList,
    memories: LimitsList,
}

/// The linked module of two modules, of which each may import what the other exports. Takes time in the lengths of both
/// modules.
///
/// # Errors
///
/// `NoMemory` if an allocation failed.
pub(crate) fn linked_module(
    alloc: Global,
    left: &LinkedSide<'_>,
    right: &LinkedSide<'_>,
) -> Result<Module, NoMemory>
    requires left { AreNumbersOf (pair_of left.now right.now) OnLeft left.now.numbers.now }
    requires right { AreNumbersOf (pair_of left.now right.now) OnRight right.now.numbers.now }
    ensures { IfOk result (λ made. made ≡ linked (pair_of left.now right.now)) }
{
    let made = module_by(alloc, left, right)?;
    Ok(made)
}

/// The linked module, whatever the numbers are.
fn module_by(
    alloc: Global,
    left: &LinkedSide<'_>,
    right: &LinkedSide<'_>,
) -> Result<Module, NoMemory>
    ensures { IfOk result (λ made. made
        ≡ module_by (pair_of left.now right.now) left.now.numbers.now right.now.numbers.now) }
{
    let code = code_parts(alloc, left, right)?;
    let constants = constant_parts(alloc, left, right)?;
    let kept = kept_parts(left.module, right.module)?;
    Ok(joined_parts(code, constants, kept, List::new(alloc)))
}

/// The imports, functions, exports and the start function of a linked module.
fn code_parts(
    alloc: Global,
    left: &LinkedSide<'_>,
    right: &LinkedSide<'_>,
) -> Result<CodeParts, NoMemory>
    ensures imports { IfOk result (λ code. code.imports
        ≡ imports_by left.now.numbers.now OnLeft left.now.«module».now.imports
        ++ imports_by right.now.numbers.now OnRight right.now.«module».now.imports) }
    ensures funcs { IfOk result (λ code. code.funcs
        ≡ map (linked_func (instance_by left.now.numbers.now)) left.now.«module».now.funcs
        ++ map (linked_func (instance_by right.now.numbers.now)) right.now.«module».now.funcs) }
    ensures exports { IfOk result (λ code. code.exports
        ≡ map (export_by (instance_by left.now.numbers.now) OnLeft) left.now.«module».now.exports
        ++ map (export_by (instance_by right.now.numbers.now) OnRight) right.now.«module».now.exports) }
    ensures start { IfOk result (λ code. code.start
        ≡ option_or (option_map (instance_by left.now.numbers.now).funcs left.now.«module».now.start)
        (option_map (instance_by right.now.numbers.now).funcs right.now.«module».now.start)) }
{
    let imports = imports_of_both(alloc, left, right)?;
    let funcs = funcs_of_both(alloc, left, right)?;
    let exports = exports_of_both(alloc, left, right)?;
    Ok(CodeParts {
        imports,
        funcs,
        exports,
        start: linked_start(
            left.numbers,
            left.module.start,
            right.numbers,
            right.module.start,
        ),
    })
}

/// The imports of a linked module.
fn imports_of_both(
    alloc: Global,
    left: &LinkedSide<'_>,
    right: &LinkedSide<'_>,
) -> Result<Imports, NoMemory>
    ensures { IfOk result (λ list. list
        ≡ imports_by left.now.numbers.now OnLeft left.now.«module».now.imports
        ++ imports_by right.now.numbers.now OnRight right.now.«module».now.imports) }
{
    let none = List::new(alloc);
    let imports = left.module.imports.as_slice();
    let list = with_linked_imports(left.numbers, Side::Left, none, imports)?;
    let imports = right.module.imports.as_slice();
    with_linked_imports(right.numbers, Side::Right, list, imports)
}

/// The functions of a linked module.
fn funcs_of_both(
    alloc: Global,
    left: &LinkedSide<'_>,
    right: &LinkedSide<'_>,
) -> Result<Funcs, NoMemory>
    ensures { IfOk result (λ list. list
        ≡ map (linked_func (instance_by left.now.numbers.now)) left.now.«module».now.funcs
        ++ map (linked_func (instance_by right.now.numbers.now)) right.now.«module».now.funcs) }
{
    let none = List::new(alloc);
    let list = with_linked_funcs(alloc, left.numbers, none, left.module.funcs.as_slice())?;
    with_linked_funcs(alloc, right.numbers, list, right.module.funcs.as_slice())
}

/// The exports of a linked module.
fn exports_of_both(
    alloc: Global,
    left: &LinkedSide<'_>,
    right: &LinkedSide<'_>,
) -> Result<Exports, NoMemory>
    ensures { IfOk result (λ list. list
        ≡ map (export_by (instance_by left.now.numbers.now) OnLeft) left.now.«module».now.exports
        ++ map (export_by (instance_by right.now.numbers.now) OnRight) right.now.«module».now.exports) }
{
    let none = List::new(alloc);
    let exports = left.module.exports.as_slice();
    let list = with_linked_exports(alloc, left.numbers, Side::Left, none, exports)?;
    let exports = right.module.exports.as_slice();
    with_linked_exports(alloc, right.numbers, Side::Right, list, exports)
}

/// What a linked module has with constant expressions.
fn constant_parts(
    alloc: Global,
    left: &LinkedSide<'_>,
    right: &LinkedSide<'_>,
) -> Result<ConstantParts, NoMemory>
    ensures globals { IfOk result (λ constants. constants.globals
        ≡ map (global_by left.now.numbers.now) left.now.«module».now.globals
        ++ map (global_by right.now.numbers.now) right.now.«module».now.globals) }
    ensures elems { IfOk result (λ constants. constants.elems
        ≡ map (elem_by left.now.numbers.now) left.now.«module».now.elems
        ++ map (elem_by right.now.numbers.now) right.now.«module».now.elems) }
    ensures datas { IfOk result (λ constants. constants.datas
        ≡ map (data_by left.now.numbers.now) left.now.«module».now.datas
        ++ map (data_by right.now.numbers.now) right.now.«module».now.datas) }
{
    let globals = globals_of_both(alloc, left, right)?;
    let elems = elems_of_both(alloc, left, right)?;
    let datas = datas_of_both(alloc, left, right)?;
    Ok(ConstantParts {
        globals,
        elems,
        datas,
    })
}

/// The globals of a linked module.
fn globals_of_both(
    alloc: Global,
    left: &LinkedSide<'_>,
    right: &LinkedSide<'_>,
) -> Result<Globals, NoMemory>
    ensures { IfOk result (λ list. list
        ≡ map (global_by left.now.numbers.now) left.now.«module».now.globals
        ++ map (global_by right.now.numbers.now) right.now.«module».now.globals) }
{
    let none = List::new(alloc);
    let list = with_linked_globals(alloc, left.numbers, none, left.module.globals.as_slice())?;
    with_linked_globals(alloc, right.numbers, list, right.module.globals.as_slice())
}

/// The element segments of a linked module.
fn elems_of_both(
    alloc: Global,
    left: &LinkedSide<'_>,
    right: &LinkedSide<'_>,
) -> Result<ElemSegs, NoMemory>
    ensures { IfOk result (λ list. list
        ≡ map (elem_by left.now.numbers.now) left.now.«module».now.elems
        ++ map (elem_by right.now.numbers.now) right.now.«module».now.elems) }
{
    let none = List::new(alloc);
    let list = with_linked_elems(alloc, left.numbers, none, left.module.elems.as_slice())?;
    with_linked_elems(alloc, right.numbers, list, right.module.elems.as_slice())
}

/// The data segments of a linked module.
fn datas_of_both(
    alloc: Global,
    left: &LinkedSide<'_>,
    right: &LinkedSide<'_>,
) -> Result<DataSegs, NoMemory>
    ensures { IfOk result (λ list. list
        ≡ map (data_by left.now.numbers.now) left.now.«module».now.datas
        ++ map (data_by right.now.numbers.now) right.now.«module».now.datas) }
{
    let none = List::new(alloc);
    let list = with_linked_datas(alloc, left.numbers, none, left.module.datas.as_slice())?;
    with_linked_datas(alloc, right.numbers, list, right.module.datas.as_slice())
}

/// What a linked module has as both modules have it.
fn kept_parts(left: &Module, right: &Module) -> Result<KeptParts, NoMemory>
    ensures types { IfOk result (λ kept. kept.types ≡ left.now.types ++ right.now.types) }
    ensures tables { IfOk result (λ kept. kept.tables ≡ left.now.tables ++ right.now.tables) }
    ensures memories { IfOk result (λ kept. kept.memories ≡ left.now.memories ++ right.now.memories) }
{
    let types = types_of_both(&left.types, right.types.as_slice())?;
    let tables = limits_of_both(&left.tables, right.tables.as_slice())?;
    let memories = limits_of_both(&left.memories, right.memories.as_slice())?;
    Ok(KeptParts {
        types,
        tables,
        memories,
    })
}

/// The module of these parts.
fn joined_parts(
    code: CodeParts,
    constants: ConstantParts,
    kept: KeptParts,
    customs: Customs,
) -> Module
    ensures { result ≡ module_of_parts code constants kept customs }
{
    let CodeParts {
        imports,
        funcs,
        exports,
        start,
    } = code;
    let ConstantParts {
        globals,
        elems,
        datas,
    } = constants;
    let KeptParts {
        types,
        tables,
        memories,
    } = kept;
    Module {
        types,
        imports,
        funcs,
        tables,
        memories,
        globals,
        exports,
        start,
        elems,
        datas,
        customs,
    }
}
