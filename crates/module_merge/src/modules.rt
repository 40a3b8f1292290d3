// Replay modules with generated parts.

ghost use Rattle.std.specs.Prelude.{◌≡◌, ◌<◌, ◌^◌, ◌++◌, [], ◌∷◌, length, option_map, IfOk};
ghost use Rattle.std.specs.Option.{option_to_list};
ghost use Rattle.wasm_syntax.specs.Index.{func_indices, imported_globals};
ghost use Rattle.wasm_syntax.specs.Validity.{IsValid};
ghost use Rattle.type_safety.specs.Supplies.{IsSupply};
ghost use Rattle.history_spec.specs.Instantiation as history;
ghost use Rattle.replay_module_spec.specs.Fits.{FitsModule};
ghost use Rattle.replay_module_spec.specs.Merge.{layout_section, memory_written, replay_module};
ghost use Rattle.module_merge.specs.Offsets.{HaveOffsets};
ghost use Rattle.module_merge.specs.Parts.{kept_globals, module_of_parts, module_of_sections};
ghost use Rattle.replay_module_laws.specs.Laws.{StatesMaximum};

use crate::globals::kept_globals;
use crate::lists::concat;
use crate::sections::{layout_sections, limits_list, start_exports, written_limits};
use crate::segments::{constant_datas, merged_elems};
use base::NoMemory;
use host_script::Supply;
use instantiation_parts::{memory_limits, table_limits};
use module_index::scope::Scope;
use replay_module_laws::replay_modules_of_fragments_are_valid;
use replay_module_spec::Fragment;
use std::alloc::Global;
use wasm_syntax::{
    Customs, DataSegs, ElemSegs, FuncTypes, Funcs, Globals, Limits, LimitsList, List, Module, Val,
};
use wasm_validate::Checked;

/// Types and functions.
#[derive(Drop)]
pub(crate) struct Code {
    types: FuncTypes,
    funcs: Funcs,
}

/// Element and data segments.
#[derive(Drop)]
pub(crate) struct Segments {
    elems: ElemSegs,
    datas: DataSegs,
}

/// What follows from the original and from the supply: limits, globals with their values, and the section that
/// declares the layout.
#[derive(Drop)]
pub(crate) struct Outline {
    tables: LimitsList,
    memories: LimitsList,
    globals: Globals,
    customs: Customs,
}

/// The replay module of a module, of a supply for its imports and of a generated part that fits the module, from
/// whatever it was generated. It is valid. The parts of the original and the generated part are moved and not copied.
///
/// # Errors
///
/// `NoMemory` if memory is out.
pub fn merge(
    alloc: Global,
    module: Checked,
    supply: &Supply,
    fragment: Fragment,
) -> Result<Checked, NoMemory>
    requires supplied { IsSupply «module» supply.now }
    requires fits { FitsModule «module» fragment }
    requires few { length (func_indices «module») < 2 ^ 32 }
    ensures { IfOk result (λ merged. merged ≡ replay_module «module» supply.now fragment) }
{
    replay_modules_of_fragments_are_valid();
    know_maximum(supply.table);
    let merged = merged_module(alloc, module.into_module(), supply, fragment)?;
    Ok(Checked::new(merged))
}

/// A maximum of a table has 32 bits.
fn know_maximum(limits: Option<Limits>)
    ensures { StatesMaximum limits }
{
    if let Some(limits) = limits {
        if let Some(max) = limits.max {
            let _max = max;
        }
    }
}

/// The replay module, not yet known to be valid.
fn merged_module(
    alloc: Global,
    module: Module,
    supply: &Supply,
    fragment: Fragment,
) -> Result<Module, NoMemory>
    requires valid { IsValid (replay_module «module» supply.now fragment) }
    requires supplied { IsSupply «module» supply.now }
    requires few { length (func_indices «module») < 2 ^ 32 }
    ensures { IfOk result (λ merged. merged ≡ replay_module «module» supply.now fragment) }
{
    let outline = outline_of(alloc, &module, supply)?;
    let (code, segments) = kept_parts(module);
    with_fragment(
        alloc,
        outline,
        code,
        segments,
        supply.globals.as_slice(),
        fragment,
    )
}

/// The outline of a module's replay module.
fn outline_of(alloc: Global, module: &Module, supply: &Supply) -> Result<Outline, NoMemory>
    requires few { length (func_indices «module».now) < 2 ^ 32 }
    requires supplied { length (imported_globals «module».now) ≡ length supply.now.globals }
    ensures tables { IfOk result (λ outline. outline.tables
        ≡ option_to_list (history.table_limits «module».now supply.now)) }
    ensures memories { IfOk result (λ outline. outline.memories
        ≡ option_to_list (option_map memory_written (history.memory_limits «module».now supply.now))) }
    ensures globals { IfOk result (λ outline. outline.globals
        ≡ kept_globals «module».now supply.now.globals) }
    ensures customs { IfOk result (λ outline. outline.customs ≡ layout_section «module».now ∷ []) }
{
    let scope = Scope::of(alloc, module)?;
    let tables = limits_list(alloc, table_limits(module, supply))?;
    let memories = limits_list(alloc, written_limits(memory_limits(module, supply)))?;
    let globals = kept_globals(alloc, &scope, supply.globals.as_slice())?;
    let customs = layout_sections(alloc, &scope)?;
    Ok(Outline {
        tables,
        memories,
        globals,
        customs,
    })
}

/// What a replay module keeps of the original.
fn kept_parts(module: Module) -> (Code, Segments)
    ensures types { result.0.types ≡ «module».types }
    ensures funcs { result.0.funcs ≡ «module».funcs }
    ensures elems { result.1.elems ≡ «module».elems }
    ensures datas { result.1.datas ≡ «module».datas }
{
    let Module {
        types,
        funcs,
        elems,
        datas,
        ..
    } = module;
    (Code { types, funcs }, Segments { elems, datas })
}

/// The replay module of what is kept of the original and of the generated part.
fn with_fragment(
    alloc: Global,
    outline: Outline,
    code: Code,
    segments: Segments,
    imported: &[Val],
    fragment: Fragment,
) -> Result<Module, NoMemory>
    requires offsets { HaveOffsets imported.now segments }
    ensures { IfOk result (λ merged. merged ≡ module_of_parts outline code segments imported.now fragment) }
{
    let Fragment {
        bodies,
        helpers,
        entry,
        types,
        globals,
        declared,
    } = fragment;
    let code = merged_code(code, types, bodies, helpers)?;
    let Segments { elems, datas } = segments;
    let elems = merged_elems(alloc, elems, imported, declared)?;
    let datas = constant_datas(alloc, datas, imported)?;
    with_exports(
        alloc,
        outline,
        globals,
        code,
        Segments { elems, datas },
        entry,
    )
}

/// Types and functions with the generated ones: bodies in the places of imports, and helpers at the end.
fn merged_code(
    code: Code,
    types: FuncTypes,
    bodies: Funcs,
    helpers: Funcs,
) -> Result<Code, NoMemory>
    ensures types { IfOk result (λ merged. merged.types ≡ code.types ++ types) }
    ensures funcs { IfOk result (λ merged. merged.funcs ≡ bodies ++ (code.funcs ++ helpers)) }
{
    let Code {
        types: own_types,
        funcs,
    } = code;
    let types = concat(own_types, types)?;
    let funcs = concat(bodies, concat(funcs, helpers)?)?;
    Ok(Code { types, funcs })
}

/// The replay module of its parts, with the generated globals and the export of the function of index `entry`.
fn with_exports(
    alloc: Global,
    outline: Outline,
    globals: Globals,
    code: Code,
    segments: Segments,
    entry: u32,
) -> Result<Module, NoMemory>
    ensures { IfOk result (λ merged. merged ≡ module_of_sections outline globals code segments entry) }
{
    let Outline {
        tables,
        memories,
        globals: own_globals,
        customs,
    } = outline;
    let Code { types, funcs } = code;
    let Segments { elems, datas } = segments;
    let globals = concat(own_globals, globals)?;
    let exports = start_exports(alloc, entry)?;
    Ok(Module {
        types,
        imports: List::new(alloc),
        funcs,
        tables,
        memories,
        globals,
        exports,
        start: None,
        elems,
        datas,
        customs,
    })
}
