// The module that begins in a known state.

ghost use Rattle.std.specs.Prelude.{◌≡◌, ◌+◌, ◌≤◌, drop, length, map, option_map, IfOk};
ghost use Rattle.wasm_syntax.specs.Index.{imported_globals};
ghost use Rattle.rest_spec.specs.StateModules as state;
ghost use Rattle.rest_spec.specs.StateSegments.{data_segments, elem_segments};
ghost use Rattle.state_laws.specs.Valid.{IsRunnableWith, IsStateOf};
ghost use Rattle.checkpoint.specs.FrozenStates.{state_of_frozen};
ghost use Rattle.checkpoint.specs.StateParts.{with_parts};

use crate::data_segments::frozen_datas;
use crate::elem_segments::frozen_elems;
use crate::globals::{defined_globals, frozen_values};
use base::NoMemory;
use host_script::Supply;
use recorder::Frozen;
use state_laws::state_modules_are_valid;
use std::alloc::Global;
use wasm_syntax::{DataSegs, ElemSegs, Globals, Limits, LimitsList, List, Module};
use wasm_validate::Checked;

/// Tables, memories and globals in a known state.
#[derive(Drop)]
pub(crate) struct StoreParts {
    tables: LimitsList,
    memories: LimitsList,
    globals: Globals,
}

/// The segments of a known state.
#[derive(Drop)]
pub(crate) struct SegmentParts {
    elems: ElemSegs,
    datas: DataSegs,
}

/// The module with its functions and indices that begins in what was frozen, and what is supplied to it. It has no
/// start function. Its memory and its table have the known sizes as their least ones, its segments hold the known bytes
/// and entries, and its mutable globals have the known values (Core 1.0, 2.5). It is valid. Takes time in the sizes of
/// the module, of the memory and of the table.
///
/// # Errors
/// `NoMemory` if an allocation failed.
pub fn state_module(
    alloc: Global,
    module: &Checked,
    supply: &Supply,
    frozen: &Frozen,
) -> Result<(Checked, Supply), NoMemory>
    requires runnable { IsRunnableWith «module».now supply.now }
    requires state { IsStateOf «module».now supply.now (state_of_frozen frozen.now) }
    ensures made { IfOk result
        (λ made. made.0 ≡ state.state_module_of «module».now (state_of_frozen frozen.now)) }
    ensures supplied { IfOk result
        (λ made. made.1 ≡ state.state_supply_of supply.now (state_of_frozen frozen.now)) }
{
    state_modules_are_valid();
    let imported = supply.globals.as_slice().len();
    let made = module_in_state(alloc, module.module(), imported, frozen)?;
    let supplied = supply_in_state(alloc, supply, frozen)?;
    Ok((Checked::new(made), supplied))
}

/// The module that begins in what was frozen, not yet known to be valid.
fn module_in_state(
    alloc: Global,
    module: &Module,
    imported: usize,
    frozen: &Frozen,
) -> Result<Module, NoMemory>
    requires imported { imported ≡ length (imported_globals «module».now) }
    requires globals { imported + length «module».now.globals ≤ length frozen.now.globals }
    ensures { IfOk result (λ made. made ≡ state.state_module_of «module».now (state_of_frozen frozen.now)) }
{
    let store = store_parts(alloc, module, imported, frozen)?;
    let segments = segment_parts(alloc, frozen)?;
    let kept = module.clone()?;
    Ok(with_parts(kept, store, segments))
}

/// The supply of the module that begins in what was frozen.
fn supply_in_state(alloc: Global, supply: &Supply, frozen: &Frozen) -> Result<Supply, NoMemory>
    requires { length supply.now.globals ≤ length frozen.now.globals }
    ensures { IfOk result (λ made. made ≡ state.state_supply_of supply.now (state_of_frozen frozen.now)) }
{
    let globals = frozen_values(alloc, frozen, 0, supply.globals.as_slice().len())?;
    Ok(Supply {
        memory: supplied_limits(supply.memory, known_pages(frozen)),
        table: supplied_limits(supply.table, known_entries(frozen)),
        globals: List::from_vec(globals),
    })
}

/// Tables, memories and defined globals with what was frozen.
fn store_parts(
    alloc: Global,
    module: &Module,
    imported: usize,
    frozen: &Frozen,
) -> Result<StoreParts, NoMemory>
    requires { imported + length «module».now.globals ≤ length frozen.now.globals }
    ensures tables { IfOk result (λ parts. parts.tables
        ≡ map (state.with_min (length (state_of_frozen frozen.now).entries)) «module».now.tables) }
    ensures memories { IfOk result (λ parts. parts.memories
        ≡ map (state.with_min (state.state_pages (state_of_frozen frozen.now))) «module».now.memories) }
    ensures globals { IfOk result (λ parts. parts.globals
        ≡ state.state_globals «module».now.globals (drop imported frozen.now.globals)) }
{
    let tables = all_with_min(alloc, module.tables.as_slice(), known_entries(frozen))?;
    let memories = all_with_min(alloc, module.memories.as_slice(), known_pages(frozen))?;
    let globals = defined_globals(alloc, module.globals.as_slice(), imported, frozen)?;
    Ok(StoreParts {
        tables,
        memories,
        globals,
    })
}

/// The segments of what was frozen.
fn segment_parts(alloc: Global, frozen: &Frozen) -> Result<SegmentParts, NoMemory>
    ensures elems { IfOk result (λ parts. parts.elems ≡ elem_segments (state_of_frozen frozen.now).entries) }
    ensures datas { IfOk result (λ parts. parts.datas ≡ data_segments (state_of_frozen frozen.now).bytes) }
{
    let elems = frozen_elems(alloc, frozen)?;
    let datas = frozen_datas(alloc, frozen)?;
    Ok(SegmentParts { elems, datas })
}

/// The module with other parts and without a start function.
fn with_parts(module: Module, store: StoreParts, segments: SegmentParts) -> Module
    ensures { result ≡ with_parts «module» store segments }
{
    let Module {
        types,
        imports,
        funcs,
        exports,
        customs,
        ..
    } = module;
    let StoreParts {
        tables,
        memories,
        globals,
    } = store;
    let SegmentParts { elems, datas } = segments;
    Module {
        types,
        imports,
        funcs,
        tables,
        memories,
        globals,
        exports,
        start: None,
        elems,
        datas,
        customs,
    }
}

/// The number of pages of what was frozen.
fn known_pages(frozen: &Frozen) -> u32
    ensures { result ≡ state.state_pages (state_of_frozen frozen.now) }
{
    frozen.pages()
}

/// The number of entries of what was frozen.
fn known_entries(frozen: &Frozen) -> u32
    ensures { result ≡ length (state_of_frozen frozen.now).entries }
{
    frozen.entries()
}

/// Limits that begin with this size.
fn with_min(limits: Limits, size: u32) -> Limits
    ensures { result ≡ state.with_min size limits }
{
    Limits {
        min: size,
        max: limits.max,
    }
}

/// Limits that begin with this size, if there are any.
fn supplied_limits(limits: Option<Limits>, size: u32) -> Option<Limits>
    ensures { result ≡ option_map (state.with_min size) limits }
{
    match limits {
        Some(limits) => Some(with_min(limits, size)),
        None => None,
    }
}

/// Limits that all begin with this size.
fn all_with_min(alloc: Global, limits: &[Limits], size: u32) -> Result<LimitsList, NoMemory>
    ensures { IfOk result (λ made. made ≡ map (state.with_min size) limits.now) }
{
    let mut made = Vec::with_capacity(alloc, limits.len())?;
    'limits: for limits in limits {
        made.push(with_min(*limits, size))?;
    }
    Ok(List::from_vec(made))
}
