// Instrumented modules.

ghost use Rattle.std.specs.Prelude.{◌≡◌, ◌<◌, ◌∷◌, [], ◌++◌, IfOk, IfSome, map, option_map, Some};
ghost use Rattle.wasm_syntax.specs.Encoding.Forms.{IsCoreModule};
ghost use Rattle.wasm_syntax.specs.Index.{imported_funcs};
ghost use Rattle.wasm_syntax.specs.Validity.{IsValid};
ghost use Rattle.wasm_flat.specs.Sizes.{IsShort, list_limit};
ghost use Rattle.record_replay_spec.specs.Hooks.{hooks, renumber};
ghost use Rattle.record_replay_spec.specs.Instrumented.{hook_import, hook_types, hooked_section, instrumented_module, instrumented_weights, renumbered_elem, renumbered_export, section_bytes, section_name};
ghost use Rattle.instrumented_module_laws.specs.Laws.{HasWords};
ghost use Rattle.hook_insert.specs.Modules.{HasLowNumbers, module_of_parts};

use crate::functions::{Functions, instrumented_funcs};
use crate::hook_imports::{hooked_imports, hooked_types, name};
use crate::renumbered_parts::{renumbered_elems, renumbered_exports};
use base::NoMemory;
use hook_names::renumber;
use instrumented_module_laws::instrumented_are_valid;
use leb_bytes::push_u32;
use module_index::scope::Scope;
use std::alloc::Global;
use wasm_flat::Meter;
use wasm_syntax::{
    Bytes, Custom, Customs, DataSegs, ElemSegs, Exports, FuncTypes, Globals, Imports, LimitsList,
    List, Module,
};
use wasm_validate::Checked;

/// An instrumented module, which is valid, with the meter under which its run takes the turns of the original's.
#[derive(Drop)]
pub struct InstrumentedModule {
    pub module: Checked,
    pub meter: Meter,
}

/// The parts that an instrumented module gets in addition to its functions.
#[derive(Drop)]
pub(crate) struct HookParts {
    types: FuncTypes,
    imports: Imports,
    exports: Exports,
    elems: ElemSegs,
    customs: Customs,
}

/// The parts that an instrumented module keeps from the original.
#[derive(Drop)]
pub(crate) struct OriginalParts {
    tables: LimitsList,
    memories: LimitsList,
    globals: Globals,
    datas: DataSegs,
    start: Option<u32>,
}

/// The instrumented module of a module of the form Core with this digest, and its meter. Takes time in the
/// length of the module alone.
///
/// # Errors
///
/// `NoMemory` if an allocation failed.
pub fn instrument(
    alloc: Global,
    checked: &Checked,
    digest: &[u8; 32],
) -> Result<InstrumentedModule, NoMemory>
    requires short { IsShort checked.now }
    requires core { IsCoreModule checked.now }
    requires words { HasWords checked.now }
    ensures module { IfOk result (λ hooked. hooked.«module» ≡ instrumented_module checked.now digest.now) }
    ensures meter { IfOk result (λ hooked. hooked.meter ≡ Some (instrumented_weights checked.now)) }
{
    // An instrumented module is always valid and needs no validation.
    instrumented_are_valid();
    let original = checked.module();
    let (module, weights) = instrumented_parts(alloc, original, digest)?;
    Ok(InstrumentedModule {
        module: Checked::new(module),
        meter: Meter::of(List::from_vec(weights)),
    })
}

/// The instrumented module of a valid module, and the weights of its instructions.
fn instrumented_parts(
    alloc: Global,
    module: &Module,
    digest: &[u8; 32],
) -> Result<(Module, Vec<Bytes>), NoMemory>
    requires short { IsShort «module».now }
    requires valid { IsValid «module».now }
    ensures module { IfOk result (λ parts. parts.0 ≡ instrumented_module «module».now digest.now) }
    ensures weights { IfOk result (λ parts. parts.1.items ≡ instrumented_weights «module».now) }
{
    let scope = Scope::of(alloc, module)?;
    let functions = instrumented_funcs(alloc, &scope)?;
    let imports = scope.imported_funcs() as u32;
    with_functions(alloc, module, imports, digest, functions)
}

/// The instrumented module of a module and of its functions, and the weights of these.
fn with_functions(
    alloc: Global,
    module: &Module,
    imports: u32,
    digest: &[u8; 32],
    functions: Functions,
) -> Result<(Module, Vec<Bytes>), NoMemory>
    requires imports { imports ≡ imported_funcs «module».now }
    requires low { HasLowNumbers «module».now }
    ensures module { IfOk result (λ parts. parts.0
        ≡ record (instrumented_module «module».now digest.now) { funcs = functions.funcs.items }) }
    ensures weights { IfOk result (λ parts. parts.1.items ≡ functions.weights.items) }
{
    let hooking = hooking_of(alloc, module, imports, digest)?;
    let kept = kept_of(module, imports)?;
    Ok(joined_parts(functions, hooking, kept))
}

/// The instrumented module with these parts, and the weights of its functions.
fn joined_parts(
    functions: Functions,
    hooking: HookParts,
    kept: OriginalParts,
) -> (Module, Vec<Bytes>)
    ensures module { result.0 ≡ module_of_parts functions.funcs.items hooking kept }
    ensures weights { result.1.items ≡ functions.weights.items }
{
    let Functions { funcs, weights } = functions;
    let HookParts {
        types,
        imports,
        exports,
        elems,
        customs,
    } = hooking;
    let OriginalParts {
        tables,
        memories,
        globals,
        datas,
        start,
    } = kept;
    let module = Module {
        types,
        imports,
        funcs: List::from_vec(funcs),
        tables,
        memories,
        globals,
        exports,
        start,
        elems,
        datas,
        customs,
    };
    (module, weights)
}

/// The parts that an instrumented module gets in addition.
fn hooking_of(
    alloc: Global,
    module: &Module,
    imports: u32,
    digest: &[u8; 32],
) -> Result<HookParts, NoMemory>
    requires imports { imports ≡ imported_funcs «module».now }
    requires low { HasLowNumbers «module».now }
    ensures types { IfOk result (λ made. made.types ≡ «module».now.types ++ hook_types) }
    ensures imports { IfOk result (λ made. made.imports
        ≡ «module».now.imports ++ map (hook_import «module».now) hooks) }
    ensures exports { IfOk result (λ made. made.exports ≡ map (renumbered_export imports) «module».now.exports) }
    ensures elems { IfOk result (λ made. made.elems ≡ map (renumbered_elem imports) «module».now.elems) }
    ensures customs { IfOk result (λ made. made.customs ≡ hooked_section «module».now digest.now ∷ []) }
{
    let types = hooked_types(alloc, module)?;
    let hooked = hooked_imports(alloc, module)?;
    let exports = renumbered_exports(alloc, imports, module.exports.as_slice())?;
    let elems = renumbered_elems(alloc, imports, module.elems.as_slice())?;
    let customs = hooked_sections(alloc, digest, imports, module.funcs.as_slice().len() as u32)?;
    Ok(HookParts {
        types,
        imports: hooked,
        exports,
        elems,
        customs,
    })
}

/// The parts that an instrumented module keeps from the original.
fn kept_of(module: &Module, imports: u32) -> Result<OriginalParts, NoMemory>
    requires low { HasLowNumbers «module».now }
    ensures tables { IfOk result (λ kept. kept.tables ≡ «module».now.tables) }
    ensures memories { IfOk result (λ kept. kept.memories ≡ «module».now.memories) }
    ensures globals { IfOk result (λ kept. kept.globals ≡ «module».now.globals) }
    ensures datas { IfOk result (λ kept. kept.datas ≡ «module».now.datas) }
    ensures start { IfOk result (λ kept. kept.start ≡ option_map (renumber imports) «module».now.start) }
{
    let tables = module.tables.clone()?;
    let memories = module.memories.clone()?;
    let globals = module.globals.clone()?;
    let datas = module.datas.clone()?;
    Ok(OriginalParts {
        tables,
        memories,
        globals,
        datas,
        start: renumbered_start(imports, module.start),
    })
}

/// The start function, renumbered.
fn renumbered_start(imports: u32, start: Option<u32>) -> Option<u32>
    requires { IfSome start (λ func. func < list_limit) }
    ensures { result ≡ option_map (renumber imports) start }
{
    match start {
        Some(func) => Some(renumber(imports, func)),
        None => None,
    }
}

/// The section that marks an instrumented module: the digest of the original's bytes, and the numbers of
/// functions that the original imports and defines.
fn hooked_sections(
    alloc: Global,
    digest: &[u8; 32],
    imports: u32,
    defined: u32,
) -> Result<Customs, NoMemory>
    ensures { IfOk result (λ customs. customs
        ≡ record { name = section_name; bytes = section_bytes digest.now imports defined } ∷ []) }
{
    let name = name(alloc, "r3.hooked")?;
    let mut bytes = Vec::from_slice(alloc, digest)?;
    push_u32(&mut bytes, imports)?;
    push_u32(&mut bytes, defined)?;
    let mut customs = Vec::with_capacity(alloc, 1)?;
    customs.push_reserved(Custom {
        name,
        bytes: List::from_vec(bytes),
    });
    Ok(List::from_vec(customs))
}
