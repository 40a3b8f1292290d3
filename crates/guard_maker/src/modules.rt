// The guarded module of a replay module.

ghost use Rattle.std.specs.Prelude.{◌≡◌, ◌+◌, ◌<◌, ◌≤◌, ◌^◌, IfOk, length};
ghost use Rattle.replay_module_spec.specs.Functions.{group_count};
ghost use Rattle.replay_form.specs.Sides.{as_layout};
ghost use Rattle.guarded_module_spec.specs.Numbers as numbers;
ghost use Rattle.guarded_module_spec.specs.GuardedModules as spec;
ghost use Rattle.guarded_module_spec.specs.Forms.{IsGuardable};
ghost use Rattle.guard_maker.specs.Bounds.{FitsNumbers, HasRoom, HasSmallTypes};
ghost use Rattle.guard_maker.specs.Modules.{code_of, module_of_parts, with_own_parts};

use crate::funcs::{guarded_funcs, sides_of};
use crate::numbers::numbers_of;
use crate::parts::{own_exports, with_own_globals, with_own_types, with_section};
use base::NoMemory;
use guarded_module_laws::guarded_modules_are_valid;
use guarded_module_spec::Numbers;
use replay_form::Layout;
use std::alloc::Global;
use wasm_syntax::{
    Customs, DataSegs, ElemSegs, Exports, Func, FuncTypes, Funcs, Globals, Imports, LimitsList,
    List, Module,
};
use wasm_validate::Checked;

/// The parts of a module that a guarded module changes, but for its exports.
#[derive(Drop)]
pub(crate) struct Code {
    types: FuncTypes,
    funcs: Funcs,
    globals: Globals,
    customs: Customs,
}

/// The parts of a module that a guarded module keeps.
#[derive(Drop)]
pub(crate) struct Kept {
    imports: Imports,
    tables: LimitsList,
    memories: LimitsList,
    start: Option<u32>,
    elems: ElemSegs,
    datas: DataSegs,
}

/// The guarded module of a replay module, of its layout and of the function that it exports, for given words. It is
/// valid. The functions of the replay module are moved and not copied.
///
/// # Errors
///
/// `NoMemory` if memory is out.
pub fn guard_of(
    alloc: Global,
    replay: Checked,
    layout: Layout,
    entry: u32,
    words: &[u64],
) -> Result<Checked, NoMemory>
    requires guardable { IsGuardable replay (as_layout layout) entry }
    requires fits { FitsNumbers replay (as_layout layout) (length words.now) }
    ensures { IfOk result (λ guarded. guarded ≡ spec.guarded_module replay (as_layout layout) entry words.now) }
{
    guarded_modules_are_valid();
    let guarded = guarded_module(alloc, replay.into_module(), layout, entry, words)?;
    Ok(Checked::new(guarded))
}

/// The guarded module, not yet known to be valid.
fn guarded_module(
    alloc: Global,
    module: Module,
    layout: Layout,
    entry: u32,
    words: &[u64],
) -> Result<Module, NoMemory>
    requires { FitsNumbers «module» (as_layout layout) (length words.now) }
    ensures { IfOk result (λ guarded. guarded ≡ spec.guarded_module «module» (as_layout layout) entry words.now) }
{
    let n = numbers_of(&module, layout, words.len());
    let exports = own_exports(alloc, n)?;
    let (code, kept) = parts_of(module);
    let code = guarded_code(alloc, code, n, layout, entry, words)?;
    Ok(module_of_parts(code, kept, exports))
}

/// The parts of a module that a guarded module changes, and those that it keeps.
fn parts_of(module: Module) -> (Code, Kept)
    ensures types { result.0.types ≡ «module».types }
    ensures funcs { result.0.funcs ≡ «module».funcs }
    ensures globals { result.0.globals ≡ «module».globals }
    ensures customs { result.0.customs ≡ «module».customs }
    ensures imports { result.1.imports ≡ «module».imports }
    ensures tables { result.1.tables ≡ «module».tables }
    ensures memories { result.1.memories ≡ «module».memories }
    ensures start { result.1.start ≡ «module».start }
    ensures elems { result.1.elems ≡ «module».elems }
    ensures datas { result.1.datas ≡ «module».datas }
{
    let Module {
        types,
        imports,
        funcs,
        tables,
        memories,
        globals,
        start,
        elems,
        datas,
        customs,
        ..
    } = module;
    (
        Code {
            types,
            funcs,
            globals,
            customs,
        },
        Kept {
            imports,
            tables,
            memories,
            start,
            elems,
            datas,
        },
    )
}

/// The changed parts of the guarded module.
fn guarded_code(
    alloc: Global,
    code: Code,
    n: Numbers,
    layout: Layout,
    entry: u32,
    words: &[u64],
) -> Result<Code, NoMemory>
    requires room { HasRoom n }
    requires small { HasSmallTypes code.types }
    requires within { layout.imports + layout.defined ≤ length code.funcs }
    requires imports { n.imports ≡ layout.imports }
    requires past { n.past ≡ layout.imports + layout.defined }
    requires few { numbers.first_group n + group_count (length words.now) < 2 ^ 32 }
    requires short { length words.now < 2 ^ 32 }
    ensures { IfOk result (λ made. made ≡ code_of code n (as_layout layout) entry words.now) }
{
    let Code {
        types,
        funcs,
        globals,
        customs,
    } = code;
    let sides = sides_of(funcs.into_vec(), layout.imports, layout.defined)?;
    let funcs = guarded_funcs(alloc, n, types.as_slice(), sides, entry, words)?;
    with_own_parts(alloc, types, funcs, globals, customs, words.len())
}

/// The changed parts, with types, globals and a section of the guarded module's own.
fn with_own_parts(
    alloc: Global,
    types: FuncTypes,
    funcs: Vec<Func>,
    globals: Globals,
    customs: Customs,
    words: usize,
) -> Result<Code, NoMemory>
    requires { words < 2 ^ 32 }
    ensures { IfOk result (λ made. made ≡ with_own_parts types funcs.items globals customs words) }
{
    let types = with_own_types(alloc, types)?;
    let globals = with_own_globals(alloc, globals, words)?;
    let customs = with_section(alloc, customs)?;
    Ok(Code {
        types,
        funcs: List::from_vec(funcs),
        globals,
        customs,
    })
}

/// The module of its parts and exports.
fn module_of_parts(code: Code, kept: Kept, exports: Exports) -> Module
    ensures { result ≡ module_of_parts code kept exports }
{
    let Code {
        types,
        funcs,
        globals,
        customs,
    } = code;
    let Kept {
        imports,
        tables,
        memories,
        start,
        elems,
        datas,
    } = kept;
    Module {
        types,
        imports,
        funcs,
        tables,
        memories,
        globals,
        exports,
        start,
        elems,
        datas,
        customs,
    }
}
