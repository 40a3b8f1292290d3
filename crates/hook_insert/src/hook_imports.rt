// The imports and types that are added to an instrumented module.

ghost use Rattle.std.specs.Prelude.{◌≡◌, ◌+◌, ◌<◌, ◌++◌, ◌∷◌, [], length, map, IfOk, OnOk};
ghost use Rattle.record_replay_spec.specs.Hooks.{hook_name, hook_type, hooks};
ghost use Rattle.record_replay_spec.specs.Instrumented.{hook_import, hook_types, place_among};
ghost use Rattle.wasm_flat.specs.Sizes.{list_limit};

use base::NoMemory;
use hook_names::HOOKS;
use record_replay_spec::Hook;
use std::alloc::Global;
use wasm_syntax::ValType::{I32, I64};
use wasm_syntax::{FuncType, FuncTypes, Import, ImportKind, Imports, List, Module, Name, ValType};

/// The types of a module and, after them, those of the hooks, each once.
pub(crate) fn hooked_types(alloc: Global, module: &Module) -> Result<FuncTypes, NoMemory>
    ensures { IfOk result (λ types. types ≡ «module».now.types ++ hook_types) }
{
    let mut types = module.types.clone()?.into_vec();
    types.push(hook_type(alloc, &[I32, I64])?)?;
    types.push(hook_type(alloc, &[I32])?)?;
    types.push(hook_type(alloc, &[])?)?;
    types.push(hook_type(alloc, &[I32, I32, I32])?)?;
    types.push(hook_type(alloc, &[I32, I32, I32, I64])?)?;
    Ok(List::from_vec(types))
}

/// The type of a hook with these parameters.
fn hook_type(alloc: Global, params: &[ValType]) -> Result<FuncType, NoMemory>
    ensures { IfOk result (λ ty. ty ≡ record { params = params.now; results = [] }) }
{
    Ok(FuncType {
        params: List::from_vec(Vec::from_slice(alloc, params)?),
        results: List::new(alloc),
    })
}

/// The imports of a module, and the hooks after them.
pub(crate) fn hooked_imports(alloc: Global, module: &Module) -> Result<Imports, NoMemory>
    requires { length «module».now.types < list_limit }
    ensures { IfOk result (λ imports. imports ≡ «module».now.imports ++ map (hook_import «module».now) hooks) }
{
    let mut imports = module.imports.clone()?.into_vec();
    'hooks: for kind in &HOOKS {
        imports.push(hook_import(alloc, module, *kind)?)?;
    }
    Ok(List::from_vec(imports))
}

/// The import of a hook.
fn hook_import(alloc: Global, module: &Module, kind: Hook) -> Result<Import, NoMemory>
    requires { length «module».now.types < list_limit }
    ensures { IfOk result (λ import. import ≡ hook_import «module».now kind) }
{
    let types = module.types.as_slice().len() as u32;
    let from = name(alloc, "r3")?;
    let name = name(alloc, hook_name(kind))?;
    Ok(Import {
        module: from,
        name,
        kind: ImportKind::Func(types + type_place(kind)),
    })
}

/// The index of a hook's type among the types of all hooks.
fn type_place(kind: Hook) -> u32
    ensures place { result ≡ place_among hook_types (hook_type kind) }
    ensures within { result < 5 }
{
    match kind {
        Hook::Arg | Hook::Gget | Hook::Gset => 0,
        Hook::Enter | Hook::Leave | Hook::Pre | Hook::Post | Hook::Ipre | Hook::Grow => 1,
        Hook::Ipost | Hook::Size => 2,
        Hook::Load | Hook::Copy | Hook::Fill => 3,
        Hook::Store => 4,
    }
}

/// The name by which a hook is imported.
pub(crate) fn hook_name(kind: Hook) -> &'static str
    ensures { result.now ≡ hook_name kind }
{
    match kind {
        Hook::Arg => "arg",
        Hook::Enter => "enter",
        Hook::Leave => "leave",
        Hook::Pre => "pre",
        Hook::Post => "post",
        Hook::Ipre => "ipre",
        Hook::Ipost => "ipost",
        Hook::Load => "load",
        Hook::Store => "store",
        Hook::Size => "size",
        Hook::Grow => "grow",
        Hook::Gget => "gget",
        Hook::Gset => "gset",
        Hook::Copy => "copy",
        Hook::Fill => "fill",
    }
}

/// The name of a text.
pub(crate) fn name(alloc: Global, text: &str) -> Result<Name, NoMemory>
    ensures { IfOk result (λ name. name ≡ text.now) }
{
    Ok(Name::from_string(String::from_str(alloc, text)?))
}
