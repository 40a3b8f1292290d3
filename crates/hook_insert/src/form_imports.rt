// Whether a module imports the hooks.

ghost use Rattle.std.specs.Prelude.{◌≡◌, ◌<◌, length, drop, filter};
ghost use Rattle.wasm_syntax.specs.Alike.{same_signature, same_types};
ghost use Rattle.wasm_syntax.specs.Index.{func_import, imported_funcs, of_kind};
ghost use Rattle.wasm_flat.specs.Sizes.{list_limit};
ghost use Rattle.record_replay_spec.specs.Hooks.{hook_params, hook_type, hooks};
ghost use Rattle.record_replay_spec.specs.HookedForm.{are_hooks, brings, imports_hooks, is_from_hooks, is_func_kind, is_hook, own_imports};

use crate::hook_imports::hook_name;
use hook_names::{HOOK_COUNT, HOOKS, Hook};
use module_index::same_type;
use wasm_syntax::ValType::{I32, I64};
use wasm_syntax::{FuncType, Import, ImportKind, Module, ValType};

/// The number of functions that the original imports, if the last imports of functions are the hooks.
pub(crate) fn own_imports(module: &Module) -> u32
    requires { imported_funcs «module».now < list_limit }
    ensures { result ≡ own_imports «module».now }
{
    (func_imports(module.imports.as_slice()) as u32).saturating_sub(HOOK_COUNT)
}

/// The number of imports of functions.
#[tactic(auto, using(crate::proofs::FormImports::funcs_counted))]
fn func_imports(imports: &[Import]) -> usize
    ensures { result ≡ length (of_kind func_import imports.now) }
{
    imports.iter().filter(|import| is_func(import.kind)).count()
}

/// Whether an import is of a function.
fn is_func(kind: ImportKind) -> bool
    ensures { result ≡ is_func_kind kind }
{
    matches!(kind, ImportKind::Func(_))
}

/// Whether the last imports of functions are the hooks, and no other import is from their module. The original imports
/// `own` functions.
pub(crate) fn imports_hooks(module: &Module, own: u32) -> bool
    requires { own ≡ own_imports «module».now }
    ensures { result ≡ imports_hooks «module».now }
{
    let imports = module.imports.as_slice();
    are_hooks_after(module, imports, own) && from_hooks(imports) == HOOKS.len()
}

/// The number of imports from the hooks' module.
#[tactic(auto, using(crate::proofs::FormImports::hooks_counted))]
fn from_hooks(imports: &[Import]) -> usize
    ensures { result ≡ length (filter is_from_hooks imports.now) }
{
    imports
        .iter()
        .filter(|import| import.module.as_str() == "r3")
        .count()
}

/// Whether the imports of functions after the first `own` are the hooks, with types of the module.
fn are_hooks_after(module: &Module, imports: &[Import], own: u32) -> bool
    ensures { result ≡ are_hooks «module».now hooks
        (drop own (filter (λ import. is_func_kind import.kind) imports.now)) }
{
    let mut skipped = own;
    let mut place = 0;
    'imports: for import in imports {
        if !is_func(import.kind) {
            continue;
        }
        if skipped > 0 {
            skipped -= 1;
        } else if place < HOOKS.len() && is_hook(module, HOOKS[place], import) {
            place += 1;
        } else {
            return false;
        }
    }
    place == HOOKS.len()
}

/// Whether an import is this hook.
fn is_hook(module: &Module, kind: Hook, import: &Import) -> bool
    ensures { result ≡ is_hook «module».now kind import.now }
{
    import.module.as_str() == "r3"
        && import.name.as_str() == hook_name(kind)
        && brings(module, kind, import.kind)
}

/// Whether an import is of a function with a hook's type.
fn brings(module: &Module, kind: Hook, import: ImportKind) -> bool
    ensures { result ≡ brings «module».now (hook_type kind) import }
{
    match import {
        ImportKind::Func(ty) => match module.types.as_slice().get(ty as usize) {
            Some(ty) => has_type(ty, kind),
            None => false,
        },
        _ => false,
    }
}

/// Whether a type is a hook's.
fn has_type(ty: &FuncType, kind: Hook) -> bool
    ensures { result ≡ same_signature ty.now (hook_type kind) }
{
    same_types(ty.params.as_slice(), hook_params(kind)) && same_types(ty.results.as_slice(), &[])
}

/// Whether two lists of types are equal.
fn same_types(types: &[ValType], others: &[ValType]) -> bool
    ensures { result ≡ same_types types.now others.now }
{
    if types.len() != others.len() {
        return false;
    }
    'places: for place in 0..types.len() {
        if !same_type(types[place], others[place]) {
            return false;
        }
    }
    true
}

/// The types of a hook's parameters.
fn hook_params(kind: Hook) -> &'static [ValType]
    ensures { result.now ≡ hook_params kind }
{
    match kind {
        Hook::Arg | Hook::Gget | Hook::Gset => &[I32, I64],
        Hook::Enter | Hook::Leave | Hook::Pre | Hook::Post | Hook::Ipre | Hook::Grow => &[I32],
        Hook::Ipost | Hook::Size => &[],
        Hook::Load | Hook::Copy | Hook::Fill => &[I32, I32, I32],
        Hook::Store => &[I32, I32, I32, I64],
    }
}
