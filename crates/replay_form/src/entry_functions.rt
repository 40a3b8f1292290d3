// The function that a replay module exports.

ghost use Rattle.std.specs.Prelude.{◌≡◌, ◌↔◌, ℕ, [], ◌∷◌, IsTrue, IfSome, IfNone, codes, bytes_eq};
ghost use Rattle.wasm_syntax.specs.declared.modules.Export as syntax;
ghost use Rattle.history_spec.specs.Replay.{func_of_start};
ghost use Rattle.replay_form.specs.Forms.{HasEntry, entry_exports, exported_entry, exports_but_globals, is_guarded, is_no_global};

use module_index::scope::Scope;
use wasm_syntax::{Export, ExportKind, FuncType, Module};

/// Whether a module is marked as a guarded replay.
fn is_guarded(module: &Module) -> bool
    ensures { result ≡ is_guarded «module».now }
{
    module
        .customs
        .as_slice()
        .iter()
        .any(|custom| custom.name.as_str() == "r3.guard")
}

/// Whether an export is none of a global.
fn is_no_global(kind: ExportKind) -> bool
    ensures { result ≡ is_no_global kind }
{
    !matches!(kind, ExportKind::Global(_))
}

/// The only export that is not one of a global.
fn only_but_globals(exports: &[Export]) -> Option<&Export>
    ensures found { IfSome result (λ export. exports_but_globals exports.now ≡ export.now ∷ []) }
    ensures absent { IfNone result
        ((export : syntax.Export) → exports_but_globals exports.now ≡ export ∷ [] → ⊥) }
{
    let mut found = None;
    'exports: for export in exports {
        if is_no_global(export.kind) {
            if found.is_some() {
                return None;
            }
            found = Some(export);
        }
    }
    found
}

/// The only export, or the only one that is not one of a global if the module is a guarded replay.
fn entry_export(module: &Module) -> Option<&Export>
    ensures found { IfSome result (λ export.
        entry_exports (is_guarded «module».now) «module».now.exports ≡ export.now ∷ []) }
    ensures absent { IfNone result ((export : syntax.Export)
        → entry_exports (is_guarded «module».now) «module».now.exports ≡ export ∷ [] → ⊥) }
{
    let exports = module.exports.as_slice();
    if is_guarded(module) {
        return only_but_globals(exports);
    }
    match exports {
        [export] => Some(export),
        _ => None,
    }
}

/// The function of an export, if its name is `_start`.
fn function_of_start(export: &Export) -> Option<u32>
    ensures { result ≡ func_of_start (bytes_eq export.now.name (codes "_start")) export.now.kind }
{
    if export.name.as_str() != "_start" {
        return None;
    }
    match export.kind {
        ExportKind::Func(func) => Some(func),
        _ => None,
    }
}

/// The function of the export that a replay module has for its run.
fn exported_function(module: &Module) -> Option<u32>
    ensures { result ≡ exported_entry «module».now }
{
    match entry_export(module) {
        Some(export) => function_of_start(export),
        None => None,
    }
}

/// Whether a function type has no parameters and no results.
fn is_empty_type(ty: &FuncType) -> bool
    ensures { IsTrue result ↔ ty.now ≡ record { params = []; results = [] } }
{
    ty.params.as_slice().is_empty() && ty.results.as_slice().is_empty()
}

/// The function that the run of a replay module calls: that of its only export, if its name is `_start` and it
/// has no parameters and results. A module with a custom section `r3.guard` may export globals besides.
pub fn entry_of(scope: &Scope) -> Option<u32>
    ensures found { IfSome result (λ entry. HasEntry scope.now entry) }
    ensures absent { IfNone result ((entry : ℕ) → HasEntry scope.now entry → ⊥) }
{
    let Some(func) = exported_function(scope.module()) else {
        return None;
    };
    match scope.func_type(func) {
        Some(ty) if is_empty_type(ty) => Some(func),
        _ => None,
    }
}
