// What a replay module has besides its functions, globals and segments: limits, its one export and its layout.

ghost use Rattle.std.specs.Prelude.{◌≡◌, ◌<◌, ◌^◌, [], ◌∷◌, length, min, option_map, IfOk};
ghost use Rattle.std.specs.Option.{option_to_list};
ghost use Rattle.wasm_syntax.specs.declared.limits.TheConstants.{MAX_DECLARED_PAGES};
ghost use Rattle.wasm_syntax.specs.Index.{func_indices};
ghost use Rattle.replay_module_spec.specs.Merge.{layout_section, memory_written};
ghost use Rattle.module_merge.specs.Parts.{start_export};

use base::NoMemory;
use leb_bytes::push_u32;
use module_index::scope::Scope;
use std::alloc::Global;
use wasm_syntax::limits::MAX_DECLARED_PAGES;
use wasm_syntax::{
    Bytes, Custom, Customs, Export, ExportKind, Exports, Limits, LimitsList, List, Name,
};

/// A list of the limits, empty if there are none.
pub(crate) fn limits_list(alloc: Global, limits: Option<Limits>) -> Result<LimitsList, NoMemory>
    ensures { IfOk result (λ list. list ≡ option_to_list limits) }
{
    let mut list = Vec::new(alloc);
    if let Some(limits) = limits {
        list.push(limits)?;
    }
    Ok(List::from_vec(list))
}

/// The limits that the replay module declares for a memory, if there is one.
pub(crate) fn written_limits(limits: Option<Limits>) -> Option<Limits>
    ensures { result ≡ option_map memory_written limits }
{
    match limits {
        Some(limits) => Some(Limits {
            min: limits.min,
            max: written_maximum(limits.max),
        }),
        None => None,
    }
}

/// A maximum that is too great is lowered to the greatest allowed, which changes no growth.
fn written_maximum(max: Option<u32>) -> Option<u32>
    ensures { result ≡ option_map (λ most. min most MAX_DECLARED_PAGES) max }
{
    match max {
        Some(max) => Some(max.min(MAX_DECLARED_PAGES)),
        None => None,
    }
}

/// The export of the function of this index as `_start`.
pub(crate) fn start_exports(alloc: Global, entry: u32) -> Result<Exports, NoMemory>
    ensures { IfOk result (λ list. list ≡ start_export entry ∷ []) }
{
    let mut exports = Vec::with_capacity(alloc, 1)?;
    exports.push_reserved(Export {
        name: Name::from_string(String::from_str(alloc, "_start")?),
        kind: ExportKind::Func(entry),
    });
    Ok(List::from_vec(exports))
}

/// The section that declares the numbers of functions that are imported and defined.
pub(crate) fn layout_sections(alloc: Global, scope: &Scope<'_>) -> Result<Customs, NoMemory>
    requires { length (func_indices scope.now) < 2 ^ 32 }
    ensures { IfOk result (λ list. list ≡ layout_section scope.now ∷ []) }
{
    let mut bytes = Vec::new(alloc);
    push_u32(&mut bytes, scope.imported_funcs() as u32)?;
    push_u32(&mut bytes, scope.module().funcs.as_slice().len() as u32)?;
    let mut customs = Vec::with_capacity(alloc, 1)?;
    customs.push_reserved(Custom {
        name: Name::from_string(String::from_str(alloc, "r3.layout")?),
        bytes: Bytes::from_vec(bytes),
    });
    Ok(List::from_vec(customs))
}
