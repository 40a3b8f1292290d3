// Exports with the numbers of what they name.

ghost use Rattle.std.specs.Prelude.{◌≡◌, map, IfOk};
ghost use Rattle.instance_spec.specs.Widened.{renamed_export, renamed_kind};

use crate::numbering::Numbering;
use base::NoMemory;
use std::alloc::Global;
use wasm_syntax::{Export, ExportKind, Exports, List};

/// Exports with the numbers of the functions that they name.
///
/// # Errors
///
/// `NoMemory` if an allocation failed.
pub fn renamed_exports<N: Numbering>(
    alloc: Global,
    numbering: &N,
    exports: &[Export],
) -> Result<Exports, NoMemory>
    ensures { IfOk result (λ list. list ≡ map (renamed_export (N.instance numbering.now)) exports.now) }
{
    let mut list = Vec::with_capacity(alloc, exports.len())?;
    'exports: for export in exports {
        list.push(renamed_export(numbering, export)?)?;
    }
    Ok(List::from_vec(list))
}

/// An export with the number of what it names.
fn renamed_export<N: Numbering>(numbering: &N, export: &Export) -> Result<Export, NoMemory>
    ensures { IfOk result (λ made. made ≡ renamed_export (N.instance numbering.now) export.now) }
{
    let name = export.name.clone()?;
    Ok(Export {
        name,
        kind: renamed_kind(numbering, export.kind),
    })
}

/// What an export names, by its number if it is a function.
fn renamed_kind<N: Numbering>(numbering: &N, kind: ExportKind) -> ExportKind
    ensures { result ≡ renamed_kind (N.instance numbering.now) kind }
{
    match kind {
        ExportKind::Func(func) => ExportKind::Func(numbering.func(func)),
        other => other,
    }
}
