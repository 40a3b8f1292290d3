// Exports, start and segments, with their functions renumbered.

ghost use Rattle.std.specs.Prelude.{◌≡◌, map, All, IfOk};
ghost use Rattle.wasm_syntax.specs.declared.modules.Export.{Export as Exported};
ghost use Rattle.record_replay_spec.specs.Hooks.{renumber};
ghost use Rattle.record_replay_spec.specs.Instrumented.{renumbered_elem, renumbered_export, renumbered_kind};
ghost use Rattle.hook_insert.specs.Sites.{AreLow, IsLowElem, IsLowKind};

use base::NoMemory;
use hook_names::renumber;
use std::alloc::Global;
use wasm_syntax::{ElemSeg, ElemSegs, Export, ExportKind, Exports, Indices, List};

/// Exports of a module that imports `imports` functions, renumbered.
pub(crate) fn renumbered_exports(
    alloc: Global,
    imports: u32,
    exports: &[Export],
) -> Result<Exports, NoMemory>
    requires { All (λ (e : Exported). IsLowKind e.kind) exports.now }
    ensures { IfOk result (λ list. list ≡ map (renumbered_export imports) exports.now) }
{
    let mut list = Vec::with_capacity(alloc, exports.len())?;
    'exports: for export in exports {
        list.push(renumbered_export(imports, export)?)?;
    }
    Ok(List::from_vec(list))
}

/// An export, renumbered.
fn renumbered_export(imports: u32, export: &Export) -> Result<Export, NoMemory>
    requires { IsLowKind export.now.kind }
    ensures { IfOk result (λ made. made ≡ renumbered_export imports export.now) }
{
    let name = export.name.clone()?;
    Ok(Export {
        name,
        kind: renumbered_kind(imports, export.kind),
    })
}

/// What an export names, renumbered.
fn renumbered_kind(imports: u32, kind: ExportKind) -> ExportKind
    requires { IsLowKind kind }
    ensures { result ≡ renumbered_kind imports kind }
{
    match kind {
        ExportKind::Func(func) => ExportKind::Func(renumber(imports, func)),
        other => other,
    }
}

/// Element segments, renumbered.
pub(crate) fn renumbered_elems(
    alloc: Global,
    imports: u32,
    elems: &[ElemSeg],
) -> Result<ElemSegs, NoMemory>
    requires { All IsLowElem elems.now }
    ensures { IfOk result (λ list. list ≡ map (renumbered_elem imports) elems.now) }
{
    let mut list = Vec::with_capacity(alloc, elems.len())?;
    'elems: for elem in elems {
        list.push(renumbered_elem(alloc, imports, elem)?)?;
    }
    Ok(List::from_vec(list))
}

/// An element segment, renumbered.
fn renumbered_elem(alloc: Global, imports: u32, elem: &ElemSeg) -> Result<ElemSeg, NoMemory>
    requires { IsLowElem elem.now }
    ensures { IfOk result (λ made. made ≡ renumbered_elem imports elem.now) }
{
    match elem {
        ElemSeg::Active {
            table,
            offset,
            funcs,
        } => {
            let offset = offset.clone()?;
            let funcs = renumbered_funcs(alloc, imports, funcs.as_slice())?;
            Ok(ElemSeg::Active {
                table: *table,
                offset,
                funcs,
            })
        }
        ElemSeg::Declared { funcs } => {
            let funcs = renumbered_funcs(alloc, imports, funcs.as_slice())?;
            Ok(ElemSeg::Declared { funcs })
        }
    }
}

/// Functions, renumbered.
fn renumbered_funcs(alloc: Global, imports: u32, funcs: &[u32]) -> Result<Indices, NoMemory>
    requires { AreLow funcs.now }
    ensures { IfOk result (λ list. list ≡ map (renumber imports) funcs.now) }
{
    let mut list = Vec::with_capacity(alloc, funcs.len())?;
    'funcs: for func in funcs {
        list.push(renumber(imports, *func))?;
    }
    Ok(List::from_vec(list))
}
