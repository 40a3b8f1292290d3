// The exports of a linked module.

ghost use Rattle.std.specs.Prelude.{◌≡◌, ◌++◌, map, IfOk, List, ℕ};
ghost use Rattle.pair_spec.specs.Linked.{linked_export_kind, side_prefix};
ghost use Rattle.linked_pair.specs.SideNumbers.{instance_by};
ghost use Rattle.linked_pair.specs.Parts.{export_by};

use crate::numbers::SideNumbers;
use base::NoMemory;
use instance_spec::Side;
use renamed_modules::Numbering;
use std::alloc::Global;
use wasm_syntax::{Export, ExportKind, Exports, List, Name};

/// Exports, and after them those of a side.
pub(crate) fn with_linked_exports(
    alloc: Global,
    numbers: &SideNumbers,
    side: Side,
    before: Exports,
    exports: &[Export],
) -> Result<Exports, NoMemory>
    ensures { IfOk result (λ list. list
        ≡ before ++ map (export_by (instance_by numbers.now) side) exports.now) }
{
    let mut list = before.into_vec();
    list.reserve(exports.len())?;
    'exports: for export in exports {
        list.push(linked_export(alloc, numbers, side, export)?)?;
    }
    Ok(List::from_vec(list))
}

/// An export of a side.
fn linked_export(
    alloc: Global,
    numbers: &SideNumbers,
    side: Side,
    export: &Export,
) -> Result<Export, NoMemory>
    ensures { IfOk result (λ made. made ≡ export_by (instance_by numbers.now) side export.now) }
{
    let name = prefixed_name(alloc, side, &export.name)?;
    Ok(Export {
        name,
        kind: linked_export_kind(numbers, export.kind),
    })
}

/// The name of a side's export in the linked module.
fn prefixed_name(alloc: Global, side: Side, name: &Name) -> Result<Name, NoMemory>
    ensures { IfOk result (λ made. made ≡ side_prefix side ++ name.now) }
{
    let mut text = String::from_str(alloc, side_prefix(side))?;
    text.push_str(name.as_str())?;
    Ok(Name::from_string(text))
}

/// The beginning of the names of a side's exports.
fn side_prefix(side: Side) -> &'static str
    ensures { result.now ≡ side_prefix side }
{
    match side {
        Side::Left => "left.",
        Side::Right => "right.",
    }
}

/// What an export names, by its number; there is one table and one memory.
fn linked_export_kind(numbers: &SideNumbers, kind: ExportKind) -> ExportKind
    ensures { result ≡ linked_export_kind (instance_by numbers.now) kind }
{
    match kind {
        ExportKind::Func(func) => ExportKind::Func(numbers.func(func)),
        ExportKind::Global(global) => ExportKind::Global(numbers.global(global)),
        ExportKind::Table(_) => ExportKind::Table(0),
        ExportKind::Memory(_) => ExportKind::Memory(0),
    }
}
