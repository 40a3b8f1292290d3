// Parts of the items of sections (Core 1.0, 5.5).

ghost use Rattle.std.specs.Prelude.{◌≡◌, ◌^◌, ◌<◌, ◌++◌, length, OnOk};
ghost use Rattle.wasm_encode.specs.Lengths.{at_most_u64};
ghost use Rattle.wasm_syntax.specs.Encoding.Shortest.{custom_bytes, export_kind_bytes, import_kind_bytes, sized_bytes};

use crate::lengths::{sized_length, u32_length};
use crate::parts::{push_byte, push_marked, push_pair};
use crate::types::{global_type_length, limits_length, write_global_type, write_limits};
use base::NoMemory;
use base::marks::{EXTERNAL_FUNC, EXTERNAL_GLOBAL, EXTERNAL_MEMORY, EXTERNAL_TABLE, TYPE_FUNCREF};
use wasm_syntax::{Custom, ExportKind, ImportKind, Name};

/// The number of bytes of a name (Core 1.0, 5.2.4).
pub(crate) fn name_length(name: &Name) -> u64
    ensures { result ≡ at_most_u64 (length (sized_bytes name.now)) }
{
    sized_length(name.as_str().len() as u64)
}

/// The number of bytes of the content of a custom section.
#[tactic(auto, unfolding(wasm_syntax::specs::Encoding::Shortest::custom_bytes))]
pub(crate) fn custom_length(custom: &Custom) -> u64
    ensures { result ≡ at_most_u64 (length (custom_bytes custom.now)) }
{
    name_length(&custom.name).saturating_add(custom.bytes.as_slice().len() as u64)
}

/// The number of bytes of the kind of an import.
pub(crate) fn import_kind_length(kind: ImportKind) -> u64
    ensures length { result ≡ length (import_kind_bytes kind) }
    ensures few { result < 2 ^ 9 }
{
    match kind {
        ImportKind::Func(ty) => 1 + u32_length(u64::from(ty)),
        ImportKind::Table(limits) => 2 + limits_length(&limits),
        ImportKind::Memory(limits) => 1 + limits_length(&limits),
        ImportKind::Global(ty) => 1 + global_type_length(ty),
    }
}

/// Appends the kind of an import.
pub(crate) fn write_import_kind(kind: ImportKind, out: &mut Vec<u8>) -> Result<(), NoMemory>
    ensures { OnOk result (out.new.items ≡ out.old.items ++ import_kind_bytes kind) }
{
    match kind {
        ImportKind::Func(ty) => push_marked(out, EXTERNAL_FUNC, ty),
        ImportKind::Table(limits) => {
            push_pair(out, EXTERNAL_TABLE, TYPE_FUNCREF)?;
            write_limits(&limits, out)
        }
        ImportKind::Memory(limits) => {
            push_byte(out, EXTERNAL_MEMORY)?;
            write_limits(&limits, out)
        }
        ImportKind::Global(ty) => {
            push_byte(out, EXTERNAL_GLOBAL)?;
            write_global_type(ty, out)
        }
    }
}

/// The number of bytes of the kind of an export.
pub(crate) fn export_kind_length(kind: ExportKind) -> u64
    ensures length { result ≡ length (export_kind_bytes kind) }
    ensures few { result < 2 ^ 9 }
{
    match kind {
        ExportKind::Func(index)
        | ExportKind::Table(index)
        | ExportKind::Memory(index)
        | ExportKind::Global(index) => 1 + u32_length(u64::from(index)),
    }
}

/// Appends the kind of an export.
pub(crate) fn write_export_kind(kind: ExportKind, out: &mut Vec<u8>) -> Result<(), NoMemory>
    ensures { OnOk result (out.new.items ≡ out.old.items ++ export_kind_bytes kind) }
{
    match kind {
        ExportKind::Func(func) => push_marked(out, EXTERNAL_FUNC, func),
        ExportKind::Table(table) => push_marked(out, EXTERNAL_TABLE, table),
        ExportKind::Memory(memory) => push_marked(out, EXTERNAL_MEMORY, memory),
        ExportKind::Global(global) => push_marked(out, EXTERNAL_GLOBAL, global),
    }
}
