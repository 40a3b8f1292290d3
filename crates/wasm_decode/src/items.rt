// Readers of the items of sections (Core 1.0, 5.5).

ghost use Rattle.std.specs.Prelude.{[], ◌∷◌};
ghost use Rattle.wasm_syntax.specs.Encoding.Combinators.{map_read, by_mark, first_sized, first_then, row_at};
ghost use Rattle.wasm_syntax.specs.Encoding.Readers.{first_indices, first_import_kind, first_import, first_global, first_export_kind, first_export, first_expr, active_of, first_elem, first_data};
ghost use Rattle.wasm_syntax.specs.declared.modules.ElemSeg.TheVariants.{Declared};
ghost use Rattle.wasm_syntax.specs.Encoding.ReadModules.{custom_of};
ghost use Rattle.leb_bytes.specs.ReadResults.{Gives};
ghost use Rattle.base.specs.declared.marks.TheConstants.{ELEMENT_FUNCS};

use crate::expressions::first_expr;
use crate::types::{first_global_type, first_limits, first_table_type};
use crate::values::{Read, copy_of, first_byte, first_bytes, first_name, first_sized, first_u32};
use crate::vectors::first_vector;
use base::marks::{
    ELEMENT_DECLARED, ELEMENT_FUNCS, EXTERNAL_FUNC, EXTERNAL_GLOBAL, EXTERNAL_MEMORY,
    EXTERNAL_TABLE,
};
use leb_bytes::Unread;
use std::alloc::Global;
use wasm_syntax::{
    Custom, DataSeg, ElemSeg, Export, ExportKind, Form, Global as GlobalItem, Import, ImportKind,
};

/// The number that a declared segment begins with, instead of its table.
const DECLARED: u32 = ELEMENT_DECLARED as u32;

/// What an import brings in (Core 1.0, 5.5.5).
#[tactic(auto, unfolding(wasm_syntax::specs::Encoding::Readers::first_import_kind))]
pub(crate) fn first_import_kind(bytes: &[u8]) -> Read<'_, ImportKind>
    ensures { Gives (λ read. (read.0, read.1.now)) result (first_import_kind bytes.now) }
{
    let (mark, rest) = first_byte(bytes)?;
    match mark {
        EXTERNAL_FUNC => {
            let (ty, rest) = first_u32(rest)?;
            Ok((ImportKind::Func(ty), rest))
        }
        EXTERNAL_TABLE => {
            let (limits, rest) = first_table_type(rest)?;
            Ok((ImportKind::Table(limits), rest))
        }
        EXTERNAL_MEMORY => {
            let (limits, rest) = first_limits(rest)?;
            Ok((ImportKind::Memory(limits), rest))
        }
        EXTERNAL_GLOBAL => {
            let (ty, rest) = first_global_type(rest)?;
            Ok((ImportKind::Global(ty), rest))
        }
        _ => Err(Unread::NotThere),
    }
}

/// An import (Core 1.0, 5.5.5).
#[tactic(auto, unfolding(wasm_syntax::specs::Encoding::Readers::first_import))]
pub(crate) fn first_import(alloc: Global, bytes: &[u8]) -> Read<'_, Import>
    ensures { Gives (λ read. (read.0, read.1.now)) result (first_import bytes.now) }
{
    let (module, rest) = first_name(alloc, bytes)?;
    let (name, rest) = first_name(alloc, rest)?;
    let (kind, rest) = first_import_kind(rest)?;
    Ok((Import { module, name, kind }, rest))
}

/// A global (Core 1.0, 5.5.9).
#[tactic(auto, unfolding(wasm_syntax::specs::Encoding::Readers::first_global))]
pub(crate) fn first_global(alloc: Global, form: Form, bytes: &[u8]) -> Read<'_, GlobalItem>
    ensures { Gives (λ read. (read.0, read.1.now)) result (first_global form bytes.now) }
{
    let (ty, rest) = first_global_type(bytes)?;
    let (init, rest) = first_expr(alloc, form, rest)?;
    Ok((GlobalItem { ty, init }, rest))
}

/// What an export names (Core 1.0, 5.5.10).
#[tactic(auto, unfolding(wasm_syntax::specs::Encoding::Readers::first_export_kind))]
pub(crate) fn first_export_kind(bytes: &[u8]) -> Read<'_, ExportKind>
    ensures { Gives (λ read. (read.0, read.1.now)) result (first_export_kind bytes.now) }
{
    let (mark, rest) = first_byte(bytes)?;
    if mark > EXTERNAL_GLOBAL {
        return Err(Unread::NotThere);
    }
    let (index, rest) = first_u32(rest)?;
    let kind = match mark {
        EXTERNAL_FUNC => ExportKind::Func(index),
        EXTERNAL_TABLE => ExportKind::Table(index),
        EXTERNAL_MEMORY => ExportKind::Memory(index),
        _ => ExportKind::Global(index),
    };
    Ok((kind, rest))
}

/// An export (Core 1.0, 5.5.10).
#[tactic(auto, unfolding(wasm_syntax::specs::Encoding::Readers::first_export))]
pub(crate) fn first_export(alloc: Global, bytes: &[u8]) -> Read<'_, Export>
    ensures { Gives (λ read. (read.0, read.1.now)) result (first_export bytes.now) }
{
    let (name, rest) = first_name(alloc, bytes)?;
    let (kind, rest) = first_export_kind(rest)?;
    Ok((Export { name, kind }, rest))
}

/// An element segment (Core 1.0, 5.5.12). In the replay form it is one of table 0, or a declared
/// one (Core 2.0, 5.5.12).
#[tactic(auto, unfolding(wasm_syntax::specs::Encoding::Readers::first_elem))]
pub(crate) fn first_elem(alloc: Global, form: Form, bytes: &[u8]) -> Read<'_, ElemSeg>
    ensures { Gives (λ read. (read.0, read.1.now)) result (first_elem form bytes.now) }
{
    let (kind, rest) = first_u32(bytes)?;
    match (form, kind) {
        (Form::Core, _) | (Form::Replay, 0) => active_elem(alloc, form, kind, rest),
        (Form::Replay, DECLARED) => declared_elem(alloc, form, rest),
        (Form::Replay, _) => Err(Unread::NotThere),
    }
}

/// The offset and the functions of an active segment of a table.
#[tactic(auto, unfolding(wasm_syntax::specs::Encoding::Readers::first_indices))]
fn active_elem(alloc: Global, form: Form, table: u32, bytes: &[u8]) -> Read<'_, ElemSeg>
    ensures { Gives (λ read. (read.0, read.1.now)) result
        (map_read (active_of table) (first_then (first_expr form) first_indices) bytes.now) }
{
    let (offset, rest) = first_expr(alloc, form, bytes)?;
    let (funcs, rest) = first_vector::<u32>(alloc, form, rest)?;
    Ok((
        ElemSeg::Active {
            table,
            offset,
            funcs,
        },
        rest,
    ))
}

/// The functions of a declared segment, after the kind of their references.
#[tactic(auto, unfolding(wasm_syntax::specs::Encoding::Readers::first_indices))]
fn declared_elem(alloc: Global, form: Form, bytes: &[u8]) -> Read<'_, ElemSeg>
    ensures { Gives (λ read. (read.0, read.1.now)) result
        (by_mark (row_at ((ELEMENT_FUNCS, map_read Declared first_indices) ∷ [])) bytes.now) }
{
    let (mark, rest) = first_byte(bytes)?;
    if mark != ELEMENT_FUNCS {
        return Err(Unread::NotThere);
    }
    let (funcs, rest) = first_vector::<u32>(alloc, form, rest)?;
    Ok((ElemSeg::Declared { funcs }, rest))
}

/// A data segment (Core 1.0, 5.5.14).
#[tactic(auto, unfolding(wasm_syntax::specs::Encoding::Readers::first_data))]
pub(crate) fn first_data(alloc: Global, form: Form, bytes: &[u8]) -> Read<'_, DataSeg>
    ensures { Gives (λ read. (read.0, read.1.now)) result (first_data form bytes.now) }
{
    let (memory, rest) = first_u32(bytes)?;
    let (offset, rest) = first_expr(alloc, form, rest)?;
    let (bytes, rest) = first_bytes(alloc, rest)?;
    Ok((
        DataSeg {
            memory,
            offset,
            bytes,
        },
        rest,
    ))
}

/// A custom section of all of the bytes (Core 1.0, 5.5.3).
fn custom_of(alloc: Global, bytes: &[u8]) -> Result<Custom, Unread>
    ensures { Gives (λ custom. custom) result (custom_of bytes.now) }
{
    let (name, rest) = first_name(alloc, bytes)?;
    let bytes = copy_of(alloc, rest)?;
    Ok(Custom { name, bytes })
}

/// A custom section, in as many bytes as its size.
pub(crate) fn first_custom(alloc: Global, bytes: &[u8]) -> Read<'_, Custom>
    ensures { Gives (λ read. (read.0, read.1.now)) result (first_sized custom_of bytes.now) }
{
    let (content, rest) = first_sized(bytes)?;
    Ok((custom_of(alloc, content)?, rest))
}
