// The kinds of items that vectors hold, each with the reader of an item.

ghost use Rattle.leb_bytes.specs.ReadResults.{Gives};
ghost use Rattle.leb_bytes.specs.Unsigned as unsigned;
ghost use Rattle.wasm_syntax.specs.Encoding.Readers.{first_code, first_data, first_elem, first_export, first_func_type, first_global, first_import, first_limits, first_run, first_table_type, first_val_type};

use crate::code::{CodeItem, first_code};
use crate::items::{first_data, first_elem, first_export, first_global, first_import};
use crate::locals::first_run;
use crate::types::{first_func_type, first_limits, first_table_type, first_val_type};
use crate::values::{Read, first_u32};
use std::alloc::Global;
use wasm_syntax::{
    DataSeg, ElemSeg, Export, Form, FuncType, Global as GlobalItem, Import, Limits, Run, ValType,
};

/// A kind of items that vectors hold.
pub(crate) trait Kind {
    ghost use Rattle.std.specs.Prelude.{ℕ, List, Option};
    ghost use Rattle.wasm_syntax.specs.declared.forms.Form.{Form};

    /// What an item is read into.
    type Item: Drop;

    // the plain reader of an item
    ghost first: { Form → List ℕ → Option (Self.Item × List ℕ) };

    /// Reads an item.
    fn first(alloc: Global, form: Form, bytes: &[u8]) -> Read<'_, Self::Item>
        ensures { Gives (λ read. (read.0, read.1.now)) result (first form bytes.now) };
}

impl Kind for u32 {
    type Item = u32;

    ghost first = { λ _. unsigned.first_u32 };

    fn first(_alloc: Global, _form: Form, bytes: &[u8]) -> Read<'_, u32> {
        first_u32(bytes)
    }
}

impl Kind for ValType {
    type Item = ValType;

    ghost first = { λ _. first_val_type };

    fn first(_alloc: Global, _form: Form, bytes: &[u8]) -> Read<'_, ValType> {
        first_val_type(bytes)
    }
}

impl Kind for FuncType {
    type Item = FuncType;

    ghost first = { λ _. first_func_type };

    fn first(alloc: Global, form: Form, bytes: &[u8]) -> Read<'_, FuncType> {
        first_func_type(alloc, form, bytes)
    }
}

/// The types of memories.
impl Kind for Limits {
    type Item = Limits;

    ghost first = { λ _. first_limits };

    fn first(_alloc: Global, _form: Form, bytes: &[u8]) -> Read<'_, Limits> {
        first_limits(bytes)
    }
}

/// The types of tables, which are limits too.
pub(crate) struct Tables;

impl Kind for Tables {
    type Item = Limits;

    ghost first = { λ _. first_table_type };

    fn first(_alloc: Global, _form: Form, bytes: &[u8]) -> Read<'_, Limits> {
        first_table_type(bytes)
    }
}

impl Kind for Import {
    type Item = Import;

    ghost first = { λ _. first_import };

    fn first(alloc: Global, _form: Form, bytes: &[u8]) -> Read<'_, Import> {
        first_import(alloc, bytes)
    }
}

impl Kind for GlobalItem {
    type Item = GlobalItem;

    ghost first = { first_global };

    fn first(alloc: Global, form: Form, bytes: &[u8]) -> Read<'_, GlobalItem> {
        first_global(alloc, form, bytes)
    }
}

impl Kind for Export {
    type Item = Export;

    ghost first = { λ _. first_export };

    fn first(alloc: Global, _form: Form, bytes: &[u8]) -> Read<'_, Export> {
        first_export(alloc, bytes)
    }
}

impl Kind for ElemSeg {
    type Item = ElemSeg;

    ghost first = { first_elem };

    fn first(alloc: Global, form: Form, bytes: &[u8]) -> Read<'_, ElemSeg> {
        first_elem(alloc, form, bytes)
    }
}

impl Kind for DataSeg {
    type Item = DataSeg;

    ghost first = { first_data };

    fn first(alloc: Global, form: Form, bytes: &[u8]) -> Read<'_, DataSeg> {
        first_data(alloc, form, bytes)
    }
}

impl Kind for Run {
    type Item = Run;

    ghost first = { λ _. first_run };

    fn first(_alloc: Global, _form: Form, bytes: &[u8]) -> Read<'_, Run> {
        first_run(bytes)
    }
}

impl Kind for CodeItem {
    type Item = CodeItem;

    ghost first = { first_code };

    fn first(alloc: Global, form: Form, bytes: &[u8]) -> Read<'_, CodeItem> {
        first_code(alloc, form, bytes)
    }
}
