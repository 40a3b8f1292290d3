// The kinds of items that lists of a module hold, each with its encoding (Core 1.0, 5.3 and 5.5).

ghost use Rattle.std.specs.Prelude.{◌≡◌, ◌++◌, length, IsUtf8};
ghost use Rattle.std.proofs.Common.{rules};
ghost use Rattle.leb_bytes.specs.Unsigned.{u32_bytes};
ghost use Rattle.wasm_encode.specs.Lengths.{at_most_u64};
ghost use Rattle.wasm_encode.specs.NotEmpty.{code_some, custom_some, data_some, elem_some, export_some, func_type_some, global_some, import_some, run_some};
ghost use Rattle.wasm_syntax.specs.Encoding.Encodable.{FitsDataSeg, FitsElemSeg, FitsExport, FitsFunc, FitsFuncType, FitsGlobal, FitsImport, FitsLimits, FitsRun, FitsU32, FitsValType};
ghost use Rattle.wasm_syntax.specs.Encoding.Modules.{code_of};
ghost use Rattle.wasm_syntax.specs.Encoding.Sections.{CustomSection};
ghost use Rattle.wasm_syntax.specs.Encoding.Shortest.{body_bytes, code_bytes, data_bytes, elem_bytes, export_bytes, func_type_bytes, global_bytes, import_bytes, limits_bytes, run_bytes, section_bytes, table_type_bytes, val_type_bytes, vector_bytes};
ghost use Rattle.wasm_syntax.specs.declared.forms.Form.TheVariants.{Replay};
ghost use Rattle.wasm_syntax.proofs.Encoding.NotEmpty.{limits_bytes_some};
ghost use Rattle.wasm_syntax.proofs.Encoding.Writing.{u32_some};

use crate::encoding::Encoding;
use crate::instructions::{body_length, write_body};
use crate::items::{
    custom_length, export_kind_length, import_kind_length, name_length, write_export_kind,
    write_import_kind,
};
use crate::lengths::{sized_length, u32_length};
use crate::parts::{push_byte, push_marked, push_sized};
use crate::types::{global_type_length, limits_length, write_global_type, write_limits};
use crate::vectors::{vector_length, write_vector};
use base::NoMemory;
use base::marks::{ELEMENT_DECLARED, ELEMENT_FUNCS, SECTION_CUSTOM, TYPE_FUNC, TYPE_FUNCREF};
use leb_bytes::push_u32;
use wasm_syntax::{
    Custom, DataSeg, ElemSeg, Export, Func, FuncType, Global, Import, Limits, Run, ValType,
};

/// The number that a declared segment begins with (Core 2.0, 5.5.12).
const DECLARED: u32 = ELEMENT_DECLARED as u32;

/// Indices.
pub(crate) struct Indices;

impl Encoding for Indices {
    type Item = u32;

    ghost bytes = { u32_bytes };

    ghost fits = { FitsU32 };

    fn length(item: &u32) -> u64 {
        u32_length(u64::from(*item))
    }

    fn write(item: &u32, out: &mut Vec<u8>) -> Result<(), NoMemory> {
        push_u32(out, *item)
    }

    ghost some = { λ index fits. u32_some index };
}

/// Value types (Core 1.0, 5.3.1).
pub(crate) struct ValTypes;

impl Encoding for ValTypes {
    type Item = ValType;

    ghost bytes = { val_type_bytes };

    ghost fits = { FitsValType };

    fn length(_item: &ValType) -> u64 {
        1
    }

    fn write(item: &ValType, out: &mut Vec<u8>) -> Result<(), NoMemory> {
        push_byte(out, item.byte())
    }

    ghost some = { λ item fits. Prim.search rules };
}

/// Function types (Core 1.0, 5.3.3).
pub(crate) struct FuncTypes;

#[tactic(auto, unfolding(wasm_syntax::specs::Encoding::Shortest::func_type_bytes))]
impl Encoding for FuncTypes {
    type Item = FuncType;

    ghost bytes = { func_type_bytes };

    ghost fits = { FitsFuncType };

    fn length(item: &FuncType) -> u64 {
        let params = vector_length::<ValTypes>(item.params.as_slice());
        let results = vector_length::<ValTypes>(item.results.as_slice());
        params.saturating_add(results).saturating_add(1)
    }

    fn write(item: &FuncType, out: &mut Vec<u8>) -> Result<(), NoMemory> {
        push_byte(out, TYPE_FUNC)?;
        write_vector::<ValTypes>(item.params.as_slice(), out)?;
        write_vector::<ValTypes>(item.results.as_slice(), out)
    }

    ghost some = { func_type_some };
}

/// Types of tables, by their limits (Core 1.0, 5.3.6).
pub(crate) struct TableTypes;

#[tactic(auto, unfolding(wasm_syntax::specs::Encoding::Shortest::limits_bytes))]
impl Encoding for TableTypes {
    type Item = Limits;

    ghost bytes = { table_type_bytes };

    ghost fits = { FitsLimits };

    fn length(item: &Limits) -> u64 {
        1 + limits_length(item)
    }

    fn write(item: &Limits, out: &mut Vec<u8>) -> Result<(), NoMemory> {
        push_byte(out, TYPE_FUNCREF)?;
        write_limits(item, out)
    }

    ghost some = { λ item fits. Prim.search rules };
}

/// Types of memories, which are their limits (Core 1.0, 5.3.5).
pub(crate) struct MemoryTypes;

#[tactic(auto, unfolding(wasm_syntax::specs::Encoding::Shortest::limits_bytes))]
impl Encoding for MemoryTypes {
    type Item = Limits;

    ghost bytes = { limits_bytes };

    ghost fits = { FitsLimits };

    fn length(item: &Limits) -> u64 {
        limits_length(item)
    }

    fn write(item: &Limits, out: &mut Vec<u8>) -> Result<(), NoMemory> {
        write_limits(item, out)
    }

    ghost some = { λ item fits. limits_bytes_some item };
}

/// Imports (Core 1.0, 5.5.5).
pub(crate) struct Imports;

#[tactic(auto, unfolding(wasm_syntax::specs::Encoding::Shortest::import_bytes))]
impl Encoding for Imports {
    type Item = Import;

    ghost bytes = { import_bytes };

    ghost fits = { FitsImport };

    fn length(item: &Import) -> u64 {
        let module = name_length(&item.module);
        let name = name_length(&item.name);
        module.saturating_add(name.saturating_add(import_kind_length(item.kind)))
    }

    fn write(item: &Import, out: &mut Vec<u8>) -> Result<(), NoMemory> {
        push_sized(out, item.module.as_str().as_bytes())?;
        push_sized(out, item.name.as_str().as_bytes())?;
        write_import_kind(item.kind, out)
    }

    ghost some = { import_some };
}

/// Globals (Core 1.0, 5.5.9).
pub(crate) struct Globals;

#[tactic(auto, unfolding(wasm_syntax::specs::Encoding::Shortest::global_bytes))]
impl Encoding for Globals {
    type Item = Global;

    ghost bytes = { global_bytes };

    ghost fits = { FitsGlobal Replay };

    fn length(item: &Global) -> u64 {
        body_length(&item.init).saturating_add(global_type_length(item.ty))
    }

    fn write(item: &Global, out: &mut Vec<u8>) -> Result<(), NoMemory> {
        write_global_type(item.ty, out)?;
        write_body(&item.init, out)
    }

    ghost some = { global_some };
}

/// Exports (Core 1.0, 5.5.10).
pub(crate) struct Exports;

#[tactic(auto, unfolding(wasm_syntax::specs::Encoding::Shortest::export_bytes))]
impl Encoding for Exports {
    type Item = Export;

    ghost bytes = { export_bytes };

    ghost fits = { FitsExport };

    fn length(item: &Export) -> u64 {
        name_length(&item.name).saturating_add(export_kind_length(item.kind))
    }

    fn write(item: &Export, out: &mut Vec<u8>) -> Result<(), NoMemory> {
        push_sized(out, item.name.as_str().as_bytes())?;
        write_export_kind(item.kind, out)
    }

    ghost some = { export_some };
}

/// Element segments (Core 1.0, 5.5.12; declared ones Core 2.0, 5.5.12).
pub(crate) struct ElemSegs;

#[tactic(auto, unfolding(wasm_syntax::specs::Encoding::Shortest::elem_bytes))]
impl Encoding for ElemSegs {
    type Item = ElemSeg;

    ghost bytes = { elem_bytes };

    ghost fits = { FitsElemSeg Replay };

    fn length(item: &ElemSeg) -> u64 {
        match item {
            ElemSeg::Active {
                table,
                offset,
                funcs,
            } => {
                let functions = vector_length::<Indices>(funcs.as_slice());
                let start = body_length(offset).saturating_add(functions);
                u32_length(u64::from(*table)).saturating_add(start)
            }
            ElemSeg::Declared { funcs } => {
                let functions = vector_length::<Indices>(funcs.as_slice()).saturating_add(1);
                u32_length(u64::from(DECLARED)).saturating_add(functions)
            }
        }
    }

    fn write(item: &ElemSeg, out: &mut Vec<u8>) -> Result<(), NoMemory> {
        match item {
            ElemSeg::Active {
                table,
                offset,
                funcs,
            } => {
                push_u32(out, *table)?;
                write_body(offset, out)?;
                write_vector::<Indices>(funcs.as_slice(), out)
            }
            ElemSeg::Declared { funcs } => {
                push_u32(out, DECLARED)?;
                push_byte(out, ELEMENT_FUNCS)?;
                write_vector::<Indices>(funcs.as_slice(), out)
            }
        }
    }

    ghost some = { elem_some };
}

/// Data segments (Core 1.0, 5.5.14).
pub(crate) struct DataSegs;

#[tactic(auto, unfolding(wasm_syntax::specs::Encoding::Shortest::data_bytes))]
impl Encoding for DataSegs {
    type Item = DataSeg;

    ghost bytes = { data_bytes };

    ghost fits = { FitsDataSeg Replay };

    fn length(item: &DataSeg) -> u64 {
        let bytes = sized_length(item.bytes.as_slice().len() as u64);
        let start = body_length(&item.offset).saturating_add(bytes);
        u32_length(u64::from(item.memory)).saturating_add(start)
    }

    fn write(item: &DataSeg, out: &mut Vec<u8>) -> Result<(), NoMemory> {
        push_u32(out, item.memory)?;
        write_body(&item.offset, out)?;
        push_sized(out, item.bytes.as_slice())
    }

    ghost some = { data_some };
}

/// Custom sections whole, with their id and size (Core 1.0, 5.5.3).
pub(crate) struct CustomSections;

#[tactic(auto, unfolding(wasm_syntax::specs::Encoding::Shortest::section_bytes, wasm_syntax::specs::Encoding::Shortest::content_bytes, wasm_syntax::specs::Encoding::Shortest::custom_bytes))]
impl Encoding for CustomSections {
    type Item = Custom;

    ghost bytes = { λ custom. section_bytes (CustomSection custom) };

    ghost fits = { λ custom. IsUtf8 custom.name };

    fn length(item: &Custom) -> u64 {
        sized_length(custom_length(item)).saturating_add(1)
    }

    fn write(item: &Custom, out: &mut Vec<u8>) -> Result<(), NoMemory> {
        let name = item.name.as_str();
        push_marked(out, SECTION_CUSTOM, custom_length(item) as u32)?;
        push_sized(out, name.as_bytes())?;
        out.extend_from_slice(item.bytes.as_slice())?;
        Ok(())
    }

    ghost some = { custom_some };
}

/// The types of functions, as the function section has them (Core 1.0, 5.5.6).
pub(crate) struct TypesOfFuncs;

impl Encoding for TypesOfFuncs {
    type Item = Func;

    ghost bytes = { λ func. u32_bytes func.ty };

    ghost fits = { FitsFunc Replay };

    fn length(item: &Func) -> u64 {
        u32_length(u64::from(item.ty))
    }

    fn write(item: &Func, out: &mut Vec<u8>) -> Result<(), NoMemory> {
        push_u32(out, item.ty)
    }

    ghost some = { λ func fits. u32_some func.ty };
}

/// The locals and bodies of functions, as the code section has them (Core 1.0, 5.5.13).
pub(crate) struct Codes;

#[tactic(auto, unfolding(wasm_syntax::specs::Encoding::Shortest::code_bytes))]
impl Encoding for Codes {
    type Item = Func;

    ghost bytes = { λ func. code_bytes (code_of func) };

    ghost fits = { FitsFunc Replay };

    fn length(item: &Func) -> u64 {
        sized_length(code_length(item))
    }

    fn write(item: &Func, out: &mut Vec<u8>) -> Result<(), NoMemory> {
        push_u32(out, code_length(item) as u32)?;
        write_vector::<Runs>(item.locals.as_slice(), out)?;
        write_body(&item.body, out)
    }

    ghost some = { code_some };
}

/// Runs of locals of one type.
pub(crate) struct Runs;

impl Encoding for Runs {
    type Item = Run;

    ghost bytes = { run_bytes };

    ghost fits = { FitsRun };

    fn length(item: &Run) -> u64 {
        u32_length(u64::from(item.count)) + 1
    }

    fn write(item: &Run, out: &mut Vec<u8>) -> Result<(), NoMemory> {
        push_u32(out, item.count)?;
        push_byte(out, item.ty.byte())
    }

    ghost some = { run_some };
}

/// The number of bytes of the locals and the body of a function, without the size in front.
fn code_length(func: &Func) -> u64
    requires { FitsFunc Replay func.now }
    ensures { result ≡ at_most_u64
        (length (vector_bytes run_bytes func.now.locals ++ body_bytes func.now.body)) }
{
    let locals = vector_length::<Runs>(func.locals.as_slice());
    locals.saturating_add(body_length(&func.body))
}
