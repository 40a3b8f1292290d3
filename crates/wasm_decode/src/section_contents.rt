// Readers of what sections hold, after their id (Core 1.0, 5.5).

ghost use Rattle.leb_bytes.specs.Unsigned as unsigned;
ghost use Rattle.wasm_syntax.specs.Encoding.Combinators.{map_read, first_sized, first_vector, whole};
ghost use Rattle.wasm_syntax.specs.Encoding.Readers.{first_code, first_data, first_elem, first_export, first_func_type, first_global, first_import, first_indices, first_limits, first_table_type};
ghost use Rattle.wasm_syntax.specs.Encoding.ReadModules.{custom_of};
ghost use Rattle.wasm_syntax.specs.Encoding.Sections.{CodeSection, CustomSection, DataSection, ElementSection, ExportSection, FunctionSection, GlobalSection, ImportSection, MemorySection, StartSection, TableSection, TypeSection};
ghost use Rattle.wasm_decode.specs.Drafts.{section_of};
ghost use Rattle.leb_bytes.specs.ReadResults.{Gives};

use crate::code::CodeItem;
use crate::items::first_custom;
use crate::kinds::Tables;
use crate::sections::Section;
use crate::values::Read;
use crate::vectors::{first_sized_u32, first_sized_vector};
use std::alloc::Global;
use wasm_syntax::{DataSeg, ElemSeg, Export, Form, FuncType, Global as GlobalItem, Import, Limits};

/// A custom section (Core 1.0, 5.5.3).
pub(crate) fn first_custom_section(alloc: Global, bytes: &[u8]) -> Read<'_, Section>
    ensures { Gives (λ read. (section_of read.0, read.1.now)) result
        (map_read CustomSection (first_sized custom_of) bytes.now) }
{
    let (custom, rest) = first_custom(alloc, bytes)?;
    Ok((Section::Custom(custom), rest))
}

/// A type section (Core 1.0, 5.5.4).
pub(crate) fn first_type_section(alloc: Global, form: Form, bytes: &[u8]) -> Read<'_, Section>
    ensures { Gives (λ read. (section_of read.0, read.1.now)) result
        (map_read TypeSection (first_sized (whole (first_vector first_func_type))) bytes.now) }
{
    let (types, rest) = first_sized_vector::<FuncType>(alloc, form, bytes)?;
    Ok((Section::Type(types), rest))
}

/// An import section (Core 1.0, 5.5.5).
pub(crate) fn first_import_section(alloc: Global, form: Form, bytes: &[u8]) -> Read<'_, Section>
    ensures { Gives (λ read. (section_of read.0, read.1.now)) result
        (map_read ImportSection (first_sized (whole (first_vector first_import))) bytes.now) }
{
    let (imports, rest) = first_sized_vector::<Import>(alloc, form, bytes)?;
    Ok((Section::Import(imports), rest))
}

/// A function section (Core 1.0, 5.5.6).
#[tactic(auto, unfolding(wasm_syntax::specs::Encoding::Readers::first_indices))]
pub(crate) fn first_function_section(alloc: Global, form: Form, bytes: &[u8]) -> Read<'_, Section>
    ensures { Gives (λ read. (section_of read.0, read.1.now)) result
        (map_read FunctionSection (first_sized (whole first_indices)) bytes.now) }
{
    let (types, rest) = first_sized_vector::<u32>(alloc, form, bytes)?;
    Ok((Section::Function(types), rest))
}

/// A table section (Core 1.0, 5.5.7).
pub(crate) fn first_table_section(alloc: Global, form: Form, bytes: &[u8]) -> Read<'_, Section>
    ensures { Gives (λ read. (section_of read.0, read.1.now)) result
        (map_read TableSection (first_sized (whole (first_vector first_table_type))) bytes.now) }
{
    let (tables, rest) = first_sized_vector::<Tables>(alloc, form, bytes)?;
    Ok((Section::Table(tables), rest))
}

/// A memory section (Core 1.0, 5.5.8).
pub(crate) fn first_memory_section(alloc: Global, form: Form, bytes: &[u8]) -> Read<'_, Section>
    ensures { Gives (λ read. (section_of read.0, read.1.now)) result
        (map_read MemorySection (first_sized (whole (first_vector first_limits))) bytes.now) }
{
    let (memories, rest) = first_sized_vector::<Limits>(alloc, form, bytes)?;
    Ok((Section::Memory(memories), rest))
}

/// A global section (Core 1.0, 5.5.9).
pub(crate) fn first_global_section(alloc: Global, form: Form, bytes: &[u8]) -> Read<'_, Section>
    ensures { Gives (λ read. (section_of read.0, read.1.now)) result
        (map_read GlobalSection (first_sized (whole (first_vector (first_global form)))) bytes.now) }
{
    let (globals, rest) = first_sized_vector::<GlobalItem>(alloc, form, bytes)?;
    Ok((Section::Global(globals), rest))
}

/// An export section (Core 1.0, 5.5.10).
pub(crate) fn first_export_section(alloc: Global, form: Form, bytes: &[u8]) -> Read<'_, Section>
    ensures { Gives (λ read. (section_of read.0, read.1.now)) result
        (map_read ExportSection (first_sized (whole (first_vector first_export))) bytes.now) }
{
    let (exports, rest) = first_sized_vector::<Export>(alloc, form, bytes)?;
    Ok((Section::Export(exports), rest))
}

/// A start section (Core 1.0, 5.5.11).
pub(crate) fn first_start_section(bytes: &[u8]) -> Read<'_, Section>
    ensures { Gives (λ read. (section_of read.0, read.1.now)) result
        (map_read StartSection (first_sized (whole unsigned.first_u32)) bytes.now) }
{
    let (func, rest) = first_sized_u32(bytes)?;
    Ok((Section::Start(func), rest))
}

/// An element section (Core 1.0, 5.5.12).
pub(crate) fn first_element_section(alloc: Global, form: Form, bytes: &[u8]) -> Read<'_, Section>
    ensures { Gives (λ read. (section_of read.0, read.1.now)) result
        (map_read ElementSection (first_sized (whole (first_vector (first_elem form)))) bytes.now) }
{
    let (elems, rest) = first_sized_vector::<ElemSeg>(alloc, form, bytes)?;
    Ok((Section::Element(elems), rest))
}

/// A code section (Core 1.0, 5.5.13).
pub(crate) fn first_code_section(alloc: Global, form: Form, bytes: &[u8]) -> Read<'_, Section>
    ensures { Gives (λ read. (section_of read.0, read.1.now)) result
        (map_read CodeSection (first_sized (whole (first_vector (first_code form)))) bytes.now) }
{
    let (codes, rest) = first_sized_vector::<CodeItem>(alloc, form, bytes)?;
    Ok((Section::Code(codes), rest))
}

/// A data section (Core 1.0, 5.5.14).
pub(crate) fn first_data_section(alloc: Global, form: Form, bytes: &[u8]) -> Read<'_, Section>
    ensures { Gives (λ read. (section_of read.0, read.1.now)) result
        (map_read DataSection (first_sized (whole (first_vector (first_data form)))) bytes.now) }
{
    let (datas, rest) = first_sized_vector::<DataSeg>(alloc, form, bytes)?;
    Ok((Section::Data(datas), rest))
}
