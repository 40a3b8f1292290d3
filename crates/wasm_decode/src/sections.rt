// Sections (Core 1.0, 5.5.2).

ghost use Rattle.std.specs.Prelude.{◌≡◌, ◌<◌, length, option_map, IfOk, IfSome};
ghost use Rattle.wasm_syntax.specs.Encoding.Sections.{id_of};
ghost use Rattle.wasm_syntax.specs.Encoding.ReadModules.{first_section, last_after, next_section};
ghost use Rattle.wasm_decode.specs.Drafts.{section_of};
ghost use Rattle.leb_bytes.specs.ReadResults.{Gives};

use crate::code::CodeItem;
use crate::section_contents::{
    first_code_section, first_custom_section, first_data_section, first_element_section,
    first_export_section, first_function_section, first_global_section, first_import_section,
    first_memory_section, first_start_section, first_table_section, first_type_section,
};
use crate::values::{Read, first_byte};
use base::NoMemory;
use base::marks::{
    SECTION_CODE, SECTION_CUSTOM, SECTION_DATA, SECTION_ELEMENT, SECTION_EXPORT, SECTION_FUNCTION,
    SECTION_GLOBAL, SECTION_IMPORT, SECTION_MEMORY, SECTION_START, SECTION_TABLE, SECTION_TYPE,
};
use leb_bytes::{Unread, u32_encoding};
use std::alloc::Global;
use wasm_syntax::{
    Custom, DataSegs, ElemSegs, Exports, Form, FuncTypes, Globals, Imports, Indices, LimitsList,
    List,
};

/// A section with its content (Core 1.0, 5.5.2).
#[derive(Drop)]
pub(crate) enum Section {
    Custom(Custom),
    Type(FuncTypes),
    Import(Imports),
    Function(Indices),
    Table(LimitsList),
    Memory(LimitsList),
    Global(Globals),
    Export(Exports),
    Start(u32),
    Element(ElemSegs),
    Code(List<CodeItem>),
    Data(DataSegs),
}

impl Section {
    /// The id of this section (Core 1.0, 5.5.2).
    fn id(&self) -> u8
        ensures { result ≡ id_of (section_of self.now) }
    {
        match self {
            Section::Custom(_) => SECTION_CUSTOM,
            Section::Type(_) => SECTION_TYPE,
            Section::Import(_) => SECTION_IMPORT,
            Section::Function(_) => SECTION_FUNCTION,
            Section::Table(_) => SECTION_TABLE,
            Section::Memory(_) => SECTION_MEMORY,
            Section::Global(_) => SECTION_GLOBAL,
            Section::Export(_) => SECTION_EXPORT,
            Section::Start(_) => SECTION_START,
            Section::Element(_) => SECTION_ELEMENT,
            Section::Code(_) => SECTION_CODE,
            Section::Data(_) => SECTION_DATA,
        }
    }
}

/// The section at the front of the bytes: its id, its size, and what it holds.
#[tactic(auto, unfolding(wasm_syntax::specs::Encoding::ReadModules::first_section))]
fn first_section(alloc: Global, form: Form, bytes: &[u8]) -> Read<'_, Section>
    ensures { Gives (λ read. (section_of read.0, read.1.now)) result (first_section form bytes.now) }
{
    let (id, rest) = first_byte(bytes)?;
    match id {
        SECTION_CUSTOM => first_custom_section(alloc, rest),
        SECTION_TYPE => first_type_section(alloc, form, rest),
        SECTION_IMPORT => first_import_section(alloc, form, rest),
        SECTION_FUNCTION => first_function_section(alloc, form, rest),
        SECTION_TABLE => first_table_section(alloc, form, rest),
        SECTION_MEMORY => first_memory_section(alloc, form, rest),
        SECTION_GLOBAL => first_global_section(alloc, form, rest),
        SECTION_EXPORT => first_export_section(alloc, form, rest),
        SECTION_START => first_start_section(rest),
        SECTION_ELEMENT => first_element_section(alloc, form, rest),
        SECTION_CODE => first_code_section(alloc, form, rest),
        SECTION_DATA => first_data_section(alloc, form, rest),
        _ => Err(Unread::NotThere),
    }
}

/// The next section after one of id `last`, or after the preamble if that is 0; with it the id
/// that is the last one from then on, and the bytes that are left. None if no whole section comes,
/// or one that may not be there (Core 1.0, 5.5.15).
pub(crate) fn next_section(
    alloc: Global,
    form: Form,
    last: u8,
    bytes: &[u8],
) -> Result<Option<(Section, u8, &[u8])>, NoMemory>
    ensures read { IfOk result (λ next.
        option_map (λ it. (section_of it.0, it.1, it.2.now)) next ≡ next_section form last bytes.now) }
    ensures shorter { IfOk result (λ next. IfSome next (λ it. length it.2.now < length bytes.now)) }
{
    // A size is a number of at least one byte, so each section shortens the bytes.
    u32_encoding();
    let (section, rest) = match first_section(alloc, form, bytes) {
        Ok(read) => read,
        Err(Unread::NotThere) => return Ok(None),
        Err(Unread::Memory) => return Err(NoMemory),
    };
    let id = section.id();
    if id == SECTION_CUSTOM {
        return Ok(Some((section, last, rest)));
    }
    if id <= last {
        return Ok(None);
    }
    Ok(Some((section, id, rest)))
}
