// Modules (Core 1.0, 5.5.15).

ghost use Rattle.std.specs.Prelude.{◌≡◌, ℕ, ◌^◌, ◌<◌, ◌++◌, length, OnOk};
ghost use Rattle.wasm_encode.specs.Lengths.{at_most_u64};
ghost use Rattle.wasm_encode.specs.Parts.{declarations_of, definitions_of};
ghost use Rattle.wasm_syntax.specs.Encoding.Encodable.{IsEncodable};
ghost use Rattle.wasm_syntax.specs.Encoding.Shortest.{encoding_of};
ghost use Rattle.wasm_syntax.specs.declared.forms.Form.TheVariants.{Replay};

use crate::kinds::{
    Codes, CustomSections, DataSegs, ElemSegs, Exports, FuncTypes, Globals, Imports, MemoryTypes,
    TableTypes, TypesOfFuncs,
};
use crate::sections::{section_length, start_length, write_section, write_start};
use crate::vectors::{items_length, write_items};
use base::NoMemory;
use base::marks::{
    SECTION_CODE, SECTION_DATA, SECTION_ELEMENT, SECTION_EXPORT, SECTION_FUNCTION, SECTION_GLOBAL,
    SECTION_IMPORT, SECTION_MEMORY, SECTION_TABLE, SECTION_TYPE,
};
use wasm_syntax::Module;

/// How many bytes the shortest encoding of a module has.
#[tactic(auto, using(crate::proofs::ModuleLemmas::encoding_parts))]
pub(crate) fn module_length(module: &Module) -> u64
    requires { IsEncodable Replay «module».now }
    ensures { result ≡ at_most_u64 (length (encoding_of «module».now)) }
{
    declarations_length(module)
        .saturating_add(definitions_length(module))
        .saturating_add(8)
}

/// How many bytes the sections up to the memory section have.
#[tactic(auto, unfolding(crate::specs::Parts::declarations_of))]
fn declarations_length(module: &Module) -> u64
    requires { IsEncodable Replay «module».now }
    ensures { result ≡ at_most_u64 (length (declarations_of «module».now)) }
{
    section_length::<FuncTypes>(module.types.as_slice())
        .saturating_add(section_length::<Imports>(module.imports.as_slice()))
        .saturating_add(section_length::<TypesOfFuncs>(module.funcs.as_slice()))
        .saturating_add(section_length::<TableTypes>(module.tables.as_slice()))
        .saturating_add(section_length::<MemoryTypes>(module.memories.as_slice()))
}

/// How many bytes the sections after the memory section have.
#[tactic(auto, unfolding(crate::specs::Parts::definitions_of))]
fn definitions_length(module: &Module) -> u64
    requires { IsEncodable Replay «module».now }
    ensures { result ≡ at_most_u64 (length (definitions_of «module».now)) }
{
    section_length::<Globals>(module.globals.as_slice())
        .saturating_add(section_length::<Exports>(module.exports.as_slice()))
        .saturating_add(start_length(module.start))
        .saturating_add(section_length::<ElemSegs>(module.elems.as_slice()))
        .saturating_add(section_length::<Codes>(module.funcs.as_slice()))
        .saturating_add(section_length::<DataSegs>(module.datas.as_slice()))
        .saturating_add(items_length::<CustomSections>(module.customs.as_slice()))
}

/// Appends the shortest encoding of a module.
#[tactic(auto, using(crate::proofs::ModuleLemmas::encoding_parts))]
pub(crate) fn write_module(module: &Module, out: &mut Vec<u8>) -> Result<(), NoMemory>
    requires fits { IsEncodable Replay «module».now }
    requires sizes { length (encoding_of «module».now) < 2 ^ 32 }
    ensures { OnOk result (out.new.items ≡ out.old.items ++ encoding_of «module».now) }
{
    out.extend_from_slice(b"\0asm\x01\0\0\0")?;
    write_declarations(module, out)?;
    write_definitions(module, out)?;
    Ok(())
}

/// Appends the sections up to the memory section.
#[tactic(auto, unfolding(crate::specs::Parts::declarations_of))]
fn write_declarations(module: &Module, out: &mut Vec<u8>) -> Result<(), NoMemory>
    requires fits { IsEncodable Replay «module».now }
    requires sizes { length (declarations_of «module».now) < 2 ^ 32 }
    ensures { OnOk result (out.new.items ≡ out.old.items ++ declarations_of «module».now) }
{
    write_section::<FuncTypes>(SECTION_TYPE, module.types.as_slice(), out)?;
    write_section::<Imports>(SECTION_IMPORT, module.imports.as_slice(), out)?;
    write_section::<TypesOfFuncs>(SECTION_FUNCTION, module.funcs.as_slice(), out)?;
    write_section::<TableTypes>(SECTION_TABLE, module.tables.as_slice(), out)?;
    write_section::<MemoryTypes>(SECTION_MEMORY, module.memories.as_slice(), out)
}

/// Appends the sections after the memory section.
#[tactic(auto, unfolding(crate::specs::Parts::definitions_of))]
fn write_definitions(module: &Module, out: &mut Vec<u8>) -> Result<(), NoMemory>
    requires fits { IsEncodable Replay «module».now }
    requires sizes { length (definitions_of «module».now) < 2 ^ 32 }
    ensures { OnOk result (out.new.items ≡ out.old.items ++ definitions_of «module».now) }
{
    write_section::<Globals>(SECTION_GLOBAL, module.globals.as_slice(), out)?;
    write_section::<Exports>(SECTION_EXPORT, module.exports.as_slice(), out)?;
    write_start(module.start, out)?;
    write_section::<ElemSegs>(SECTION_ELEMENT, module.elems.as_slice(), out)?;
    write_section::<Codes>(SECTION_CODE, module.funcs.as_slice(), out)?;
    write_section::<DataSegs>(SECTION_DATA, module.datas.as_slice(), out)?;
    write_items::<CustomSections>(module.customs.as_slice(), out)?;
    Ok(())
}
