// Modules (Core 1.0, 5.5.15).

ghost use Rattle.std.specs.Prelude.{◌≡◌, ℕ, ◌<◌, ◌≤◌, ◌⊎◌, length, All, IfOk, IfErr};
ghost use Rattle.wasm_syntax.specs.Encoding.Forms.{IsCoreModule};
ghost use Rattle.wasm_syntax.specs.Encoding.Modules.{Encodes};
ghost use Rattle.wasm_syntax.specs.Encoding.ReadModules.{lawful_sections};
ghost use Rattle.wasm_syntax.specs.declared.forms.Form.TheVariants.{Core};
ghost use Rattle.wasm_syntax.specs.declared.modules.Module.{Module};
ghost use Rattle.wasm_syntax.specs.ListsWithin.{HasListsWithin};
ghost use Rattle.wasm_decode.specs.DecodeResults.{IsRead, IsFaultOf};
ghost use Rattle.wasm_decode.specs.Drafts.{empty_draft, draft_with_read};

use crate::draft::Draft;
use crate::sections::next_section;
use base::NoMemory;
use std::alloc::Global;
use thiserror::Error;
use wasm_syntax::{
    Form, Module, encoding_forms, fault_places, lists_of_encoding, module_encoding,
    shortest_encoding,
};

/// Why bytes were not decoded.
#[derive(Clone, Copy, PartialEq, Eq, Debug, Error)]
pub enum DecodeFault {
    /// The bytes encode no module of the form. `at` is 0 if they do not begin with the preamble;
    /// else it is the length, in bytes, of their longest front that is the preamble and whole
    /// sections in lawful order.
    #[error("malformed at {at}")]
    Malformed { at: u64 },
    #[error("out of memory")]
    Memory,
}

/// The magic and the version that each module begins with (Core 1.0, 5.5.15).
const PREAMBLE: [u8; 8] = [0x00, 0x61, 0x73, 0x6d, 0x01, 0x00, 0x00, 0x00];

/// Decodes a module: all of the bytes, by the binary format of Core 1.0 (section 5), or by that of
/// replay binaries, which has a few forms of Core 2.0 besides.
///
/// # Errors
///
/// `Malformed` if the bytes encode no module of the form, and only then, with the place of the
/// fault; `Memory` if memory runs out.
pub fn decode(alloc: Global, bytes: &[u8], form: Form) -> Result<Module, DecodeFault>
    // What is decoded is encoded by the bytes.
    ensures found { IfOk result (λ m. Encodes form bytes.now m) }
    // What the bytes encode is decoded, unless memory runs out.
    ensures only { (m : Module) → Encodes form bytes.now m
        → (result ≡ Ok m) ⊎ (result ≡ Err DecodeFault.Memory) }
    // If they are malformed, they encode no module of the form, and `at` is the place of the fault.
    ensures fault { IfErr result (λ fault. IsFaultOf form bytes.now fault) }
    // A module that is decoded in the form Core is of that form.
    ensures core { IfOk result (λ m. form ≡ Core → IsCoreModule m) }
    // Data segments hold bytes.
    ensures bytes { IfOk result (λ m. All (λ segment. All (λ byte. byte < 256) segment.bytes) m.datas) }
    // The list lengths of the module are at most the number of bytes.
    ensures within { IfOk result (λ m. HasListsWithin (length bytes.now) m) }
{
    // What the plain program of the grammar and of the place of a fault gives, and what holds of
    // each module that bytes encode.
    module_encoding();
    fault_places();
    shortest_encoding();
    encoding_forms();
    lists_of_encoding();
    read_form(alloc, bytes, form)
}

/// Decodes a module as the plain program reads it.
fn read_form(alloc: Global, bytes: &[u8], form: Form) -> Result<Module, DecodeFault>
    ensures { IsRead form bytes.now result }
{
    let Some(after) = bytes.strip_prefix(&PREAMBLE) else {
        return Err(DecodeFault::Malformed { at: 0 });
    };
    let Ok((draft, rest)) = lawful_sections(alloc, form, after) else {
        return Err(DecodeFault::Memory);
    };
    let at = (bytes.len() - rest.len()) as u64;
    if !rest.is_empty() {
        return Err(DecodeFault::Malformed { at });
    }
    let Ok(module) = draft.finish(alloc) else {
        return Err(DecodeFault::Memory);
    };
    match module {
        Some(module) => Ok(module),
        None => Err(DecodeFault::Malformed { at }),
    }
}

/// The sections after the preamble, as long as they are whole and in lawful order, put into a
/// draft; and the bytes that are left.
fn lawful_sections(alloc: Global, form: Form, bytes: &[u8]) -> Result<(Draft, &[u8]), NoMemory>
    ensures read { IfOk result (λ it. (most : ℕ) → length bytes.now ≤ most
        → (it.0, it.1.now) ≡ draft_with_read empty_draft (lawful_sections form most 0 bytes.now)) }
    ensures shorter { IfOk result (λ it. length it.1.now ≤ length bytes.now) }
{
    let mut draft = Draft::new(alloc);
    let mut last = 0;
    let mut rest = bytes;
    while let Some((section, id, after)) = next_section(alloc, form, last, rest)? {
        draft = draft.with(section)?;
        last = id;
        rest = after;
    }
    Ok((draft, rest))
}
