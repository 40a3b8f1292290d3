// The hooked form: whether a module declares that it is instrumented, and the digest of its original.

ghost use Rattle.std.specs.Prelude.{◌≡◌, ◌<◌, ◌≤◌, ◌++◌, [], ◌∷◌, length, drop, Some, None, IfOk, OnErr, MatchOption, option_map, bytes_eq};
ghost use Rattle.leb_bytes.specs.Unsigned.{u32_bytes};
ghost use Rattle.wasm_syntax.specs.Index.{imported_funcs};
ghost use Rattle.wasm_flat.specs.Sizes.{IsShort, list_limit};
ghost use Rattle.record_replay_spec.specs.HookedForm.{digest_length, form_of_sections, hooked_form, hooked_sections};
ghost use Rattle.hook_insert.specs.Forms.{form_of, left_after, begins_with, only};

use crate::form_imports::{imports_hooks, own_imports};
use thiserror::Error;
use wasm_syntax::{Custom, Module};
use wasm_validate::Checked;

/// The length of a digest in bytes.
const DIGEST_BYTES: usize = 32;

/// What a module in the hooked form declares: the digest of the original's bytes, and the numbers of functions
/// that the original imports and defines.
#[derive(Clone, Copy, PartialEq, Eq, Debug)]
pub struct HookedForm {
    pub digest: [u8; DIGEST_BYTES],
    pub imports: u32,
    pub defined: u32,
}

/// Why a module is refused as an instrumented one.
#[derive(Clone, Copy, PartialEq, Eq, Debug, Error)]
pub enum HookedFault {
    /// Its hooks, or the section that marks it, are missing or wrong.
    #[error("not hooked")]
    NotHooked,
}

/// What a module in the hooked form declares of its original. Takes no memory, and time in the length of the
/// module.
///
/// # Errors
///
/// `NotHooked` if and only if the module does not have the form: its last imports of functions are not the
/// hooks, another import is from their module, or there is not exactly one section of the name, with only the
/// digest and the numbers of functions.
pub fn hooked_form(checked: &Checked) -> Result<HookedForm, HookedFault>
    requires short { IsShort checked.now }
    ensures ok { IfOk result (λ form. hooked_form checked.now ≡ Some (form_of form)) }
    ensures err { OnErr result (hooked_form checked.now ≡ None) }
{
    let module = checked.module();
    match form_in(module) {
        Some(form) => Ok(form),
        None => Err(HookedFault::NotHooked),
    }
}

/// What a module declares, if it has the hooked form.
fn form_in(module: &Module) -> Option<HookedForm>
    requires imports { imported_funcs «module».now < list_limit }
    requires defined { length «module».now.funcs < list_limit }
    ensures { option_map form_of result ≡ hooked_form «module».now }
{
    let imports = own_imports(module);
    if !imports_hooks(module, imports) {
        return None;
    }
    match only_section(module) {
        Some(custom) => form_of_section(custom, imports, module.funcs.as_slice().len() as u32),
        None => None,
    }
}

/// The section of the name, if there is exactly one.
fn only_section(module: &Module) -> Option<&Custom>
    ensures { MatchOption result
        (only (hooked_sections «module».now) ≡ None)
        (λ custom. only (hooked_sections «module».now) ≡ Some custom.now) }
{
    let mut found = None;
    'customs: for custom in module.customs.as_slice() {
        if custom.name.as_str() == "r3.hooked" {
            if found.is_some() {
                return None;
            }
            found = Some(custom);
        }
    }
    found
}

/// What a section declares, if it is that of a module with these numbers of imports and definitions.
fn form_of_section(custom: &Custom, imports: u32, defined: u32) -> Option<HookedForm>
    ensures { option_map form_of result ≡ form_of_sections imports defined (custom.now ∷ []) }
{
    let bytes = custom.bytes.as_slice();
    match bytes.first_chunk::<DIGEST_BYTES>() {
        Some(digest) => {
            if has_numbers(bytes, imports, defined) {
                Some(HookedForm {
                    digest: *digest,
                    imports,
                    defined,
                })
            } else {
                None
            }
        }
        None => None,
    }
}

/// Whether exactly these numbers follow a digest.
fn has_numbers(bytes: &[u8], imports: u32, defined: u32) -> bool
    requires { digest_length ≤ length bytes.now }
    ensures { result ≡ bytes_eq (drop digest_length bytes.now) (u32_bytes imports ++ u32_bytes defined) }
{
    match after_u32(bytes, DIGEST_BYTES, imports) {
        Some(next) => ends_with_u32(bytes, next, defined),
        None => false,
    }
}

/// Whether the bytes from a place on are the shortest encoding of a number.
fn ends_with_u32(bytes: &[u8], at: usize, number: u32) -> bool
    requires { at ≤ length bytes.now }
    ensures { result ≡ bytes_eq (drop at bytes.now) (u32_bytes number) }
{
    match after_u32(bytes, at, number) {
        Some(end) => end == bytes.len(),
        None => false,
    }
}

/// The place after the shortest encoding of a number, if the encoding is at a place.
fn after_u32(bytes: &[u8], at: usize, number: u32) -> Option<usize>
    requires { at ≤ length bytes.now }
    ensures { MatchOption result
        (left_after (u32_bytes number) (drop at bytes.now) ≡ None)
        (λ next. (next ≤ length bytes.now)
        × (left_after (u32_bytes number) (drop at bytes.now) ≡ Some (drop next bytes.now))) }
{
    let mut next = at;
    let mut rest = number;
    'bytes: while rest >= 0x80 {
        if !has_byte(bytes, next, (rest % 0x80) as u8 + 0x80) {
            return None;
        }
        next += 1;
        rest /= 0x80;
    }
    if has_byte(bytes, next, rest as u8) {
        Some(next + 1)
    } else {
        None
    }
}

/// Whether a byte is at a place.
fn has_byte(bytes: &[u8], at: usize, byte: u8) -> bool
    requires { at ≤ length bytes.now }
    ensures { result ≡ begins_with byte (drop at bytes.now) }
{
    at < bytes.len() && bytes[at] == byte
}
