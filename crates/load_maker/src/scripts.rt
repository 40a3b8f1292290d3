// The script of a load.

ghost use Rattle.std.specs.Prelude.{◌≡◌, ◌≤◌, [], ◌∷◌, ◌++◌, codes, decimal, OnOk, IfOk, length};
ghost use Rattle.wasm_syntax.specs.declared.limits.TheConstants.{MAX_LOAD_CALLS, MAX_FILE_BYTES};
ghost use Rattle.hex.specs.Hex.{encode_lower};
ghost use Rattle.load_maker.specs.Loads.{comma_before, load_byte, load_script, response_text, responses_text, tick_text};
ghost use Rattle.load_maker.specs.declared.load_module.TheConstants.{LOAD_MODULE};

use crate::load_module::LOAD_MODULE;
use base::NoMemory;
use hex::encode_to_slice;
use itoa::Buffer;
use std::alloc::Global;

/// The bytes of a module and of a script for it, in which the module calls an import this number of times, at
/// most `MAX_LOAD_CALLS`. Both are within the limits of files.
///
/// # Errors
/// `NoMemory` if an allocation failed.
#[tactic(auto, using(crate::proofs::Sizes::short_script))]
pub fn make_load(alloc: Global, number: u32) -> Result<(Vec<u8>, Vec<u8>), NoMemory>
    requires { number ≤ MAX_LOAD_CALLS }
    ensures code { IfOk result (λ load. load.0.items ≡ LOAD_MODULE) }
    ensures script { IfOk result (λ load. load.1.items ≡ load_script number) }
    ensures within { IfOk result (λ load. length load.1.items ≤ MAX_FILE_BYTES) }
{
    let module = Vec::from_slice(alloc, &LOAD_MODULE)?;
    let script = script_of(alloc, number)?;
    Ok((module, script))
}

/// The script for a number of calls.
fn script_of(alloc: Global, number: u32) -> Result<Vec<u8>, NoMemory>
    ensures { IfOk result (λ script. script.items ≡ load_script number) }
{
    let mut text = Vec::new(alloc);
    text.extend_from_slice(b"{\"imports\":{\"h\":{\"f\":{\"calls\":[")?;
    put_responses(&mut text, number)?;
    put_main(&mut text, number)?;
    Ok(text)
}

/// Appends the responses to the first calls, in this number.
fn put_responses(text: &mut Vec<u8>, number: u32) -> Result<(), NoMemory>
    ensures { OnOk result (text.new.items ≡ text.old.items ++ responses_text number) }
{
    'calls: for call in 0..number {
        put_next(text, call)?;
    }
    Ok(())
}

/// Appends the response to a call, after those to the calls before it.
fn put_next(text: &mut Vec<u8>, call: u32) -> Result<(), NoMemory>
    ensures { OnOk result (text.new.items ≡ text.old.items ++ (comma_before call ++ response_text call)) }
{
    put_comma(text, call)?;
    put_response(text, call)
}

/// Appends the comma before a response.
fn put_comma(text: &mut Vec<u8>, call: u32) -> Result<(), NoMemory>
    ensures { OnOk result (text.new.items ≡ text.old.items ++ comma_before call) }
{
    if call != 0 {
        text.push(b',')?;
    }
    Ok(())
}

/// Appends the response to a call.
fn put_response(text: &mut Vec<u8>, call: u32) -> Result<(), NoMemory>
    ensures { OnOk result (text.new.items ≡ text.old.items ++ response_text call) }
{
    put_write(text, call)?;
    put_tick(text, call)?;
    put_answer(text, call)
}

/// Appends the write of a byte.
fn put_write(text: &mut Vec<u8>, call: u32) -> Result<(), NoMemory>
    ensures { OnOk result (text.new.items ≡ text.old.items
        ++ (codes "{\"do\":[{\"write\":{\"arg\":0},\"bytes\":\""
        ++ (encode_lower (load_byte call ∷ []) ++ codes "\"}"))) }
{
    let before = b"{\"do\":[{\"write\":{\"arg\":0},\"bytes\":\"";
    put_between(text, before, &byte_digits(call), b"\"}")
}

/// Appends the call back, if there is one.
fn put_tick(text: &mut Vec<u8>, call: u32) -> Result<(), NoMemory>
    ensures { OnOk result (text.new.items ≡ text.old.items ++ tick_text call) }
{
    if call % 16 == 15 {
        text.extend_from_slice(b",{\"call\":\"tick\"}")?;
    }
    Ok(())
}

/// Appends the answer to a call.
fn put_answer(text: &mut Vec<u8>, call: u32) -> Result<(), NoMemory>
    ensures { OnOk result (text.new.items ≡ text.old.items
        ++ (codes "],\"return\":{\"i32\":" ++ (decimal call ++ codes "}}"))) }
{
    put_number_between(text, b"],\"return\":{\"i32\":", call, b"}}")
}

/// Appends what the host does: it calls `run` with the number of calls.
fn put_main(text: &mut Vec<u8>, number: u32) -> Result<(), NoMemory>
    ensures { OnOk result (text.new.items ≡ text.old.items
        ++ (codes "]}}},\"main\":[{\"call\":\"run\",\"args\":[{\"i32\":" ++ (decimal number ++ codes "}]}]}"))) }
{
    put_number_between(
        text,
        b"]}}},\"main\":[{\"call\":\"run\",\"args\":[{\"i32\":",
        number,
        b"}]}]}",
    )
}

/// Appends a number in decimal between two texts.
fn put_number_between(
    text: &mut Vec<u8>,
    before: &[u8],
    number: u32,
    after: &[u8],
) -> Result<(), NoMemory>
    ensures { OnOk result (text.new.items ≡ text.old.items ++ (before.now ++ (decimal number ++ after.now))) }
{
    let mut buffer = Buffer::new();
    put_between(text, before, buffer.format(number).as_bytes(), after)
}

/// Appends a text between two others.
fn put_between(
    text: &mut Vec<u8>,
    before: &[u8],
    middle: &[u8],
    after: &[u8],
) -> Result<(), NoMemory>
    ensures { OnOk result (text.new.items ≡ text.old.items ++ (before.now ++ (middle.now ++ after.now))) }
{
    text.extend_from_slice(before)?;
    text.extend_from_slice(middle)?;
    text.extend_from_slice(after)?;
    Ok(())
}

/// The byte that is written at a call.
fn load_byte(call: u32) -> u8
    ensures { result ≡ load_byte call }
{
    ((7 * u64::from(call) + 3) % 256) as u8
}

/// The two lower-case hexadecimal digits of the byte that is written at a call.
fn byte_digits(call: u32) -> [u8; 2]
    ensures { result ≡ encode_lower (load_byte call ∷ []) }
{
    let mut digits = [0; 2];
    let Ok(()) = encode_to_slice(&[load_byte(call)], &mut digits) else {
        unreachable!();
    };
    digits
}
