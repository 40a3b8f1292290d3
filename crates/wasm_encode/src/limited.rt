// Encoding a module within a limit.

ghost use Rattle.std.specs.Prelude.{◌≡◌, ◌^◌, ◌<◌, ◌≤◌, length, OnOk, IfOk, IfErr};
ghost use Rattle.wasm_encode.specs.declared.limited.EncodeFault.TheVariants.{TooLong};
ghost use Rattle.wasm_syntax.specs.Encoding.Encodable.{IsEncodable};
ghost use Rattle.wasm_syntax.specs.Encoding.Forms.{IsCoreModule};
ghost use Rattle.wasm_syntax.specs.Encoding.Modules.{Encodes};
ghost use Rattle.wasm_syntax.specs.Encoding.Shortest.{encoding_of};
ghost use Rattle.wasm_syntax.specs.declared.forms.Form.TheVariants.{Core, Replay};

use crate::modules::{module_length, write_module};
use base::NoMemory;
use std::alloc::Global;
use thiserror::Error;
use wasm_syntax::{Module, encoding_forms, shortest_encoding};

/// More bytes than any number needs.
const ROOM: usize = 10;

/// Why a module was not encoded.
#[derive(Clone, Copy, PartialEq, Eq, Debug, Error)]
pub enum EncodeFault {
    #[error("the module is too long")]
    TooLong,
    #[error("out of memory")]
    Memory,
}

/// The shortest encoding of a module in at most `most` bytes (Core 1.0, 5): each number in its
/// fewest bytes, no section that is empty, custom sections last. The module is to have an encoding
/// in the form of replay binaries, in which counts and sizes may be any numbers.
///
/// # Errors
///
/// `TooLong` if these bytes are more than `most`, and only then; `Memory` if memory runs out.
pub fn encode(alloc: Global, module: &Module, most: u32) -> Result<Vec<u8>, EncodeFault>
    requires { IsEncodable Replay «module».now }
    ensures shortest { IfOk result (λ bytes. bytes.items ≡ encoding_of «module».now) }
    ensures within { OnOk result (length (encoding_of «module».now) ≤ most) }
    ensures too_long { IfErr result (λ fault.
        fault ≡ TooLong → most < length (encoding_of «module».now)) }
    ensures encodes { IfOk result (λ bytes. Encodes Replay bytes.items «module».now) }
    ensures core { IfOk result (λ bytes.
        IsCoreModule «module».now → Encodes Core bytes.items «module».now) }
{
    // The written bytes are an encoding, in the form Core too if the module is of that form.
    shortest_encoding();
    encoding_forms();
    let length = module_length(module);
    if length > u64::from(most) {
        return Err(EncodeFault::TooLong);
    }
    match encoding_in(alloc, module, length as usize) {
        Ok(bytes) => Ok(bytes),
        Err(NoMemory) => Err(EncodeFault::Memory),
    }
}

/// The shortest encoding of a module, which has `size` bytes.
fn encoding_in(alloc: Global, module: &Module, size: usize) -> Result<Vec<u8>, NoMemory>
    requires fits { IsEncodable Replay «module».now }
    requires size { (size ≡ length (encoding_of «module».now)) × (size < 2 ^ 32) }
    ensures { IfOk result (λ bytes. bytes.items ≡ encoding_of «module».now) }
{
    let mut bytes = Vec::with_capacity(alloc, size + ROOM)?;
    write_module(module, &mut bytes)?;
    Ok(bytes)
}
