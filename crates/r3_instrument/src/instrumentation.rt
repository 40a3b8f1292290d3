// `instrument`: the instrumented module of a module, from bytes to bytes.

ghost use Rattle.std.specs.Prelude.{◌≡◌, ◌≤◌, ◌<◌, ◌⊎◌, IfErr, IfOk, OnOk, length};
ghost use Rattle.sha2.specs.Sha256.{sha256};
ghost use Rattle.wasm_syntax.specs.declared.limits.TheConstants.{MAX_FILE_BYTES, MAX_INSTRUMENTED_BYTES};
ghost use Rattle.wasm_syntax.specs.declared.forms.Form.TheVariants.{Replay};
ghost use Rattle.wasm_syntax.specs.Encoding.Encodable.{IsEncodable};
ghost use Rattle.wasm_syntax.specs.Encoding.Shortest.{encoding_of};
ghost use Rattle.wasm_flat.specs.Sizes.{IsShort};
ghost use Rattle.record_replay_spec.specs.Instrumented.{instrumented_module};
ghost use Rattle.r3_faults.specs.Answers.{IsCaused, IsExact};
ghost use Rattle.r3_faults.specs.declared.faults.Fault.TheVariants.{HookedLimit, Memory};
ghost use Rattle.r3_inputs.specs.Inputs.{IsModuleOf};
ghost use Rattle.r3_instrument.specs.InstrumentedBytes.{IsHooked, IsHookedOf, IsHookedRefusal, IsTooLong};

use hook_insert::{files_are_of_words, instrument, instrumented_are_encodable};
use r3_faults::Fault;
use r3_inputs::module_of;
use sha2::{Digest, Sha256};
use std::alloc::Global;
use wasm_encode::{EncodeFault, encode};
use wasm_syntax::limits::MAX_INSTRUMENTED_BYTES;
use wasm_syntax::shortest_encoding;
use wasm_validate::Checked;

/// The shortest encoding of the instrumented module of a module, which declares the SHA-256 digest of the
/// module's bytes. The module has at most `MAX_FILE_BYTES`.
///
/// # Errors
///
/// Why the bytes are not an accepted module; or `HookedLimit`, if and only if the encoding has more than
/// `MAX_INSTRUMENTED_BYTES`. `Memory` if memory is out.
pub fn instrument_bytes(alloc: Global, module: &[u8]) -> Result<Vec<u8>, Fault>
    requires { length «module».now ≤ MAX_FILE_BYTES }
    ensures { IsExact (IsHookedOf «module».now) (IsHookedRefusal «module».now) result }
{
    match module_of(alloc, module) {
        Ok(checked) => hooked_of(alloc, module, checked),
        Err(fault) => Err(fault),
    }
}

/// The encoding of the instrumented module of the module that the bytes encode.
fn hooked_of(alloc: Global, bytes: &[u8], checked: Checked) -> Result<Vec<u8>, Fault>
    requires few { length bytes.now ≤ MAX_FILE_BYTES }
    requires is_module { IsModuleOf bytes.now checked }
    requires short { IsShort checked }
    ensures { IsCaused (IsHooked bytes.now checked) (IsTooLong bytes.now checked) result }
{
    let hooked = hooked_module(alloc, bytes, checked)?;
    encode_hooked(alloc, &hooked)
}

/// The instrumented module, which has an encoding.
fn hooked_module(alloc: Global, bytes: &[u8], checked: Checked) -> Result<Checked, Fault>
    requires few { length bytes.now ≤ MAX_FILE_BYTES }
    requires is_module { IsModuleOf bytes.now checked }
    requires short { IsShort checked }
    ensures made { IfOk result (λ hooked. hooked ≡ instrumented_module checked (sha256 bytes.now)) }
    ensures encodable { IfOk result (λ hooked. IsEncodable Replay hooked) }
    ensures cause { IfErr result (λ fault. fault ≡ Memory) }
{
    shortest_encoding();
    files_are_of_words();
    instrumented_are_encodable();
    let digest = Sha256::digest(bytes);
    let _module = checked.module();
    let hooked = instrument(alloc, &checked, &digest)?;
    Ok(hooked.module)
}

/// A module's encoding, if it fits into a file of an instrumented module.
fn encode_hooked(alloc: Global, hooked: &Checked) -> Result<Vec<u8>, Fault>
    requires { IsEncodable Replay hooked.now }
    ensures shortest { IfOk result (λ bytes. bytes.items ≡ encoding_of hooked.now) }
    ensures within { OnOk result (length (encoding_of hooked.now) ≤ MAX_INSTRUMENTED_BYTES) }
    ensures cause { IfErr result (λ fault. (fault ≡ Memory)
        ⊎ ((fault ≡ HookedLimit) × (MAX_INSTRUMENTED_BYTES < length (encoding_of hooked.now)))) }
{
    match encode(alloc, hooked.module(), MAX_INSTRUMENTED_BYTES as u32) {
        Ok(bytes) => Ok(bytes),
        Err(EncodeFault::TooLong) => Err(Fault::HookedLimit),
        Err(EncodeFault::Memory) => Err(Fault::Memory),
    }
}
