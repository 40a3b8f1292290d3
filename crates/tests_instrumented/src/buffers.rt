// Modules that are instrumented, and one that is played under its meter.

ghost use Rattle.std.specs.Prelude.{◌≤◌, IfOk, length};
ghost use Rattle.wasm_syntax.specs.declared.limits.TheConstants.{MAX_FILE_BYTES};
ghost use Rattle.wasm_flat.specs.Meters.{FitsMeter};
ghost use Rattle.wasm_flat.specs.Sizes.{IsShort};
ghost use Rattle.type_safety.specs.Supplies.{IsRunnable};

use crate::hooked_runs::played;
use history_spec::Outcome;
use hook_insert::{InstrumentedModule, instrument, instrumented_meters_fit};
use hook_names::NoHooks;
use host_play::PlayFault;
use instrumented_module_laws::{
    encoded_have_words, instrumented_are_runnable, instrumented_are_short,
};
use r3_inputs::module_of;
use sample_inputs::examples::C_BUFFERS;
use std::alloc::Global;
use std::test::Fail;
use wasm_syntax::limits::MAX_FILE_BYTES;

// examples/c_buffers.json
const SCRIPT: &str = "{\"imports\":{\"env\":{\"read\":{\"calls\":[{\"do\":[\
    {\"write\":{\"arg\":0},\"bytes\":\"68690a00\"},{\"write\":{\"arg\":2},\"bytes\":\"03000000\"}],\
    \"return\":{\"i32\":0}}]}}},\"main\":[{\"call\":\"run\"}]}";

/// The instrumented module of the module that bytes encode, with this digest.
fn hooked_of(alloc: Global, bytes: &[u8], digest: &[u8; 32]) -> Result<InstrumentedModule, Fail>
    requires { length bytes.now ≤ MAX_FILE_BYTES }
    ensures short { IfOk result (λ hooked. IsShort hooked.«module») }
    ensures runnable { IfOk result (λ hooked. IsRunnable hooked.«module») }
    ensures meter { IfOk result (λ hooked. FitsMeter hooked.«module» hooked.meter) }
{
    encoded_have_words();
    instrumented_are_short();
    instrumented_are_runnable();
    instrumented_meters_fit();
    match module_of(alloc, bytes) {
        Ok(checked) => Ok(instrument(alloc, &checked, digest)?),
        Err(_) => Err(Fail::from("a refused module")),
    }
}

/// The instrumented module of bytes in hexadecimal, with a digest of bytes 7.
pub(crate) fn with_hooks(alloc: Global, text: &str) -> Result<InstrumentedModule, Fail>
    ensures short { IfOk result (λ hooked. IsShort hooked.«module») }
    ensures runnable { IfOk result (λ hooked. IsRunnable hooked.«module») }
    ensures meter { IfOk result (λ hooked. FitsMeter hooked.«module» hooked.meter) }
{
    let bytes = hex::decode(alloc, text)?;
    if bytes.len() > MAX_FILE_BYTES as usize {
        return Err(Fail::from("a long text"));
    }
    hooked_of(alloc, bytes.as_slice(), &[7; 32])
}

/// The run of the instrumented `C_BUFFERS` within a number of turns.
fn run_of_buffers(alloc: Global, turns: u64) -> Result<Result<Outcome, PlayFault>, Fail> {
    let hooked = with_hooks(alloc, C_BUFFERS)?;
    played(
        alloc,
        &hooked.module,
        &hooked.meter,
        SCRIPT,
        turns,
        &mut NoHooks,
    )
}

// The functions take 23 and 3 turns, the host one for the call and one for each write; hook calls take none.
#[test]
fn instrumented_modules_take_the_turns_of_their_originals(rt: HostRuntime) -> Result<(), Fail> {
    assert!(rt; run_of_buffers(rt.alloc(), 29)? == Ok(Outcome::Ended));
    assert!(rt; run_of_buffers(rt.alloc(), 28)? == Err(PlayFault::Spent));
    Ok(())
}
