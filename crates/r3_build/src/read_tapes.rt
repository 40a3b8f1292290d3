// The tape that the bytes of a file encode, for a module.

ghost use Rattle.std.specs.Prelude.{◌≡◌, ◌⊎◌, ◌<◌, All, IfErr, IfOk, OnOk, true};
ghost use Rattle.trace_model.specs.Fitting.{IsFitting};
ghost use Rattle.trace_format.specs.Faults.{IsTapeOf};
ghost use Rattle.replay_module_laws.specs.Written.{IsConstantTape};
ghost use Rattle.r3_faults.specs.declared.faults.Fault.TheVariants.{Memory};
ghost use Rattle.r3_show.specs.FileLines.{IsUnshownAs};
ghost use Rattle.r3_build.specs.BuildRefusals.{IsTakenAs, IsUnfitFor, IsUntaken};

use r3_faults::Fault;
use r3_show::fault_of;
use replay_encoding_laws::read_tapes_are_constant;
use std::alloc::Global;
use trace_format::{Digest, read_tape};
use trace_model::{Tape, TapeFault, fits};
use wasm_syntax::Module;
use wasm_syntax::limits::MAX_TAPE_WEIGHT;

/// The tape that bytes encode for a module whose own bytes have this digest.
///
/// # Errors
///
/// The first cause that applies: the bytes do not encode a tape; they encode a tape with another digest, a tape
/// that does not fit the module, or one that weighs too much. `Memory` if memory is out.
pub(crate) fn tape_for(
    alloc: Global,
    digest: [u8; 32],
    module: &Module,
    bytes: &[u8],
) -> Result<Tape, Fault>
    ensures taken { IfOk result (λ tape. IsTakenAs «module».now digest bytes.now tape) }
    ensures constants { IfOk result (λ tape. IsConstantTape tape) }
    ensures cause { IfErr result (λ fault. (fault ≡ Memory) ⊎ IsUntaken «module».now digest bytes.now fault) }
{
    let (found, tape) = tape_of_bytes(alloc, bytes)?;
    let found = *found.as_bytes();
    if found != digest {
        return Err(Fault::OtherModule {
            tape: found,
            given: digest,
        });
    }
    check_form(alloc, &tape, module)?;
    let weight = tape.weight();
    if weight > MAX_TAPE_WEIGHT {
        return Err(Fault::TapeLimit { weight });
    }
    Ok(tape)
}

/// The tape that bytes encode, and its digest.
fn tape_of_bytes(alloc: Global, bytes: &[u8]) -> Result<(Digest, Tape), Fault>
    ensures read { IfOk result (λ read. IsTapeOf bytes.now read.0 read.1) }
    ensures constants { IfOk result (λ read. IsConstantTape read.1) }
    ensures cause { IfErr result (λ fault. (fault ≡ Memory) ⊎ IsUnshownAs true bytes.now fault) }
{
    read_tapes_are_constant();
    know_bytes(bytes);
    match read_tape(alloc, bytes) {
        Ok(read) => Ok(read),
        Err(cause) => Err(fault_of(cause)),
    }
}

/// The bytes of a file are below 256.
fn know_bytes(_bytes: &[u8])
    ensures { All (λ byte. byte < 256) _bytes.now }
{}

/// Tests that a tape fits a module.
fn check_form(alloc: Global, tape: &Tape, module: &Module) -> Result<(), Fault>
    ensures fits { OnOk result (IsFitting «module».now tape.now) }
    ensures cause { IfErr result (λ fault. (fault ≡ Memory) ⊎ IsUnfitFor «module».now tape.now fault) }
{
    match fits(alloc, tape, module) {
        Ok(()) => Ok(()),
        Err(TapeFault::Unfit { segment }) => Err(Fault::Unfit { segment }),
        Err(TapeFault::Memory) => Err(Fault::Memory),
    }
}
