// The encoding of the replay module of a tape.

ghost use Rattle.std.specs.Prelude.{◌≡◌, ◌<◌, ◌≤◌, ◌^◌, ℕ, List, Ok, IfOk, IfSome};
ghost use Rattle.wasm_syntax.specs.declared.limits.TheConstants.{MAX_TAPE_WEIGHT};
ghost use Rattle.wasm_syntax.specs.Encoding.Forms.{IsCoreModule};
ghost use Rattle.wasm_syntax.specs.Encoding.Shortest.{encoding_of};
ghost use Rattle.history_spec.specs.Instantiation.{instantiate};
ghost use Rattle.history_spec.specs.Store.{Store};
ghost use Rattle.trace_model.specs.Fitting.{IsFitting};
ghost use Rattle.trace_model.specs.Weight.{tape_weight};
ghost use Rattle.type_safety.specs.Supplies.{IsRunnable, IsSupply};
ghost use Rattle.replay_module_laws.specs.Written.{IsConstantTape};
ghost use Rattle.generated_code_laws.specs.Playable.{replay_of};
ghost use Rattle.replay_encoding_laws.specs.Premises.{CanBeReplayed, IsFromBytes};
ghost use Rattle.replay_laws.specs.EncodedReplays.{IsReplayOf};

use crate::binaries::build_binary;
use crate::laws::replay_modules_of_tapes_stand;
use base::NoMemory;
use host_script::Supply;
use replay_encoding_laws::{
    plans_fit_indices, replay_modules_are_encodable, replay_modules_are_short,
};
use std::alloc::Global;
use trace_model::Tape;
use wasm_encode::{EncodeFault, encode};
use wasm_syntax::{Limits, encoding_forms, shortest_encoding};
use wasm_validate::Checked;

/// The encoding of the replay module of a tape, for a module that some bytes encode, at most `MAX_ORIGINAL_BYTES`, and
/// a supply for its imports.
///
/// # Errors
///
/// If an allocation failed.
pub fn replay_bytes(
    alloc: Global,
    checked: Checked,
    supply: &Supply,
    tape: Tape,
) -> Result<Vec<u8>, NoMemory>
    requires encoded { (bytes : List ℕ) × IsFromBytes bytes checked }
    requires runnable { IsRunnable checked }
    requires supplied { IsSupply checked supply.now }
    requires fits { IsFitting checked tape }
    requires light { tape_weight tape ≤ MAX_TAPE_WEIGHT }
    requires constants { IsConstantTape tape }
    ensures shortest { IfOk result (λ printed. printed.items ≡ encoding_of (replay_of checked supply.now tape)) }
    ensures printed { IfOk result (λ printed. (store : Store) → instantiate checked supply.now ≡ Ok store
        → IsReplayOf checked supply.now store tape printed.items) }
{
    encoding_forms();
    shortest_encoding();
    plans_fit_indices();
    replay_modules_are_encodable();
    replay_modules_are_short();
    know_maximum(supply.table);
    encoded_replay(alloc, checked, supply, tape)
}

/// The encoding of the replay module of a tape, for a module that can be replayed with it and a supply for its imports.
///
/// # Errors
///
/// If an allocation failed.
pub fn encoded_replay(
    alloc: Global,
    checked: Checked,
    supply: &Supply,
    tape: Tape,
) -> Result<Vec<u8>, NoMemory>
    requires runnable { IsRunnable checked }
    requires core { IsCoreModule checked }
    requires can { CanBeReplayed checked supply.now tape }
    ensures shortest { IfOk result (λ printed. printed.items ≡ encoding_of (replay_of checked supply.now tape)) }
    ensures printed { IfOk result (λ printed. (store : Store) → instantiate checked supply.now ≡ Ok store
        → IsReplayOf checked supply.now store tape printed.items) }
{
    replay_modules_are_short();
    replay_modules_of_tapes_stand();
    let replay = build_binary(alloc, checked, supply, tape)?;
    match encode(alloc, replay.module(), u32::MAX) {
        Ok(printed) => Ok(printed),
        Err(EncodeFault::TooLong) => unreachable!(),
        Err(EncodeFault::Memory) => Err(NoMemory),
    }
}

/// A maximum of a table has 32 bits.
pub fn know_maximum(limits: Option<Limits>)
    ensures { IfSome limits (λ table. IfSome table.max (λ max. max < 2 ^ 32)) }
{
    if let Some(limits) = limits {
        if let Some(max) = limits.max {
            let _max = max;
        }
    }
}
