// The module that begins with what is known before a top-level call, its supply, and the cut of the run's tape there.

ghost use Rattle.std.specs.Prelude.{◌≡◌, ◌⊎◌, Some, IfErr, IfOk, IsSome};
ghost use Rattle.host_script.specs.declared.scripts.Script as scripts;
ghost use Rattle.host_script.specs.declared.scripts.Supply.{Supply as Supplied};
ghost use Rattle.rest_spec.specs.Cuts.{cut_of};
ghost use Rattle.rest_spec.specs.StateModules.{state_module_of, state_supply_of};
ghost use Rattle.state_laws.specs.Valid.{IsRunnableWith, IsStateOf};
ghost use Rattle.checkpoint.specs.FrozenStates.{state_of_frozen};
ghost use Rattle.replay_encoding_laws.specs.Premises.{IsTakenSupply};
ghost use Rattle.accepted_runs.specs.Runnable.{CanRun};
ghost use Rattle.r3_faults.specs.declared.faults.Fault.TheVariants.{Memory};
ghost use Rattle.r3_make.specs.Records.{AreHookedInputs, IsOriginalModule};
ghost use Rattle.r3_make.specs.RestRefusals.{HasNoRest};
ghost use Rattle.r3_make.specs.StatesAndCuts.{AreStateAndCut};

use crate::frozen_tapes::frozen_tape;
use crate::recorded_runs::{HookedInputs, hooked_inputs, hooked_play};
use checkpoint::{CutFault, cut, frozen_states_are_known, state_module};
use host_script::{Script, Supply};
use instrumented_module_laws::encoded_have_words;
use r3_faults::Fault;
use recorder::Frozen;
use replay_laws::know_maximum;
use replay_theorem::needed_tapes_are_playable;
use rest_laws::known_stores_are_typed;
use rest_theorem::rests_are_replayed_from_states;
use std::alloc::Global;
use trace_model::Tape;
use type_safety::typed_store;
use wasm_validate::Checked;

/// A module that begins with what is known before a top-level call of a run, its supply, and the cut of the run's tape.
#[derive(Drop)]
pub struct StateAndCut {
    pub module: Checked,
    pub supply: Supply,
    pub cut: Tape,
}

/// The state module and the cut tape of the run of a module under a script, before the top-level call of a number.
///
/// # Errors
///
/// The fault names the cause: the module does not link, the host cannot do what the script says, the run needs more
/// turns, it has too few top-level calls, or its tape weighs more than `MAX_TAPE_WEIGHT`. `Memory` if memory is out.
pub fn state_and_cut(
    alloc: Global,
    checked: &Checked,
    script: Script,
    turns: u64,
    number: u32,
) -> Result<StateAndCut, Fault>
    requires original { IsOriginalModule checked.now }
    requires runnable { CanRun checked.now script }
    ensures parts { IfOk result (λ parts. (supply : Supplied) × IsTakenSupply checked.now supply
        × AreStateAndCut checked.now script turns number supply parts.«module» parts.supply parts.cut) }
    ensures cause { IfErr result (λ fault. (fault ≡ Memory) ⊎ HasNoRest checked.now script turns number fault) }
{
    let inputs = hooked_inputs(alloc, checked, script)?;
    parts_of_inputs(alloc, checked, &inputs, turns, number)
}

/// The state module and the cut tape, by the run of an instrumented module.
fn parts_of_inputs(
    alloc: Global,
    checked: &Checked,
    inputs: &HookedInputs,
    turns: u64,
    number: u32,
) -> Result<StateAndCut, Fault>
    requires { (script : scripts.Script) × AreHookedInputs checked.now script inputs.now }
    ensures parts { (script : scripts.Script) → AreHookedInputs checked.now script inputs.now
        → IfOk result (λ parts. (supply : Supplied) × IsTakenSupply checked.now supply
        × AreStateAndCut checked.now script turns number supply parts.«module» parts.supply parts.cut) }
    ensures cause { (script : scripts.Script) → AreHookedInputs checked.now script inputs.now
        → IfErr result (λ fault. (fault ≡ Memory) ⊎ HasNoRest checked.now script turns number fault) }
{
    encoded_have_words();
    frozen_states_are_known();
    known_stores_are_typed();
    needed_tapes_are_playable();
    rests_are_replayed_from_states();
    typed_store();
    let (supply, play) = hooked_play(alloc, inputs)?;
    know_maximum(supply.table);
    let (tape, frozen) = frozen_tape(alloc, inputs, &supply, play, turns, number)?;
    parts_of(alloc, checked, &supply, &tape, &frozen, number)
}

/// The module that begins with what is frozen, its supply, and the cut of a tape, which is there.
fn parts_of(
    alloc: Global,
    checked: &Checked,
    supply: &Supply,
    tape: &Tape,
    frozen: &Frozen,
    number: u32,
) -> Result<StateAndCut, Fault>
    requires runs { IsRunnableWith checked.now supply.now }
    requires state { IsStateOf checked.now supply.now (state_of_frozen frozen.now) }
    requires cut { IsSome (cut_of number 0 tape.now.segments) }
    ensures parts { IfOk result (λ parts. (parts.«module» ≡ state_module_of checked.now (state_of_frozen frozen.now))
        × (parts.supply ≡ state_supply_of supply.now (state_of_frozen frozen.now))
        × (cut_of number 0 tape.now.segments ≡ Some parts.cut.segments)) }
    ensures memory { IfErr result (λ fault. fault ≡ Memory) }
{
    let cut = match cut(alloc, tape, number) {
        Ok(cut) => cut,
        Err(CutFault::Memory) => return Err(Fault::Memory),
        Err(CutFault::NoCall { .. }) => unreachable!(),
    };
    let (module, supply) = state_module(alloc, checked, supply, frozen)?;
    Ok(StateAndCut {
        module,
        supply,
        cut,
    })
}
