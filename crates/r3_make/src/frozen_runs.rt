// The run of an instrumented module, recorded into a reducer, with what is known before a top-level call frozen.

ghost use Rattle.std.specs.Prelude.{◌≡◌, ◌<◌, ◌^◌, ℕ, IfOk};
ghost use Rattle.host_script.specs.declared.scripts.Supply.{Supply as Supplied};
ghost use Rattle.tape_laws.specs.CallLaws.{OriginalRun};
ghost use Rattle.run_recorder.specs.Records.{RecordedRun};
ghost use Rattle.replay_theorem.specs.RecordedOriginalLaws.{record_of};
ghost use Rattle.r3_make.specs.Records.{IsHookedPlay, IsRecordable};
ghost use Rattle.r3_make.specs.FrozenRuns.{IsFrozenBy, IsFrozenRecord, IsNewFreezer};

use crate::recorded_runs::HookedInputs;
use base::NoMemory;
use checkpoint::{Freezer, runs_are_frozen};
use history_spec::Outcome;
use hook_insert::instrumented_meters_fit;
use host_play::{Play, PlayFault, RunSettings};
use host_script::Supply;
use instrumented_module_laws::{
    instrumented_are_fitted, instrumented_are_instantiated, instrumented_are_runnable,
    instrumented_are_short, instrumented_have_stores, instrumented_import_hooks,
};
use record_replay_spec::instrumented_keep_indices;
use recorder::{Frozen, Recorder};
use std::alloc::Global;
use trace_reduce::Reducer;
use type_safety::typed_store;
use wasm_syntax::limits::MAX_TAPE_WEIGHT;

/// A recorded run: the reducer that has taken the events of its log, its outcome, the number of its top-level calls,
/// and what was known before the one that was looked for, if there is one.
#[derive(Drop)]
pub(crate) struct FrozenRun {
    pub(crate) reducer: Reducer,
    pub(crate) outcome: Outcome,
    pub(crate) calls: u64,
    pub(crate) frozen: Option<Frozen>,
}

/// Records the run within a number of turns from the instantiation of the instrumented module on, and freezes what is
/// known before the top-level call of a number.
///
/// # Errors
/// `Fault` if the host cannot do what the script says, `Spent` if the run needs more turns. `Memory` if memory is out.
pub(crate) fn frozen_run(
    alloc: Global,
    inputs: &HookedInputs,
    supply: &Supply,
    play: Play,
    turns: u64,
    number: u32,
) -> Result<FrozenRun, PlayFault>
    requires { (run : OriginalRun) × IsRecordable run inputs.now supply.now
        × IsHookedPlay run.m run.store inputs.now play }
    ensures { (run : OriginalRun) → IsRecordable run inputs.now supply.now
        → IsHookedPlay run.m run.store inputs.now play.entry
        → IsFrozenRecord (record_of run turns) number result }
{
    let freezer = new_freezer(alloc, inputs, supply, number)?;
    play_frozen(alloc, inputs, play, turns, freezer)
}

/// A freezer for the hook calls of the instrumented module, before the first of them.
fn new_freezer(
    alloc: Global,
    inputs: &HookedInputs,
    supply: &Supply,
    number: u32,
) -> Result<Freezer<Reducer>, NoMemory>
    requires { (run : OriginalRun) × IsRecordable run inputs.now supply.now }
    ensures { IfOk result (λ freezer. (run : OriginalRun) (turns : ℕ) → IsRecordable run inputs.now supply.now
        → IsNewFreezer (record_of run turns) number freezer) }
{
    instrumented_keep_indices();
    instrumented_are_short();
    instrumented_import_hooks();
    instrumented_are_instantiated();
    instrumented_have_stores();
    typed_store();
    let sink = Reducer::new(alloc, inputs.imports, MAX_TAPE_WEIGHT);
    let recorder = Recorder::into_sink(alloc, &inputs.hooked, supply, inputs.imports, sink)?;
    Ok(Freezer::new(recorder, number))
}

/// Records the run with a freezer.
fn play_frozen(
    alloc: Global,
    inputs: &HookedInputs,
    play: Play,
    turns: u64,
    mut freezer: Freezer<Reducer>,
) -> Result<FrozenRun, PlayFault>
    requires { (run : OriginalRun) × (supply : Supplied) × IsRecordable run inputs.now supply
        × IsHookedPlay run.m run.store inputs.now play }
    ensures { (run : OriginalRun) (supply : Supplied) (number : ℕ) → number < 2 ^ 32
        → IsRecordable run inputs.now supply → IsHookedPlay run.m run.store inputs.now play.entry
        → IsNewFreezer (record_of run turns) number freezer
        → IsFrozenRecord (record_of run turns) number result }
{
    instrumented_are_runnable();
    instrumented_are_fitted();
    instrumented_have_stores();
    instrumented_import_hooks();
    instrumented_meters_fit();
    typed_store();
    runs_are_frozen::<Reducer>();
    let settings = RunSettings {
        imports: inputs.imports,
        meter: &inputs.meter,
        turns,
    };
    let answer = host_play::play(alloc, play, &settings, &mut freezer);
    frozen_record(freezer, answer)
}

/// What a freezer has recorded after the run that made its calls, if the run has an outcome.
fn frozen_record(
    freezer: Freezer<Reducer>,
    answer: Result<Outcome, PlayFault>,
) -> Result<FrozenRun, PlayFault>
    ensures { (r : RecordedRun) (number : ℕ) → IsFrozenBy r number answer freezer → IsFrozenRecord r number result }
{
    let outcome = answer?;
    Ok(closed(freezer, outcome))
}

/// What a freezer has recorded.
fn closed(freezer: Freezer<Reducer>, outcome: Outcome) -> FrozenRun
    ensures outcome { result.outcome ≡ outcome }
    ensures reducer { result.reducer ≡ freezer.recorder.recording.sink }
    ensures calls { result.calls ≡ freezer.calls }
    ensures frozen { result.frozen ≡ freezer.recorder.frozen }
{
    let calls = freezer.calls();
    let (reducer, frozen) = freezer.into_recorder().close_frozen();
    FrozenRun {
        reducer,
        outcome,
        calls,
        frozen,
    }
}
