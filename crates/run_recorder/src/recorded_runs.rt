// Recorded runs.

ghost use Rattle.std.specs.Prelude.{◌≡◌, ◌≤◌, ◌^◌, [], length, Ok};
ghost use Rattle.wasm_syntax.specs.Index.{all_globals};
ghost use Rattle.wasm_syntax.specs.Profile.{IsSupported};
ghost use Rattle.host_script.specs.Fits.{Fits};
ghost use Rattle.history_spec.specs.Instantiation.{instantiate};
ghost use Rattle.type_safety.specs.Stores.{IsStore};
ghost use Rattle.wasm_flat.specs.Bounds.{IsBound};
ghost use Rattle.wasm_flat.specs.FlatCode.{flat_of};
ghost use Rattle.wasm_flat.specs.Meters.{FitsMeter};
ghost use Rattle.record_replay_spec.specs.Order.{shape_of};
ghost use Rattle.host_play.specs.HookedResults.{HasHooksAfter, hooked_run};
ghost use Rattle.run_recorder.specs.Records.{IsLed, IsRecord, IsRecordedInto, RecordedRun};

use history_spec::Outcome;
use host_play::{Play, PlayFault, RunSettings};
use host_script::Supply;
use recorder::{Recorder, calls_are_recorded};
use std::alloc::Global;
use trace_model::{EventSink, Events, Log};
use wasm_validate::Checked;

/// The run of a module in the hooked form, as the settings say. The sink has taken no event; it takes the events of the
/// log of the run's hook calls. `play` is the module's instantiation with the supply. Each global of the module has an
/// index of 32 bits.
///
/// # Errors
///
/// `Hook` if and only if a hook call is the first one out of order, with its number from 0; before any such call
/// `Fault` if the host cannot do what the script says, and `Spent` if the run needs more turns. `Memory` if
/// memory is out.
pub fn record_into<S: EventSink + Drop>(
    alloc: Global,
    hooked: &Checked,
    supply: &Supply,
    play: Play,
    settings: &RunSettings<'_>,
    sink: S,
) -> Result<(S, Outcome), PlayFault>
    requires code { play.code.now ≡ hooked.now }
    requires supported { IsSupported hooked.now }
    requires hooked { HasHooksAfter hooked.now settings.now.imports }
    requires globals { length (all_globals hooked.now) ≤ 2 ^ 32 }
    requires meter { FitsMeter hooked.now settings.now.meter.now }
    requires fits { Fits hooked.now play.script.now }
    requires flat { play.flat ≡ flat_of hooked.now }
    requires bound { IsBound play.flat }
    requires store { IsStore hooked.now play.store }
    requires begins { instantiate hooked.now supply.now ≡ Ok play.store }
    requires fresh { S.has_taken sink sink [] }
    ensures { IsRecordedInto (S.has_taken sink)
        (record {
          run = hooked_run hooked.now play.entry.script.now play.entry.store settings.now.meter.now
              settings.now.imports settings.now.turns;
          shape = shape_of settings.now.imports hooked.now;
          opened = play.entry.store;
        }) result }
{
    calls_are_recorded::<S>();
    let _valid = hooked.module();
    let mut recorder = Recorder::into_sink(alloc, hooked, supply, settings.imports, sink)?;
    let answer = host_play::play(alloc, play, settings, &mut recorder);
    recorded_sink(recorder, answer)
}

/// The sink of a recorder, after the run that made its calls, with the outcome.
fn recorded_sink<S: EventSink + Drop>(
    recorder: Recorder<S>,
    answer: Result<Outcome, PlayFault>,
) -> Result<(S, Outcome), PlayFault>
    ensures { (first : S) (r : RecordedRun) → IsLed (S.has_taken first) r answer recorder
        → IsRecordedInto (S.has_taken first) r result }
{
    let outcome = answer?;
    Ok((recorder.close(), outcome))
}

/// The log of such a run.
///
/// # Errors
///
/// The faults of `record_into`.
pub fn record_log(
    alloc: Global,
    hooked: &Checked,
    supply: &Supply,
    play: Play,
    settings: &RunSettings<'_>,
) -> Result<Log, PlayFault>
    requires code { play.code.now ≡ hooked.now }
    requires supported { IsSupported hooked.now }
    requires hooked { HasHooksAfter hooked.now settings.now.imports }
    requires globals { length (all_globals hooked.now) ≤ 2 ^ 32 }
    requires meter { FitsMeter hooked.now settings.now.meter.now }
    requires fits { Fits hooked.now play.script.now }
    requires flat { play.flat ≡ flat_of hooked.now }
    requires bound { IsBound play.flat }
    requires store { IsStore hooked.now play.store }
    requires begins { instantiate hooked.now supply.now ≡ Ok play.store }
    ensures { IsRecord
        (record {
          run = hooked_run hooked.now play.entry.script.now play.entry.store settings.now.meter.now
              settings.now.imports settings.now.turns;
          shape = shape_of settings.now.imports hooked.now;
          opened = play.entry.store;
        }) result }
{
    let sink = Events::new(alloc);
    let (events, outcome) = record_into(alloc, hooked, supply, play, settings, sink)?;
    Ok(Log {
        imports: settings.imports,
        events,
        outcome,
    })
}
