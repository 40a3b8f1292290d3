// The record of a run: the instrumented module is run, and its hook calls are passed to a reducer.

ghost use Rattle.std.specs.Prelude.{◌≡◌, ◌⊎◌, IfErr, IfOk};
ghost use Rattle.wasm_syntax.specs.declared.limits.TheConstants.{MAX_TAPE_WEIGHT};
ghost use Rattle.wasm_syntax.specs.declared.modules.Module.{Module};
ghost use Rattle.host_script.specs.declared.scripts.Script as scripts;
ghost use Rattle.history_spec.specs.Store.{Store};
ghost use Rattle.tape_laws.specs.CallLaws.{OriginalRun};
ghost use Rattle.trace_reduce.specs.Reducer.{HasTakenFor};
ghost use Rattle.run_recorder.specs.Records.{IsRecordedInto};
ghost use Rattle.replay_theorem.specs.RecordedOriginalLaws.{record_of};
ghost use Rattle.accepted_runs.specs.Linked.{IsLinked};
ghost use Rattle.accepted_runs.specs.Runnable.{CanRun};
ghost use Rattle.accepted_runs.specs.Unlinked.{IsUnlinkedFor};
ghost use Rattle.r3_faults.specs.declared.faults.Fault.TheVariants.{Memory};
ghost use Rattle.r3_make.specs.Records.{AreHookedInputs, IsHookedPlay, IsOriginalModule, IsRecordable};

use accepted_runs::supply_and_store;
use base::NoMemory;
use history_spec::Outcome;
use hook_insert::{InstrumentedModule, instrument, instrumented_meters_fit};
use hooked_scripts::{count_of_imports, script_with_hooks};
use host_play::{Play, PlayFault, RunSettings};
use host_script::{Script, Supply};
use instrumented_module_laws::{
    encoded_have_words, instrumented_are_fitted, instrumented_are_instantiated,
    instrumented_are_runnable, instrumented_are_short, instrumented_are_supplied,
    instrumented_have_stores, instrumented_import_hooks,
};
use r3_faults::Fault;
use record_replay_spec::instrumented_keep_indices;
use run_recorder::record_into;
use std::alloc::Global;
use trace_reduce::Reducer;
use type_safety::typed_store;
use wasm_flat::Meter;
use wasm_flatten::flatten;
use wasm_syntax::limits::MAX_TAPE_WEIGHT;
use wasm_validate::Checked;

/// The digest that the instrumented module has. No output has it, so that none is computed.
const NO_DIGEST: [u8; 32] = [0; 32];

/// An instrumented module, the meter under which its run takes the turns of the original's, the script for it,
/// and the number of functions that the original imports.
#[derive(Drop)]
pub(crate) struct HookedInputs {
    pub(crate) hooked: Checked,
    pub(crate) meter: Meter,
    pub(crate) script: Script,
    pub(crate) imports: u32,
}

/// The instrumented module of a module, and what its run needs besides.
pub(crate) fn hooked_inputs(
    alloc: Global,
    checked: &Checked,
    script: Script,
) -> Result<HookedInputs, NoMemory>
    requires original { IsOriginalModule checked.now }
    requires runnable { CanRun checked.now script }
    ensures { IfOk result (λ inputs. AreHookedInputs checked.now script inputs) }
{
    encoded_have_words();
    let imports = count_of_imports(checked.module(), &script);
    let hooked = instrument(alloc, checked, &NO_DIGEST)?;
    let script = script_with_hooks(alloc, checked.module(), script)?;
    Ok(with_script(hooked, script, imports))
}

/// An instrumented module with the script for it and the number of functions that the original imports.
fn with_script(instrumented: InstrumentedModule, script: Script, imports: u32) -> HookedInputs
    ensures { result ≡ record {
      hooked = instrumented.«module»;
      meter = instrumented.meter;
      script = script;
      imports = imports;
    } }
{
    HookedInputs {
        hooked: instrumented.module,
        meter: instrumented.meter,
        script,
        imports,
    }
}

/// The supply for the imports of the instrumented module, which is that of the original, and its instantiation. It
/// links if the original does, or else fails at the same import or segment.
pub(crate) fn hooked_play<'a>(
    alloc: Global,
    inputs: &'a HookedInputs,
) -> Result<(Supply, Play<'a>), Fault>
    requires { (m : Module) × (script : scripts.Script) × AreHookedInputs m script inputs.now }
    ensures opened { (m : Module) (script : scripts.Script) → AreHookedInputs m script inputs.now
        → IfOk result (λ opened.
        (store : Store) × IsLinked m script opened.0 store × IsHookedPlay m store inputs.now opened.1) }
    ensures cause { (m : Module) (script : scripts.Script) → AreHookedInputs m script inputs.now
        → IfErr result (λ fault. (fault ≡ Memory) ⊎ IsUnlinkedFor m script fault) }
{
    encoded_have_words();
    instrumented_are_runnable();
    instrumented_are_fitted();
    instrumented_are_supplied();
    instrumented_are_instantiated();
    instrumented_are_short();
    let (supply, store) = supply_and_store(alloc, &inputs.hooked, &inputs.script)?;
    let flat = flatten(alloc, &inputs.hooked)?;
    let play = Play {
        code: inputs.hooked.module(),
        flat,
        script: &inputs.script,
        store,
    };
    Ok((supply, play))
}

/// Records the run within a number of turns from the instantiation of the instrumented module on, into a reducer.
pub(crate) fn record_play(
    alloc: Global,
    inputs: &HookedInputs,
    supply: &Supply,
    play: Play,
    turns: u64,
) -> Result<(Reducer, Outcome), PlayFault>
    requires { (run : OriginalRun) × IsRecordable run inputs.now supply.now
        × IsHookedPlay run.m run.store inputs.now play }
    ensures { (run : OriginalRun) → IsRecordable run inputs.now supply.now
        → IsHookedPlay run.m run.store inputs.now play.entry
        → IsRecordedInto (HasTakenFor inputs.now.imports MAX_TAPE_WEIGHT) (record_of run turns) result }
{
    instrumented_keep_indices();
    instrumented_are_runnable();
    instrumented_are_fitted();
    instrumented_are_instantiated();
    instrumented_meters_fit();
    instrumented_import_hooks();
    instrumented_have_stores();
    typed_store();
    let settings = RunSettings {
        imports: inputs.imports,
        meter: &inputs.meter,
        turns,
    };
    let sink = Reducer::new(alloc, inputs.imports, MAX_TAPE_WEIGHT);
    record_into(alloc, &inputs.hooked, supply, play, &settings, sink)
}
