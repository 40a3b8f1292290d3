// The file of the log of the run of a module in the hooked form under a script.

ghost use Rattle.std.specs.Prelude.{◌≡◌, ◌⊎◌, Ok, IfErr, IfOk};
ghost use Rattle.history_spec.specs.Instantiation.{instantiate};
ghost use Rattle.type_safety.specs.Stores.{IsStore};
ghost use Rattle.accepted_runs.specs.Linked.{IsLinked};
ghost use Rattle.trace_bytes.specs.declared.tags.TheConstants.{VERSION_2};
ghost use Rattle.trace_bytes.specs.Spelling.{log_bytes};
ghost use Rattle.trace_bytes.specs.Spelled.{FitEvents};
ghost use Rattle.hook_insert.specs.Forms.{form_of};
ghost use Rattle.wasm_flat.specs.Bounds.{IsBound};
ghost use Rattle.wasm_flat.specs.FlatCode.{flat_of};
ghost use Rattle.host_play.specs.HookedResults.{HasHooksAfter};
ghost use Rattle.run_recorder.specs.Records.{IsLog};
ghost use Rattle.r3_faults.specs.declared.faults.Fault.TheVariants.{Memory};
ghost use Rattle.r3_record.specs.LogFiles.{CanBeRecorded, HasLogFile, HasNoLogFile, IsRefusal, run_of};

use accepted_runs::{run_fault, supply_and_store};
use hook_insert::HookedForm;
use host_play::{Play, RunSettings};
use host_script::{Script, Supply};
use r3_faults::Fault;
use replay_theorem::logs_have_spellings;
use run_recorder::record_log;
use std::alloc::Global;
use trace_bytes::write_log;
use trace_model::Log;
use wasm_flat::Meter;
use wasm_flatten::flatten;
use wasm_store::Store;
use wasm_validate::Checked;

/// A module in the hooked form under a script that fits it, and the limit of its run's turns.
#[derive(Clone, Copy)]
pub(crate) struct HookedRun<'a> {
    pub(crate) checked: &'a Checked,
    pub(crate) form: HookedForm,
    pub(crate) script: &'a Script,
    pub(crate) turns: u64,
}

/// The file of the log of a run.
pub(crate) fn run_file(alloc: Global, run: HookedRun<'_>) -> Result<Vec<u8>, Fault>
    requires { CanBeRecorded run.checked.now (form_of run.form) run.script.now }
    ensures cause { IfErr result (λ fault. (fault ≡ Memory)
        ⊎ HasNoLogFile run.entry.checked.now (form_of run.entry.form) run.entry.script.now run.entry.turns fault) }
    ensures printed { IfOk result (λ bytes.
        HasLogFile run.entry.checked.now (form_of run.entry.form) run.entry.script.now run.entry.turns bytes.items) }
{
    let (supply, store) = supply_and_store(alloc, run.checked, run.script)?;
    log_from(alloc, run, &supply, store)
}

/// The file of the log of the run from its store.
fn log_from(
    alloc: Global,
    run: HookedRun<'_>,
    supply: &Supply,
    store: Store,
) -> Result<Vec<u8>, Fault>
    requires run { CanBeRecorded run.checked.now (form_of run.form) run.script.now }
    requires typed { IsStore run.checked.now store }
    requires linked { IsLinked run.checked.now run.script.now supply.now store }
    ensures cause { IfErr result (λ fault. (fault ≡ Memory)
        ⊎ HasNoLogFile run.entry.checked.now (form_of run.entry.form) run.entry.script.now run.entry.turns fault) }
    ensures printed { IfOk result (λ bytes.
        HasLogFile run.entry.checked.now (form_of run.entry.form) run.entry.script.now run.entry.turns bytes.items) }
{
    logs_have_spellings();
    let _valid = run.checked.module();
    let log = recorded_log(alloc, run, supply, store)?;
    file_bytes(alloc, run.form, &log)
}

/// The log of the run from its store.
fn recorded_log(
    alloc: Global,
    run: HookedRun<'_>,
    supply: &Supply,
    store: Store,
) -> Result<Log, Fault>
    requires hooked { HasHooksAfter run.checked.now run.form.imports }
    requires run { CanBeRecorded run.checked.now (form_of run.form) run.script.now }
    requires typed { IsStore run.checked.now store }
    requires opens { instantiate run.checked.now supply.now ≡ Ok store }
    ensures cause { IfErr result (λ fault. (fault ≡ Memory)
        ⊎ IsRefusal (run_of run.entry.checked.now (form_of run.entry.form) run.entry.script.now store run.entry.turns)
        run.entry.turns fault) }
    ensures logged { IfOk result (λ log.
        IsLog (run_of run.entry.checked.now (form_of run.entry.form) run.entry.script.now store run.entry.turns)
        log.outcome log) }
{
    let play = Play {
        code: run.checked.module(),
        flat: flatten(alloc, run.checked)?,
        script: run.script,
        store,
    };
    log_of_play(alloc, run, supply, play)
}

/// The log of the run from the instantiation on.
fn log_of_play(alloc: Global, run: HookedRun<'_>, supply: &Supply, play: Play) -> Result<Log, Fault>
    requires hooked { HasHooksAfter run.checked.now run.form.imports }
    requires run { CanBeRecorded run.checked.now (form_of run.form) play.script.now }
    requires typed { IsStore run.checked.now play.store }
    requires opens { instantiate run.checked.now supply.now ≡ Ok play.store }
    requires code { play.code.now ≡ run.checked.now }
    requires flat { play.flat ≡ flat_of run.checked.now }
    requires bound { IsBound play.flat }
    ensures cause { IfErr result (λ fault. (fault ≡ Memory)
        ⊎ IsRefusal (run_of run.entry.checked.now (form_of run.entry.form) play.entry.script.now play.entry.store
        run.entry.turns) run.entry.turns fault) }
    ensures logged { IfOk result (λ log.
        IsLog (run_of run.entry.checked.now (form_of run.entry.form) play.entry.script.now play.entry.store
        run.entry.turns) log.outcome log) }
{
    let meter = Meter::all_one();
    let settings = RunSettings {
        imports: run.form.imports,
        meter: &meter,
        turns: run.turns,
    };
    match record_log(alloc, run.checked, supply, play, &settings) {
        Ok(log) => Ok(log),
        Err(fault) => Err(run_fault(fault, run.turns)),
    }
}

/// The file of a log, with the digest that the module declares.
fn file_bytes(alloc: Global, form: HookedForm, log: &Log) -> Result<Vec<u8>, Fault>
    requires { FitEvents VERSION_2 log.now.events }
    ensures written { IfOk result (λ bytes. bytes.items ≡ log_bytes VERSION_2 form.digest log.now) }
    ensures cause { IfErr result (λ fault. fault ≡ Memory) }
{
    Ok(write_log(alloc, &form.digest, log)?)
}
