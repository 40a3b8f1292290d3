// The tape that the run of a module needs.

ghost use Rattle.std.specs.Prelude.{◌≡◌, ◌≤◌, ◌⊎◌, List, IfErr, IfOk};
ghost use Rattle.wasm_syntax.specs.declared.limits.TheConstants.{MAX_TAPE_WEIGHT};
ghost use Rattle.wasm_syntax.specs.declared.modules.Module.{Module};
ghost use Rattle.host_script.specs.declared.scripts.Script as scripts;
ghost use Rattle.trace_model.specs.declared.events.Event.{Event};
ghost use Rattle.trace_model.specs.Weight.{tape_weight};
ghost use Rattle.history_spec.specs.Store.{Store};
ghost use Rattle.tape_laws.specs.CallLaws.{OriginalRun};
ghost use Rattle.trace_reduce.specs.Reducer.{HasTaken, imports_of, most_of};
ghost use Rattle.accepted_runs.specs.Runnable.{CanRun};
ghost use Rattle.r3_faults.specs.declared.faults.Fault.TheVariants.{Memory};
ghost use Rattle.r3_make.specs.Answers.{HasTakenBalanced, IsLightTape};
ghost use Rattle.r3_make.specs.Records.{AreHookedInputs, IsHookedPlay, IsOriginalModule, IsRecordable};
ghost use Rattle.r3_make.specs.Refusals.{IsUnmade};
ghost use Rattle.r3_make.specs.Tapes.{NeedsTape};

use crate::recorded_runs::{HookedInputs, hooked_inputs, hooked_play, record_play};
use accepted_runs::run_fault;
use history_spec::Outcome;
use host_play::Play;
use host_script::{Script, Supply};
use instrumented_module_laws::encoded_have_words;
use r3_faults::Fault;
use replay_laws::tape_from;
use replay_theorem::records_report_originals;
use std::alloc::Global;
use tape_laws::logs_are_balanced;
use trace_model::Tape;
use trace_reduce::{Reducer, ReducerFault};
use wasm_syntax::limits::MAX_TAPE_WEIGHT;
use wasm_validate::Checked;

/// The tape that a run needs, and the supply for the imports of its module.
#[derive(Drop)]
pub struct SuppliedTape {
    pub supply: Supply,
    pub tape: Tape,
}

/// The tape that the run of a module under a script needs, if the module links with the script and its run has an
/// outcome within the turns.
///
/// # Errors
///
/// The fault names the cause: the module does not link, the host cannot do what the script says, the run needs more
/// turns, or it needs a tape that weighs more than `MAX_TAPE_WEIGHT`. `Memory` if memory is out.
pub fn needed_tape(
    alloc: Global,
    checked: &Checked,
    script: Script,
    turns: u64,
) -> Result<SuppliedTape, Fault>
    requires original { IsOriginalModule checked.now }
    requires runnable { CanRun checked.now script }
    ensures needed { IfOk result (λ found.
        (store : Store) × NeedsTape checked.now script turns found.supply store found.tape) }
    ensures light { IfOk result (λ found. tape_weight found.tape ≤ MAX_TAPE_WEIGHT) }
    ensures cause { IfErr result (λ fault. (fault ≡ Memory) ⊎ IsUnmade checked.now script turns fault) }
{
    let inputs = hooked_inputs(alloc, checked, script)?;
    tape_of_inputs(alloc, &inputs, turns)
}

/// The tape that the run of an instrumented module shows to be needed.
fn tape_of_inputs(alloc: Global, inputs: &HookedInputs, turns: u64) -> Result<SuppliedTape, Fault>
    requires { (m : Module) × (script : scripts.Script) × AreHookedInputs m script inputs.now }
    ensures needed { (m : Module) (script : scripts.Script) → AreHookedInputs m script inputs.now
        → IfOk result (λ found. (store : Store) × NeedsTape m script turns found.supply store found.tape) }
    ensures light { IfOk result (λ found. tape_weight found.tape ≤ MAX_TAPE_WEIGHT) }
    ensures cause { (m : Module) (script : scripts.Script) → AreHookedInputs m script inputs.now
        → IfErr result (λ fault. (fault ≡ Memory) ⊎ IsUnmade m script turns fault) }
{
    encoded_have_words();
    let (supply, play) = hooked_play(alloc, inputs)?;
    let tape = tape_of_play(alloc, inputs, &supply, play, turns)?;
    Ok(SuppliedTape { supply, tape })
}

/// The tape that a run needs, by the run of the instrumented module, if the run has an outcome within the turns.
fn tape_of_play(
    alloc: Global,
    inputs: &HookedInputs,
    supply: &Supply,
    play: Play,
    turns: u64,
) -> Result<Tape, Fault>
    requires { (run : OriginalRun) × IsRecordable run inputs.now supply.now
        × IsHookedPlay run.m run.store inputs.now play }
    ensures needed { (run : OriginalRun) → IsRecordable run inputs.now supply.now
        → IsHookedPlay run.m run.store inputs.now play.entry
        → IfOk result (λ tape. (store : Store) × NeedsTape run.m run.script turns run.supply store tape) }
    ensures light { IfOk result (λ tape. tape_weight tape ≤ MAX_TAPE_WEIGHT) }
    ensures cause { (run : OriginalRun) → IsRecordable run inputs.now supply.now
        → IsHookedPlay run.m run.store inputs.now play.entry
        → IfErr result (λ fault. (fault ≡ Memory) ⊎ IsUnmade run.m run.script turns fault) }
{
    records_report_originals();
    logs_are_balanced();
    match record_play(alloc, inputs, supply, play, turns) {
        Ok((reducer, outcome)) => tape_of(reducer, inputs.imports, outcome),
        Err(fault) => Err(run_fault(fault, turns)),
    }
}

/// The tape of the log whose events a reducer has taken, of a module that imports this number of functions. The reducer
/// was made for that number and for the weight that the tape of a replay module may have.
pub(crate) fn tape_of(reducer: Reducer, imports: u32, outcome: Outcome) -> Result<Tape, Fault>
    requires balanced { HasTakenBalanced reducer imports outcome }
    requires imports { imports_of reducer ≡ imports }
    requires most { most_of reducer ≡ MAX_TAPE_WEIGHT }
    ensures { (taken : List Event) → HasTaken reducer taken
        → IsLightTape (record { imports = imports; events = taken; outcome = outcome }) result }
{
    match tape_from(reducer, outcome) {
        Ok(tape) => Ok(tape),
        Err(ReducerFault::Unbalanced { .. }) => unreachable!(),
        Err(ReducerFault::TooHeavy { weight }) => Err(Fault::TapeLimit { weight }),
        Err(ReducerFault::Memory) => Err(Fault::Memory),
    }
}
