// The tape that a run needs, with what is known before a top-level call of the run.

ghost use Rattle.std.specs.Prelude.{◌≡◌, ◌≤◌, ◌<◌, ◌⊎◌, ℕ, List, IfErr, IfOk, IfNone};
ghost use Rattle.wasm_syntax.specs.declared.limits.TheConstants.{MAX_TAPE_WEIGHT};
ghost use Rattle.trace_model.specs.declared.events.Event.{Event};
ghost use Rattle.trace_reduce.specs.Reducer.{HasTaken, imports_of, most_of};
ghost use Rattle.tape_laws.specs.CallLaws.{OriginalRun};
ghost use Rattle.r3_faults.specs.declared.faults.Fault.TheVariants.{Memory, NoCall};
ghost use Rattle.r3_make.specs.Answers.{HasTakenBalanced};
ghost use Rattle.r3_make.specs.Records.{IsHookedPlay, IsRecordable};
ghost use Rattle.r3_make.specs.FrozenTapes.{IsFrozenTape};
ghost use Rattle.r3_make.specs.RestRefusals.{HasNoRest};
ghost use Rattle.r3_make.specs.TapesAtCalls.{IsTapeAt};

use crate::frozen_runs::{FrozenRun, frozen_run};
use crate::recorded_runs::HookedInputs;
use crate::tapes::tape_of;
use accepted_runs::run_fault;
use hook_insert::instrumented_meters_fit;
use host_play::Play;
use host_script::Supply;
use instrumented_run_laws::instrumented_runs_follow;
use r3_faults::Fault;
use recorder::Frozen;
use replay_theorem::records_report_originals;
use rest_laws::{
    calls_are_of_runs, known_before_is_kept, logs_know_what_is_known, rests_are_there,
    top_calls_are_reported,
};
use std::alloc::Global;
use tape_laws::logs_are_balanced;
use trace_model::Tape;

/// The tape that the run of a module needs, and what is known before the top-level call of a number, if the run has an
/// outcome within the turns.
///
/// # Errors
///
/// `Script` if the host cannot do what the script says, `Spent` if the run needs more turns, `NoCall` if it has too few
/// top-level calls, `TapeLimit` if its tape weighs more than `MAX_TAPE_WEIGHT`. `Memory` if memory is out.
pub(crate) fn frozen_tape(
    alloc: Global,
    inputs: &HookedInputs,
    supply: &Supply,
    play: Play,
    turns: u64,
    number: u32,
) -> Result<(Tape, Frozen), Fault>
    requires { (run : OriginalRun) × IsRecordable run inputs.now supply.now
        × IsHookedPlay run.m run.store inputs.now play }
    ensures frozen { (run : OriginalRun) → IsRecordable run inputs.now supply.now
        → IsHookedPlay run.m run.store inputs.now play.entry
        → IfOk result (λ found. IsFrozenTape run turns number found.0 found.1) }
    ensures cause { (run : OriginalRun) → IsRecordable run inputs.now supply.now
        → IsHookedPlay run.m run.store inputs.now play.entry
        → IfErr result (λ fault. (fault ≡ Memory) ⊎ HasNoRest run.m run.script turns number fault) }
{
    records_report_originals();
    instrumented_runs_follow();
    instrumented_meters_fit();
    logs_are_balanced();
    calls_are_of_runs();
    known_before_is_kept();
    logs_know_what_is_known();
    rests_are_there();
    top_calls_are_reported();
    match frozen_run(alloc, inputs, supply, play, turns, number) {
        Ok(played) => tape_at(played, inputs.imports, number),
        Err(fault) => Err(run_fault(fault, turns)),
    }
}

/// The tape of the log whose events a reducer has taken, and what was frozen before the top-level call of a number, of
/// a module that imports this number of functions.
fn tape_at(played: FrozenRun, imports: u32, number: u32) -> Result<(Tape, Frozen), Fault>
    requires balanced { HasTakenBalanced played.reducer imports played.outcome }
    requires imports { imports_of played.reducer ≡ imports }
    requires most { most_of played.reducer ≡ MAX_TAPE_WEIGHT }
    requires frozen { IfNone played.frozen (played.calls ≤ number) }
    ensures { (taken : List Event) → HasTaken played.reducer taken
        → IsTapeAt played (record { imports = imports; events = taken; outcome = played.outcome }) number result }
{
    let FrozenRun {
        reducer,
        outcome,
        calls,
        frozen,
    } = played;
    if calls <= u64::from(number) {
        return Err(Fault::NoCall {
            k: u64::from(number),
            calls,
        });
    }
    let Some(frozen) = frozen else {
        unreachable!();
    };
    let tape = tape_of(reducer, imports, outcome)?;
    Ok((tape, frozen))
}
