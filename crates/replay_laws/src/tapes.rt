// The tape of a log: if the log is that of a run, the tape is the one that the run needs.

ghost use Rattle.std.specs.Prelude.{◌≡◌, ℕ, List, Err, IfOk};
ghost use Rattle.base.specs.declared.outcomes.Outcome.{Outcome as Ends};
ghost use Rattle.trace_model.specs.declared.events.Event.{Event};
ghost use Rattle.trace_reduce.specs.Answers.{IsAnswer, IsReduction};
ghost use Rattle.trace_reduce.specs.Reducer.{HasTaken, imports_of, most_of};
ghost use Rattle.trace_reduce.specs.declared.faults.ReduceFault.TheVariants as faults;
ghost use Rattle.trace_reduce.specs.declared.faults.ReducerFault.TheVariants.{Unbalanced};
ghost use Rattle.tape_laws.specs.CallLaws.{OriginalRun};
ghost use Rattle.replay_laws.specs.Tapes.{HasLog, HasNothingToSpareInRuns, IsTapeOfRuns};

use base::Outcome;
use std::alloc::Global;
use tape_laws::{
    logs_are_balanced, logs_give_needed_tapes, nothing_can_be_dropped, run_has_one_needed_tape,
};
use trace_model::{Log, Tape};
use trace_reduce::{ReduceFault, Reducer, ReducerFault, reduce};

/// The tape of a log, as `reduce` makes it. If a run has this log, the tape is the one that the run needs, nothing can
/// be removed from it, and the log is balanced.
///
/// # Errors
/// The first event that is out of order, or the outcome; or if an allocation failed.
pub fn tape_of(alloc: Global, log: &Log) -> Result<Tape, ReduceFault>
    ensures answer { IsReduction log.now result }
    ensures needed { IfOk result (IsTapeOfRuns log.now) }
    ensures spare { IfOk result (HasNothingToSpareInRuns log.now) }
    ensures balanced { (run : OriginalRun) (count : ℕ) (ends : Ends) (event : ℕ) → HasLog run count ends log.now
        → result ≡ Err (faults.Unbalanced event) → ⊥ }
{
    logs_give_needed_tapes();
    logs_are_balanced();
    run_has_one_needed_tape();
    nothing_can_be_dropped();
    reduce(alloc, log)
}

/// The tape of the log of the events that a reducer has taken, for a run with this outcome. If a run has this log, the
/// tape is the one that the run needs, nothing can be removed from it, and the log is balanced.
///
/// # Errors
/// The first event that is out of order, or the outcome; the weight of the tape, if it is above the reducer's limit;
/// or if an allocation failed.
pub fn tape_from(reducer: Reducer, outcome: Outcome) -> Result<Tape, ReducerFault>
    ensures answer { (taken : List Event) → HasTaken reducer taken
        → IsAnswer (most_of reducer) (record { imports = imports_of reducer; events = taken; outcome = outcome })
        result }
    ensures needed { (taken : List Event) → HasTaken reducer taken
        → IfOk result (IsTapeOfRuns (record { imports = imports_of reducer; events = taken; outcome = outcome })) }
    ensures spare { (taken : List Event) → HasTaken reducer taken
        → IfOk result
        (HasNothingToSpareInRuns (record { imports = imports_of reducer; events = taken; outcome = outcome })) }
    ensures balanced { (taken : List Event) → HasTaken reducer taken
        → (run : OriginalRun) (count : ℕ) (ends : Ends) (event : ℕ)
        → HasLog run count ends (record { imports = imports_of reducer; events = taken; outcome = outcome })
        → result ≡ Err (Unbalanced event) → ⊥ }
{
    logs_give_needed_tapes();
    logs_are_balanced();
    run_has_one_needed_tape();
    nothing_can_be_dropped();
    reducer.finish(outcome)
}
