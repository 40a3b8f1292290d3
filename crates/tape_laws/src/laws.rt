// The laws of tapes, each the contract of a function; the statements are in `specs/`.

ghost use Rattle.tape_laws.specs.Below.{LawsOfRuns, LawsOfSteps};
ghost use Rattle.tape_laws.specs.Dropped.{NothingCanBeDropped, OtherRunsNeverHaveTheHistory};
ghost use Rattle.tape_laws.specs.KnownValues.{KnownValuesAreTyped};
ghost use Rattle.tape_laws.specs.Laws.{NeededTapesReplayRuns};
ghost use Rattle.tape_laws.specs.NeededTape.{NeededTapesFit, RunsHaveOneNeededTape};
ghost use Rattle.tape_laws.specs.RealReads.{ReadsAreReal, ReadsAreRealAfterSettling, RunsReadWhatIsThere};

use record_replay_spec::{
    needed_segments_are_kept, needed_tape_is_one, observed_steps, own_answers, own_steps,
    shown_steps,
};
use type_safety::{rules_hold, safe_steps, typed_code, typed_store};

/// The laws of the crates below on steps: a step does the same in stores that answer alike, and is safe.
pub fn laws_of_steps()
    ensures { LawsOfSteps }
{
    observed_steps();
    own_answers();
    own_steps();
    rules_hold();
    safe_steps();
}

/// The laws of the crates below on runs: modules that can be run are typed, and their runs are safe.
pub fn laws_of_runs()
    ensures { LawsOfRuns }
{
    needed_segments_are_kept();
    typed_code();
    typed_store();
    safe_steps();
}

/// The run of the tape that a scripted run needs never disagrees, and has exactly the run's history and outcome.
pub fn needed_tape_replays()
    ensures { NeededTapesReplayRuns }
{
    laws_of_steps();
    laws_of_runs();
}

/// What a window reads first is what the store holds where the window begins, and the sizes that it finds are the
/// store's: at a configuration within the module, and if results are delivered to the module.
pub fn reads_are_real()
    ensures configurations { ReadsAreReal }
    ensures settling { ReadsAreRealAfterSettling }
{
    laws_of_steps();
}

/// At each step at which a scripted run goes on, what is known from the observations so far fits the store, and the
/// rest of a window reads first what the store holds.
pub fn runs_read_what_is_there()
    ensures { RunsReadWhatIsThere }
{
    laws_of_steps();
    laws_of_runs();
}

/// At each step at which a scripted run goes on, what is known from the observations so far is typed, and immutable
/// globals are known with the values that they have where the run begins.
pub fn known_values_are_typed()
    ensures { KnownValuesAreTyped }
{
    laws_of_steps();
    laws_of_runs();
}

/// A needed tape fits the module.
pub fn needed_tape_fits()
    ensures { NeededTapesFit }
{
    laws_of_steps();
    laws_of_runs();
}

/// A run with an outcome has exactly one needed tape. This tape fits the module, and its run never disagrees and has
/// exactly the run's history and outcome.
pub fn run_has_one_needed_tape()
    ensures { RunsHaveOneNeededTape }
{
    laws_of_steps();
    laws_of_runs();
    needed_tape_is_one();
}

/// Nothing can be removed from the tape that a scripted run of a module of the form Core needs: the run of what is left
/// disagrees before it has the run's history, or has another. A byte that a copy reads first is not removed.
pub fn nothing_can_be_dropped()
    ensures { NothingCanBeDropped }
{
    laws_of_steps();
    laws_of_runs();
    shown_steps();
}

/// A tape's run that differs from a history has that history after no number of steps.
pub fn other_runs_differ()
    ensures { OtherRunsNeverHaveTheHistory }
{}
