// The laws of runs and replay modules, each the contract of a function; the statements are in `specs/Laws.antt`.

ghost use Rattle.replay_theorem.specs.Laws.{NeededTapesArePlayable, NeededTapesGrowSizes, NeededTapesWriteBytes, RunsAreReplayed, RunsAreReplayedFromLogs};

use generated_code_laws::replays_show_runs;
use replay_run_spec::items_show_projections;
use tape_laws::{
    laws_of_runs, laws_of_steps, logs_give_needed_tapes, needed_tape_fits, run_has_one_needed_tape,
};
use type_safety::typed_store;

/// The bytes that the effects of a needed tape write are bytes: a needed byte is one that the run reads.
pub fn needed_tapes_write_bytes()
    ensures { NeededTapesWriteBytes }
{
    laws_of_steps();
    laws_of_runs();
}

/// A replay module can be made of a needed tape with at most the allowed weight.
pub fn needed_tapes_are_playable()
    ensures { NeededTapesArePlayable }
{
    needed_tape_fits();
    needed_tapes_write_bytes();
    typed_store();
}

/// In the run of a needed tape each effect that gives a size of the memory or the table gives a greater one than the
/// present size.
pub fn needed_tapes_grow_sizes()
    ensures { NeededTapesGrowSizes }
{
    laws_of_steps();
    laws_of_runs();
}

/// A run that has an outcome has exactly one needed tape; and if this tape has at most the allowed weight, the run of
/// its replay module shows exactly the run's history and outcome, and makes exactly the tape's effects.
pub fn runs_are_replayed()
    ensures { RunsAreReplayed }
{
    items_show_projections();
    run_has_one_needed_tape();
    needed_tapes_are_playable();
    needed_tapes_grow_sizes();
    replays_show_runs();
}

/// The log of the hook calls of a run has exactly one tape, the one that the run needs, whose replay module shows the
/// run.
pub fn runs_are_replayed_from_logs()
    ensures { RunsAreReplayedFromLogs }
{
    logs_give_needed_tapes();
    runs_are_replayed();
}
