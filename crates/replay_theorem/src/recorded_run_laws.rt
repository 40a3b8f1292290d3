// The laws of recorded runs, each the contract of a function; the statements are in `specs/RecordedRunLaws.antt`.

ghost use Rattle.replay_theorem.specs.RecordedRunLaws.{RecordedRunsAreReplayed, RunsAreRecorded, WeightsMeanMeters};

use crate::runs_are_replayed_from_logs;
use instrumented_run_laws::instrumented_runs_follow;
use record_replay_spec::instrumented_keep_indices;

/// The weights of an instrumented module's instructions, by defined function and number, are the meter under which its
/// run follows the original's.
pub fn weights_mean_meters()
    ensures { WeightsMeanMeters }
{
    instrumented_keep_indices();
}

/// If the run of an instrumented module has an outcome, the original's run has it in equally many turns; the log of
/// the instrumented run's hook calls is that of the original's run; and the replay module of the one tape of this log
/// shows the original's history and outcome.
pub fn recorded_runs_are_replayed()
    ensures { RecordedRunsAreReplayed }
{
    instrumented_runs_follow();
    runs_are_replayed_from_logs();
}

/// If the original's run has an outcome, the instrumented run has it in equally many turns, and its log is that of the
/// original's run, which is replayed from it.
pub fn runs_are_recorded()
    ensures { RunsAreRecorded }
{
    instrumented_runs_follow();
    runs_are_replayed_from_logs();
}
