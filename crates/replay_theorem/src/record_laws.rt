// The laws of recorded runs, as the contracts of functions.

ghost use Rattle.replay_theorem.specs.RecordLaws.{LogsHaveSpellings, RecordsAreOne};

use history_spec::runs_have_one_result_at_most;
use type_safety::{rules_hold, safe_steps, typed_code};

/// The log of the run of a module in the hooked form has a spelling.
pub fn logs_have_spellings()
    ensures { LogsHaveSpellings }
{
    typed_code();
    rules_hold();
    safe_steps();
}

/// A recorded run has at most one answer, but for a lack of memory: a call out of order comes before the run is over
/// or its turns are spent, and it is the same call after any number of steps.
pub fn records_are_one()
    ensures { RecordsAreOne }
{
    runs_have_one_result_at_most();
}
