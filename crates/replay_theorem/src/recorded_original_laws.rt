// The law of records, as the contract of a function.

ghost use Rattle.replay_theorem.specs.RecordedOriginalLaws.{RecordsReportOriginals};

use crate::{recorded_runs_are_replayed, weights_mean_meters};
use instrumented_run_laws::instrumented_runs_follow;

/// A recorded log of the run of an instrumented module is the log of the original's run, if that has an outcome
/// within the turns; a fault of the script and spent turns are those of the original's run; and no hook call is out of
/// order.
pub fn records_report_originals()
    ensures { RecordsReportOriginals }
{
    weights_mean_meters();
    instrumented_runs_follow();
    recorded_runs_are_replayed();
}
