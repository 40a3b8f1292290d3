// Laws of hook calls, each the contract of a function; the statements are in `specs/TopEnters.antt`.

ghost use Rattle.rest_laws.specs.TopEnters.{LogsAreThere, LogsKnowWhatIsKnown, TopCallsAreReported};

use crate::known_before_is_kept;
use record_replay_spec::{indices_are_renumbered, instrumented_keep_indices};
use tape_laws::{laws_of_runs, laws_of_steps};

/// Hook calls have a state of the log before a top-level call exactly where the call's number is below the number of
/// such calls that they report.
pub fn logs_are_there()
    ensures { LogsAreThere }
{}

/// The hook calls of a run, which may be cut short, report as many top-level calls as its history has.
pub fn top_calls_are_reported()
    ensures { TopCallsAreReported }
{
    laws_of_steps();
    laws_of_runs();
    instrumented_keep_indices();
    indices_are_renumbered();
}

/// If something is known before a top-level call of a run, the run's hook calls report this call, and there the log
/// knows just that, with the functions of table entries renumbered.
pub fn logs_know_what_is_known()
    ensures { LogsKnowWhatIsKnown }
{
    known_before_is_kept();
    laws_of_steps();
    laws_of_runs();
    instrumented_keep_indices();
    indices_are_renumbered();
}
