// The laws of logs, each the contract of a function; the statements are in `specs/LogLaws.antt` and
// `specs/LogMeaning.antt`.

ghost use Rattle.tape_laws.specs.LogLaws.{LogsAreBalanced, LogsGiveNeededTapes};
ghost use Rattle.tape_laws.specs.LogMeaning.{EventsAreDifferences, LogsAreDifferences};

use crate::{laws_of_runs, laws_of_steps, run_has_one_needed_tape};
use record_replay_spec::{indices_are_renumbered, instrumented_keep_indices, known_is_kept};

/// A run that has an outcome has a log of its hook calls, and a tape is the tape of that log if and only if it is the
/// one that the run needs.
pub fn logs_give_needed_tapes()
    ensures { LogsGiveNeededTapes }
{
    laws_of_steps();
    laws_of_runs();
    indices_are_renumbered();
    instrumented_keep_indices();
}

/// The log of a run that has an outcome is balanced: its events, followed by the outcome, are in order.
pub fn logs_are_balanced()
    ensures { LogsAreBalanced }
{
    laws_of_steps();
    laws_of_runs();
    indices_are_renumbered();
    instrumented_keep_indices();
    run_has_one_needed_tape();
}

/// The events of the observations of each hook call of a run are exactly what these find other than what is known, by a
/// search of all that the calls before it observed: bytes, sizes, table entries and globals.
pub fn events_are_differences()
    ensures { EventsAreDifferences }
{
    laws_of_steps();
    laws_of_runs();
    indices_are_renumbered();
    instrumented_keep_indices();
    known_is_kept();
}

/// Each run, whether it ends or is cut short, has a log. The events of each of its hook calls are what the observations
/// find other than what is known, by a search of all calls before it; the event of the call itself; and a growth, if
/// control was at the host and the memory has another size than before.
pub fn logs_are_differences()
    ensures { LogsAreDifferences }
{
    laws_of_steps();
    laws_of_runs();
    indices_are_renumbered();
    instrumented_keep_indices();
    known_is_kept();
}
