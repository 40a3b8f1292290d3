//! Worked cases of hooks, which the checker computes from the definitions.
#![tactic(auto)]

ghost use Rattle.worked_hooks.specs.Calls.{HookCallExamples};
ghost use Rattle.worked_hooks.specs.Instrumented.{InstrumentedExamples};
ghost use Rattle.worked_hooks.specs.WorkedRecordings.{WorkedRecordings};

use record_replay_spec::tested_tapes_are_of_logs;
use worked_tapes::examples_have_their_needed_tapes;

/// The example modules have the stated instrumented modules, that of two answers byte for byte. They make the stated
/// hook calls, which are those of the originals' runs, in order; damaged ones are out of order as stated.
pub fn examples_are_instrumented()
    ensures instrumented { InstrumentedExamples }
    ensures calls { HookCallExamples }
{}

/// The worked runs take the turns of the originals and have the stated logs; the tapes of these logs are stated, and
/// they are those that the originals' runs need, for the runs for which this is stated.
pub fn worked_runs_are_recorded()
    ensures { WorkedRecordings }
{
    tested_tapes_are_of_logs();
    examples_have_their_needed_tapes();
}
