// The law of instrumented runs, the contract of a function; the statement is in `specs/Laws.antt`.

ghost use Rattle.instrumented_run_laws.specs.Laws.{InstrumentedRunsFollow};

use history_spec::{runs_have_one_result_at_most, runs_have_some_result};
use instrumented_module_laws::{instrumented_are_instantiated, instrumented_are_supplied};
use record_replay_spec::{
    bodies_are_instrumented, hooks_are_answered, indices_are_renumbered, instrumented_keep_indices,
};
use tape_laws::{hook_calls_are_in_order, laws_of_runs, laws_of_steps};

/// The run of an instrumented module, which links with what the original links with, follows the original's: within
/// each budget it ends with the same outcome or the same fault in the same number of turns, or both spend their turns;
/// it makes the hook calls of the original's run; and none of these is out of order, whether the run ends or is cut
/// short.
pub fn instrumented_runs_follow()
    ensures { InstrumentedRunsFollow }
{
    laws_of_steps();
    laws_of_runs();
    indices_are_renumbered();
    hooks_are_answered();
    bodies_are_instrumented();
    instrumented_keep_indices();
    hook_calls_are_in_order();
    instrumented_are_supplied();
    instrumented_are_instantiated();
    runs_have_one_result_at_most();
    runs_have_some_result();
}
