// Laws of hook calls, each the contract of a function; the statements are in `specs/CallLaws.antt`.

ghost use Rattle.tape_laws.specs.CallLaws.{HookCallsAreInOrder, HookCallsObserveRuns};

use crate::{laws_of_runs, laws_of_steps};
use record_replay_spec::{indices_are_renumbered, instrumented_keep_indices};

/// The hook calls of a run observe exactly what the run observes, as far as hooks report it.
pub fn hook_calls_observe_runs()
    ensures { HookCallsObserveRuns }
{
    laws_of_steps();
    laws_of_runs();
    instrumented_keep_indices();
}

/// No hook call of a run is out of order, whether the run ends or is cut short.
pub fn hook_calls_are_in_order()
    ensures { HookCallsAreInOrder }
{
    laws_of_steps();
    laws_of_runs();
    indices_are_renumbered();
    instrumented_keep_indices();
}
