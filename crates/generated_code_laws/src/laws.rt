// The laws of replay modules.

ghost use Rattle.generated_code_laws.specs.Below.{LawsOfReplays};
ghost use Rattle.generated_code_laws.specs.Laws.{ReplaysAreWithinBound, ReplaysBegin, ReplaysMakeEffects, ReplaysShowHistories, ReplaysShowOutcomes};

use crate::{dispatches_reach_arms, effects_are_made, leads_go_on, leads_run_along, steps_lead_on};
use record_replay_spec::{observed_steps, own_answers};
use replay_module_laws::replay_modules_have_code;
use replay_run_spec::{items_show_projections, projections_run_along};
use type_safety::typed_store;

/// The laws of the crates below on steps, effects and starts that the laws of replay modules use.
fn laws_of_replays()
    ensures { LawsOfReplays }
{
    dispatches_reach_arms();
    effects_are_made();
    items_show_projections();
    leads_go_on();
    leads_run_along();
    observed_steps();
    own_answers();
    projections_run_along();
    replay_modules_have_code();
    steps_lead_on();
    typed_store();
}

/// The replay module of a tape that fits is instantiated without a fault.
pub fn replays_begin()
    ensures { ReplaysBegin }
{
    replay_modules_have_code();
}

/// The run of the replay module shows each history of the tape's run, or the histories before if that run disagrees at
/// last; and if the tape's run has an outcome, it has one too, and shows that history and that outcome. Then, if each
/// effect of the tape that gives a size gives a greater one, the changes of functions outside the original are exactly
/// the effects of the tape's first segments, one stretch for each segment.
pub fn replays_show_runs()
    ensures histories { ReplaysShowHistories }
    ensures outcomes { ReplaysShowOutcomes }
    ensures effects { ReplaysMakeEffects }
{
    laws_of_replays();
}

/// If both runs are over, the functions in the place of an import and of its groups have made in each call of that
/// import, without the steps of calls within it, at most 32 steps and 8 for each unit of weight of the call's
/// segments; and at most 259 steps of `block`, and one for each 256 calls of that import in the tape.
pub fn replays_are_within_bound()
    ensures { ReplaysAreWithinBound }
{
    laws_of_replays();
}
