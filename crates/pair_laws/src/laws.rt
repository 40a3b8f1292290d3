// The laws, each the contract of a function; the statements are in `specs/`.

ghost use Rattle.pair_laws.specs.Laws.{FunctionsKeepTheirTypes, LinkedOutcomesFollow, LinkedRunsFollow};

use instance_laws::{bodies_are_renamed, outcomes_follow, runs_follow};

/// In the run of a pair without a fault, each function of a module has under its number the type that it has in the
/// module, whether it is the host's, the module's own or the other module's. Both modules have fewer than 2^32 types
/// together.
pub fn functions_keep_their_types()
    ensures { FunctionsKeepTheirTypes }
{}

/// The linked module of a pair realises the run of the pair, for every pair. If both modules are valid and the pair has
/// no fault, the run of the linked module under a script starts as that of the pair does, or does not link for the same
/// fault.
pub fn linked_runs_follow()
    ensures { LinkedRunsFollow }
{
    bodies_are_renamed();
    runs_follow();
}

/// The linked module of two valid modules whose pair has no fault has the outcomes, the faults and the spent turns of
/// the pair, or does not link for the same fault.
pub fn linked_outcomes_follow()
    ensures { LinkedOutcomesFollow }
{
    outcomes_follow();
    linked_runs_follow();
}
