//! Laws about the plan of a tape and the steps of calls, whose definitions read the tape and the run from their ends:
//! what these are in the order of the tape and of the run. The statements are in `specs/`.
#![tactic(auto)]

ghost use Rattle.plan_laws.specs.Laws.{PlansAreOwned, StepsAreOwned};
ghost use Rattle.plan_laws.specs.WorkedOwners.{WorkedOwners};

/// The plan of a tape that fits the module has, for the host's own work and for each call of each import, exactly the
/// segments that this activation owns when the tape is read from its beginning on.
pub fn plans_are_owned()
    ensures { PlansAreOwned }
{}

/// The steps that functions outside the original make in each call of each import are exactly those that the call owns
/// when the run is read from its beginning on. This holds for any items.
pub fn steps_are_owned()
    ensures { StepsAreOwned }
{}

/// The owners of the segments and the plan of a tape with calls of imports within another are as stated, and so are the
/// steps of the calls in a run.
pub fn worked_owners_hold()
    ensures { WorkedOwners }
{}
