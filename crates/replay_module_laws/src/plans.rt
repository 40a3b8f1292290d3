// The plan of a tape: a law about the definition, whose statement is in `specs/PlanLaws.antt`.

ghost use Rattle.replay_module_laws.specs.PlanLaws.{PlansHaveSegments};

/// The plan of a tape that fits the module has each segment of the tape once, and leaves none out; the segments of each
/// activation are in order, and so are the calls of each import.
pub fn plans_have_segments()
    ensures { PlansHaveSegments }
{}
