// A law of the definitions, the contract of a function; the statement is in `specs/ShownStepLaws.antt`.

ghost use Rattle.record_replay_spec.specs.ShownStepLaws.{ShownStepsAreAnswered};

/// A store in which an instruction shows the same as in another answers what was observed of the other, but for what a
/// copy reads and a growth of the table finds.
pub fn shown_steps()
    ensures { ShownStepsAreAnswered }
{}
