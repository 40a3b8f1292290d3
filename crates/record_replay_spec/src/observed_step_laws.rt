// Laws of observed steps, each the contract of a function; the statements are in `specs/ObservedStepLaws.antt`.

ghost use Rattle.record_replay_spec.specs.ObservedStepLaws.{ChangesComeLast, ChangesKeepKinds, KindsCompose, ObservedStepsAreAlike, StepsChangeAsObserved, StoresAnswerThemselves};

/// An instruction does the same in two stores that answer alike what it observes, and changes each as observed.
pub fn observed_steps()
    ensures { ObservedStepsAreAlike }
{}

/// A store answers what is observed of it, and only the last observation may change it.
pub fn own_answers()
    ensures answers { StoresAnswerThemselves }
    ensures order { ChangesComeLast }
{}

/// An instruction changes a store as it observes.
pub fn own_steps()
    ensures { StepsChangeAsObserved }
{
    observed_steps();
    own_answers();
    kinds_of_stores();
}

/// Possible changes leave a store of its kind, and kinds compose.
pub fn kinds_of_stores()
    ensures kept { ChangesKeepKinds }
    ensures composed { KindsCompose }
{}
