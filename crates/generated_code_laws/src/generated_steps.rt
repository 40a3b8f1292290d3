// Laws on the generated functions of replay modules: how their steps lead on.

ghost use Rattle.generated_code_laws.specs.GeneratedStepLaws.{DispatchesReachArms, LeadsRunAlong, SelectorsCount};
ghost use Rattle.generated_code_laws.specs.PlayedCalls.{CallsArePlayed};

/// A run that leads from one place to another, and on to a third, leads from the first to the third.
pub fn leads_run_along()
    ensures { LeadsRunAlong }
{}

/// A dispatch reaches the selected arm, or a trap after the last arm, in a fixed number of steps; and the selectors of
/// generated functions select the group of a call, and the call within its group.
pub fn dispatches_reach_arms()
    ensures arms { DispatchesReachArms }
    ensures selectors { SelectorsCount }
{}

/// In a call of an import the generated functions reach the code of the segments that the plan has for this call, by
/// the number of the call, which they hold in a local and a parameter; whatever was called between.
pub fn calls_are_played()
    ensures { CallsArePlayed }
{
    dispatches_reach_arms();
}
