// Laws of the definitions, each the contract of a function with an empty body.

ghost use Rattle.replay_run_spec.specs.Laws.{BoundsAreTested, EffectsAreTested, ItemsHoldHistories, ItemsShowProjections, JoinedChangesAreSame, ProjectionsRunAlong, TrapsChangeNothing};

/// The projection of a history is that of its first part, followed by that of the rest.
pub fn projections_run_along()
    ensures { ProjectionsRunAlong }
{}

/// The entries among the items of a run are its history, and those among the projected items are its projection.
pub fn items_show_projections()
    ensures held { ItemsHoldHistories }
    ensures shown { ItemsShowProjections }
{}

/// An instruction that traps changes nothing.
pub fn traps_change_nothing()
    ensures { TrapsChangeNothing }
{}

/// The plain tests decide whether stretches make exactly the effects of segments, and whether the steps of calls
/// are within the bound. Adjacent bytes that are joined make the same changes as before.
pub fn plain_tests_hold()
    ensures joined { JoinedChangesAreSame }
    ensures effects { EffectsAreTested }
    ensures bounds { BoundsAreTested }
{}
