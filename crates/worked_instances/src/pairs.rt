// Linked modules.

ghost use Rattle.worked_instances.specs.PairHistories.{WorkedPairs};
ghost use Rattle.worked_instances.specs.LinkedModules.{WorkedLinked};
ghost use Rattle.worked_instances.specs.RefusedPairs.{WorkedFaults};

/// The runs of the example pairs have the histories that are stated for them and for each of their modules, and so have
/// the runs of their linked modules.
pub fn pairs_have_their_histories()
    ensures { WorkedPairs }
{}

/// The example pairs have the linked modules that are stated for them.
pub fn linked_modules_are_these()
    ensures { WorkedLinked }
{}

/// The example pairs that do not link have the faults that are stated for them.
pub fn refused_pairs_have_their_faults()
    ensures { WorkedFaults }
{}
