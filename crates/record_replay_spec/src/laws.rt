// Laws of needed tapes, each the contract of a function; the statements are in `specs/Laws.antt`.

ghost use Rattle.record_replay_spec.specs.Laws.{KnownIsKept, NeededSegmentsAreKept, NeededTapeIsOne, TestedSegmentsAreNeeded};

/// What is known by a search of all observations is what is known one observation at a time.
pub fn known_is_kept()
    ensures { KnownIsKept }
{}

/// The segments that a run needs, by a search of all observations before each, are those by what is known one
/// observation at a time.
pub fn needed_segments_are_kept()
    ensures { NeededSegmentsAreKept }
{}

/// A run has at most one needed tape.
pub fn needed_tape_is_one()
    ensures { NeededTapeIsOne }
{}

/// Segments that pass the computable test are those that a run needs.
pub fn tested_segments_are_needed()
    ensures { TestedSegmentsAreNeeded }
{}
