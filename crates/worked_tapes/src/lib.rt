//! Worked needed tapes of small modules, and the runs of tapes, which the checker computes from the definitions.
#![tactic(auto)]

ghost use Rattle.worked_tapes.specs.Bounds.{WorkedBounds};
ghost use Rattle.worked_tapes.specs.NeededTapes.{WorkedTapes};
ghost use Rattle.worked_tapes.specs.Observed.{WorkedObservations};
ghost use Rattle.worked_tapes.specs.WrongTapes.{WrongTapes};

use record_replay_spec::{needed_tape_is_one, tested_segments_are_needed};

/// The runs of the example modules observe what is stated for them.
pub fn examples_have_their_observations()
    ensures { WorkedObservations }
{}

/// The runs of the example modules need the tapes that are stated for them, and these replay the runs.
pub fn examples_have_their_needed_tapes()
    ensures { WorkedTapes }
{
    tested_segments_are_needed();
}

/// Runs at the bounds of what is seen and known need the tapes that are stated for them, and these replay the runs.
pub fn bounds_have_their_needed_tapes()
    ensures { WorkedBounds }
{
    tested_segments_are_needed();
}

/// Tapes with a byte, a segment or an effect that is wrong, missing or too many are not needed, and their runs differ
/// or disagree as is stated.
pub fn wrong_tapes_differ()
    ensures { WrongTapes }
{
    needed_tape_is_one();
    tested_segments_are_needed();
}
