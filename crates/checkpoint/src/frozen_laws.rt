// The law of frozen states; its statement is in `specs/FrozenLaws.antt`.

ghost use Rattle.checkpoint.specs.FrozenLaws.{FrozenStatesAreKnown};

use record_replay_spec::indices_are_renumbered;

/// What a recorder of the instrumented module has frozen where something is known has just the known state, with the
/// functions of the original.
pub fn frozen_states_are_known()
    ensures { FrozenStatesAreKnown }
{
    indices_are_renumbered();
}
