// The laws, each the contract of a function; the statements are in `specs/`.

ghost use Rattle.rest_theorem.specs.Cuts.{CutsAreConstant, CutsArePlayable};
ghost use Rattle.rest_theorem.specs.Laws.{RestsAreReplayed};
ghost use Rattle.rest_theorem.specs.States.{RestsAreReplayedFromStates};

use generated_code_laws::replays_show_runs;
use replay_module_laws::replay_modules_stand;
use rest_laws::{
    cut_tapes_replay_rests, cuts_are_last, cuts_are_light, cuts_fit, known_stores_are_typed,
};
use state_laws::{
    known_states_are_of_stores, known_states_open, state_modules_are_valid,
    state_modules_have_code, stores_have_states,
};

/// A cut has constants alone if its tape has.
pub fn cuts_are_constant()
    ensures { CutsAreConstant }
{
    cuts_are_last();
}

/// If a replay module can be made from a tape, one can be made from its cut, for each other module with the same code.
pub fn cuts_are_playable()
    ensures { CutsArePlayable }
{
    cuts_are_last();
    cuts_are_light();
    cuts_fit();
}

/// The replay module of the cut of a needed tape at a top-level call, for a module with the same code that begins with
/// what is known before the call, shows exactly the rest of the run's history, and the run's outcome.
pub fn rests_are_replayed()
    ensures { RestsAreReplayed }
{
    cut_tapes_replay_rests();
    cuts_are_playable();
    replays_show_runs();
}

/// The module that begins with what is known before a top-level call, by the cut of the needed tape there, has a replay
/// module that shows exactly the rest of the run's history, and the run's outcome.
pub fn rests_are_replayed_from_states()
    ensures { RestsAreReplayedFromStates }
{
    rests_are_replayed();
    cuts_are_playable();
    known_stores_are_typed();
    known_states_are_of_stores();
    known_states_open();
    stores_have_states();
    state_modules_are_valid();
    state_modules_have_code();
    replay_modules_stand();
}
