// The laws of the replay modules of tapes.

ghost use Rattle.replay_laws.specs.Follows.{ReplayModulesFollowTapes};
ghost use Rattle.replay_laws.specs.Stands.{ReplayModulesOfTapesStand};

use generated_code_laws::{replays_are_within_bound, replays_begin, replays_show_runs};
use replay_module_laws::replay_modules_stand;

/// The replay module of a tape that fits shows each history of the tape's run, and its outcome, makes exactly the
/// tape's effects, and takes at most as many steps for that as the bound allows.
pub fn replay_modules_follow_tapes()
    ensures { ReplayModulesFollowTapes }
{
    replays_begin();
    replays_show_runs();
    replays_are_within_bound();
}

/// The replay module of a tape keeps the original's types and functions at their indices, and imports nothing.
pub fn replay_modules_of_tapes_stand()
    ensures { ReplayModulesOfTapesStand }
{
    replay_modules_stand();
}
