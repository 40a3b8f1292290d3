// What `replay` prints of what `make` prints.

ghost use Rattle.replay_text_laws.specs.Accepted.{ReplayModulesAreAccepted};
ghost use Rattle.replay_text_laws.specs.Histories.{ReplaysPrintHistories};
ghost use Rattle.replay_text_laws.specs.Texts.{ReplaysAreShown};
ghost use Rattle.replay_text_laws.specs.PrintLaws.{PrintLaws};

use history_spec::runs_have_one_result_at_most;
use replay_form::layouts_are_one;
use replay_module_laws::replay_modules_stand;
use script_text::scripts_that_are_read_fit;
use type_safety::typed_store;
use wasm_syntax::{module_encoding, shortest_encoding};

/// The replay module of an accepted module is accepted: generated code has no float arithmetic, and its types, its
/// limits and its locals are within the profile.
pub fn replay_modules_are_accepted()
    ensures { ReplayModulesAreAccepted }
{}

/// `replay` prints of the bytes of a replay module the lines of what the module's run shows, within as many turns as
/// that run takes or more, and no other lines.
pub fn replays_are_shown()
    ensures { ReplaysAreShown }
{
    module_encoding();
    layouts_are_one();
    runs_have_one_result_at_most();
}

/// What the lines of a replay module rest on.
pub(crate) fn print_laws()
    ensures { PrintLaws }
{
    module_encoding();
    shortest_encoding();
    runs_have_one_result_at_most();
    scripts_that_are_read_fit();
    typed_store();
    replay_modules_stand();
    replay_modules_are_accepted();
    replays_are_shown();
}

/// Where `make` prints bytes, `replay` prints of these exactly what `history` prints of the run.
pub fn replays_print_histories()
    ensures { ReplaysPrintHistories }
{
    print_laws();
}
