//! Worked replay modules of small tapes, which the checker computes from the definitions.
#![tactic(auto)]

ghost use Rattle.worked_replay_modules.specs.Rests.{WorkedRests};
ghost use Rattle.worked_replay_modules.specs.WorkedReplays.{WorkedReplays};

use replay_run_spec::plain_tests_hold;
use wasm_syntax::validity_is_decided;

/// The replay modules of the example tapes are valid, show the runs whose tapes they are of, and make the changes of
/// these; the generated parts fit the modules; plans, code and sizes are as stated, also if an import has more calls
/// than a group, and so is what observations change. Replay modules of other tapes and plans show another history, make
/// other changes, or call an import more or fewer times than their tape, each call within the bound of steps.
pub fn worked_replays_hold()
    ensures { WorkedReplays }
{
    validity_is_decided();
    plain_tests_hold();
}

/// Runs with two top-level calls have the rests that are stated for them, also if the first is the call of the start
/// function. Their tapes have the stated cuts, and what is known before a call is as stated; the modules that begin in
/// the known state have the stated segments, and the replay modules of the cuts show just the rests.
pub fn worked_rests_hold()
    ensures { WorkedRests }
{}

ghost use Rattle.std.specs.Prelude.{◌≢◌};
ghost use Rattle.wasm_syntax.specs.Encoding.Encodable.{IsEncodable};
ghost use Rattle.wasm_syntax.specs.Validity.{IsValid};
ghost use Rattle.wasm_syntax.specs.declared.forms.Form.TheVariants.{Replay};
ghost use Rattle.type_safety.specs.Supplies.{IsSupply};
ghost use Rattle.replay_module_spec.specs.Fits.{FitsModule};
ghost use Rattle.replay_module_spec.specs.Fragments.{fragment_of};
ghost use Rattle.replay_module_spec.specs.declared.plans.Plan.{Plan};
ghost use Rattle.worked_replay_modules.specs.HandmadePart.{doubling, handmade_part, handmade_replay, supplied_eight};

use wasm_syntax::{module_encoding, shortest_encoding};

/// A generated part that was written by hand, and that is of no plan, fits its module, which is valid. The supply
/// matches the module, and the replay module has an encoding.
pub fn handmade_part_fits()
    ensures valid { IsValid doubling }
    ensures supplied { IsSupply doubling supplied_eight }
    ensures fits { FitsModule doubling handmade_part }
    ensures of_no_plan { (plan : Plan) → fragment_of doubling plan ≢ handmade_part }
    ensures encodable { IsEncodable Replay handmade_replay }
{
    validity_is_decided();
    module_encoding();
    shortest_encoding();
}
