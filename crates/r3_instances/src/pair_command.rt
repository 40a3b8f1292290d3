// `pair`: a replay module of a run of two linked modules.

ghost use Rattle.std.specs.Prelude.{◌≤◌, length};
ghost use Rattle.wasm_syntax.specs.declared.limits.TheConstants.{MAX_FILE_BYTES, MAX_TURNS};
ghost use Rattle.r3_faults.specs.Answers.{IsReplayAnswer};
ghost use Rattle.r3_instances.specs.PairReplays.{ArePairReplayable, IsPairPrinted, IsPairRefusal};

use crate::pair_inputs::pair_inputs;
use crate::run_inputs::replay_of_inputs;
use pair_laws::linked_outcomes_follow;
use r3_faults::Fault;
use std::alloc::Global;

/// Makes the replay module of the run of two modules under a script for their linked module, within a number of turns,
/// in its binary format. The modules may import what the other one exports: the left one from `right`, the right one
/// from `left`. Each module has at most `MAX_FILE_BYTES`, and the turns are at most `MAX_TURNS`.
///
/// # Errors
///
/// The fault names the cause: the left module is refused, the right one is, they do not link, the script is refused,
/// the linked module does not link with it, the host cannot do what the script says, the run needs more turns, or it
/// needs a tape that weighs more than `MAX_TAPE_WEIGHT`. Each is reported if and only if it is the first cause that
/// applies. `Memory` if memory is out.
pub fn pair(
    alloc: Global,
    left: &[u8],
    right: &[u8],
    script: &[u8],
    turns: u64,
) -> Result<Vec<u8>, Fault>
    requires left { length left.now ≤ MAX_FILE_BYTES }
    requires right { length right.now ≤ MAX_FILE_BYTES }
    requires few { turns ≤ MAX_TURNS }
    ensures { IsReplayAnswer (IsPairPrinted left.now right.now script.now turns)
        (IsPairRefusal left.now right.now script.now turns)
        (ArePairReplayable left.now right.now script.now turns) result }
{
    linked_outcomes_follow();
    let inputs = pair_inputs(alloc, left, right, script)?;
    replay_of_inputs(alloc, inputs, turns)
}
