// `pair-history`: the lines of a run of two linked modules.

ghost use Rattle.std.specs.Prelude.{◌≤◌, length};
ghost use Rattle.wasm_syntax.specs.declared.limits.TheConstants.{MAX_FILE_BYTES};
ghost use Rattle.r3_faults.specs.Answers.{IsExact};
ghost use Rattle.r3_instances.specs.PairHistories.{IsPairHistory, IsPairHistoryRefusal};

use crate::pair_inputs::pair_inputs;
use pair_laws::linked_outcomes_follow;
use r3_faults::Fault;
use r3_history::history_of;
use std::alloc::Global;

/// The lines of the history and of the outcome of the run of two modules under a script for their linked module, within
/// a number of turns. Functions are shown by their numbers: the host's that the left module imports first, then those
/// that the right one imports, then the functions that the left one defines, then those of the right one. Each module
/// has at most `MAX_FILE_BYTES`.
///
/// # Errors
///
/// The fault names the cause: the left module is refused, the right one is, they do not link, the script is refused,
/// the linked module does not link with it, the host cannot do what the script says, or the run needs more turns. Each
/// is reported if and only if it is the first cause that applies. `Memory` if memory is out.
pub fn pair_history(
    alloc: Global,
    left: &[u8],
    right: &[u8],
    script: &[u8],
    turns: u64,
) -> Result<Vec<u8>, Fault>
    requires left { length left.now ≤ MAX_FILE_BYTES }
    requires right { length right.now ≤ MAX_FILE_BYTES }
    ensures { IsExact (IsPairHistory left.now right.now script.now turns)
        (IsPairHistoryRefusal left.now right.now script.now turns) result }
{
    linked_outcomes_follow();
    let inputs = pair_inputs(alloc, left, right, script)?;
    history_of(alloc, &inputs.checked, &inputs.script, turns)
}
