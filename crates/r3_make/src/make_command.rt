// `make`: a replay module of a run.

ghost use Rattle.std.specs.Prelude.{◌≤◌, length};
ghost use Rattle.wasm_syntax.specs.declared.limits.TheConstants.{MAX_FILE_BYTES, MAX_TURNS};
ghost use Rattle.r3_faults.specs.Answers.{IsReplayAnswer};
ghost use Rattle.r3_make.specs.Refusals.{AreReplayable, IsMakeRefusal};
ghost use Rattle.r3_make.specs.Printed.{IsPrinted};

use crate::replay_binary::replay_of;
use accepted_runs::inputs_of;
use r3_faults::Fault;
use std::alloc::Global;

/// Makes the replay module of the run of a module with a script, within a number of turns, in its binary format.
/// The module has at most `MAX_FILE_BYTES`, and the turns are at most `MAX_TURNS`.
///
/// # Errors
///
/// The fault names the cause: the module or the script is refused, the module does not link, the host cannot do
/// what the script says, the run needs more turns, or it needs a tape that weighs more than `MAX_TAPE_WEIGHT`. Each
/// is reported if and only if it is the first cause that applies. `Memory` if memory is out.
pub fn make(alloc: Global, module: &[u8], script: &[u8], turns: u64) -> Result<Vec<u8>, Fault>
    requires small { length «module».now ≤ MAX_FILE_BYTES }
    requires few { turns ≤ MAX_TURNS }
    ensures { IsReplayAnswer (IsPrinted «module».now script.now turns) (IsMakeRefusal «module».now script.now turns)
        (AreReplayable «module».now script.now turns) result }
{
    let (checked, script) = inputs_of(alloc, module, script)?;
    replay_of(alloc, checked, script, turns)
}
