// `foreign`: a replay module of a run with foreign functions.

ghost use Rattle.std.specs.Prelude.{◌≤◌, length};
ghost use Rattle.wasm_syntax.specs.declared.limits.TheConstants.{MAX_FILE_BYTES, MAX_TURNS};
ghost use Rattle.r3_faults.specs.Answers.{IsReplayAnswer};
ghost use Rattle.r3_instances.specs.ForeignReplays.{AreForeignReplayable, IsForeignPrinted, IsForeignRefusal};

use crate::foreign_inputs::foreign_inputs;
use crate::run_inputs::replay_of_inputs;
use instance_laws::widened_outcomes_follow;
use r3_faults::Fault;
use std::alloc::Global;

/// Makes the replay module of the run of a module with foreign functions, which `decls` declares as a JSON text, and a
/// script that answers them as it does imports, within a number of turns, in its binary format. The module and the
/// declarations have at most `MAX_FILE_BYTES`, and the turns are at most `MAX_TURNS`.
///
/// # Errors
///
/// The fault names the cause: the module, the declarations or the script are refused, the module does not link, the
/// host cannot do what the script says, the run needs more turns, or it needs a tape that weighs more than
/// `MAX_TAPE_WEIGHT`. Each is reported if and only if it is the first cause that applies. `Memory` if memory is out.
pub fn foreign(
    alloc: Global,
    module: &[u8],
    decls: &[u8],
    script: &[u8],
    turns: u64,
) -> Result<Vec<u8>, Fault>
    requires small { length «module».now ≤ MAX_FILE_BYTES }
    requires declared { length decls.now ≤ MAX_FILE_BYTES }
    requires few { turns ≤ MAX_TURNS }
    ensures { IsReplayAnswer (IsForeignPrinted «module».now decls.now script.now turns)
        (IsForeignRefusal «module».now decls.now script.now turns)
        (AreForeignReplayable «module».now decls.now script.now turns) result }
{
    widened_outcomes_follow();
    let inputs = foreign_inputs(alloc, module, decls, script)?;
    replay_of_inputs(alloc, inputs, turns)
}
