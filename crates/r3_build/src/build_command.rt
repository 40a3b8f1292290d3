// `build`: the replay module of a tape.

ghost use Rattle.std.specs.Prelude.{◌≤◌, length};
ghost use Rattle.wasm_syntax.specs.declared.limits.TheConstants.{MAX_FILE_BYTES};
ghost use Rattle.r3_faults.specs.Answers.{IsExact};
ghost use Rattle.r3_build.specs.BuiltReplays.{IsPrinted};
ghost use Rattle.r3_build.specs.BuildRefusals.{IsBuildRefusal};

use crate::built_replays::replay_for;
use accepted_runs::inputs_of;
use r3_faults::Fault;
use std::alloc::Global;

/// The replay module of a tape in its binary format, for a module of at most `MAX_FILE_BYTES` and what a script
/// supplies for its imports. The script's answers and actions are read and not played.
///
/// # Errors
///
/// The fault names the cause: the module or the script is refused, the module does not link, or the file is not
/// a tape, is a tape of another module, is a tape that does not fit the module, or weighs more than
/// `MAX_TAPE_WEIGHT`. Each is reported if and only if it is the first cause that applies. `Memory` if memory is out.
pub fn build(alloc: Global, module: &[u8], script: &[u8], tape: &[u8]) -> Result<Vec<u8>, Fault>
    requires { length «module».now ≤ MAX_FILE_BYTES }
    ensures { IsExact (IsPrinted «module».now script.now tape.now)
        (IsBuildRefusal «module».now script.now tape.now) result }
{
    let (checked, script) = inputs_of(alloc, module, script)?;
    replay_for(alloc, module, checked, &script, tape)
}
