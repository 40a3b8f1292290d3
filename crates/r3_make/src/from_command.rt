// `from`: a replay module of a run from a top-level call on.

ghost use Rattle.std.specs.Prelude.{◌≤◌, length};
ghost use Rattle.wasm_syntax.specs.declared.limits.TheConstants.{MAX_FILE_BYTES, MAX_TURNS};
ghost use Rattle.r3_faults.specs.Answers.{IsReplayAnswer};
ghost use Rattle.r3_make.specs.RestRefusals.{HaveRest, IsRestRefusal};
ghost use Rattle.r3_make.specs.RestReplays.{IsRestPrinted};

use crate::rest_binary::rest_replay_of;
use accepted_runs::inputs_of;
use r3_faults::Fault;
use std::alloc::Global;

/// The greatest number of a top-level call that `from` takes.
pub const MAX_CALL_NUMBER: u32 = 1_000_000_000;

/// Makes the replay module of the run of a module with a script, within a number of turns, from the top-level call of
/// a number on, in its binary format. Top-level calls are the calls by the host while no call of an import is open;
/// their numbers begin with 0, and the call of the start function is one of them. The module has at most
/// `MAX_FILE_BYTES`, and the turns are at most `MAX_TURNS`.
///
/// # Errors
///
/// The fault names the cause: the module or the script is refused, the module does not link, the host cannot do
/// what the script says, the run needs more turns, it has too few top-level calls, or it needs a tape that weighs more
/// than `MAX_TAPE_WEIGHT`. Each is reported if and only if it is the first cause that applies. `Memory` if memory is
/// out.
pub fn from_call(
    alloc: Global,
    module: &[u8],
    script: &[u8],
    turns: u64,
    number: u32,
) -> Result<Vec<u8>, Fault>
    requires small { length «module».now ≤ MAX_FILE_BYTES }
    requires few { turns ≤ MAX_TURNS }
    ensures { IsReplayAnswer (IsRestPrinted «module».now script.now turns number)
        (IsRestRefusal «module».now script.now turns number) (HaveRest «module».now script.now turns number) result }
{
    let (checked, script) = inputs_of(alloc, module, script)?;
    rest_replay_of(alloc, checked, script, turns, number)
}
