// `replay`: the lines of what a replay module shows.

ghost use Rattle.std.specs.Prelude.{◌≤◌, length};
ghost use Rattle.r3_faults.specs.Answers.{IsExact};
ghost use Rattle.wasm_syntax.specs.declared.limits.TheConstants.{MAX_REPLAY_BYTES};
ghost use Rattle.r3_replay.specs.ReplayTexts.{IsReplayRefusal, IsReplayText};

use crate::texts::text_of;
use r3_faults::Fault;
use r3_inputs::{ModuleFile, module_in};
use std::alloc::Global;

/// The lines of what the run of a replay module shows of its original, and of the outcome, within a number of
/// turns; each instruction of the replay module takes one turn. The module has at most `MAX_REPLAY_BYTES`.
///
/// # Errors
///
/// The fault names the cause: the module is refused, it does not declare its original's layout, has imports, or
/// does not export only a function `_start` without parameters and results (and globals, if a custom section
/// `r3.guard` marks it), a segment does not fit into its table or memory, or the run needs more turns. Each is
/// reported if and only if it is the first cause that applies. `Memory` if memory is out.
pub fn replay_text(alloc: Global, binary: &[u8], turns: u64) -> Result<Vec<u8>, Fault>
    requires { length binary.now ≤ MAX_REPLAY_BYTES }
    ensures { IsExact (IsReplayText binary.now turns) (IsReplayRefusal binary.now turns) result }
{
    let checked = module_in(alloc, ModuleFile::Replay, binary)?;
    text_of(alloc, &checked, turns)
}
