// `history`: the lines of a run.

ghost use Rattle.std.specs.Prelude.{◌≤◌, length};
ghost use Rattle.wasm_syntax.specs.declared.limits.TheConstants.{MAX_FILE_BYTES};
ghost use Rattle.r3_faults.specs.Answers.{IsExact};
ghost use Rattle.r3_history.specs.Histories.{IsHistory, IsHistoryRefusal};

use crate::lines::history_of;
use accepted_runs::inputs_of;
use r3_faults::Fault;
use std::alloc::Global;

/// The lines of the history and of the outcome of the run of a module with a script, within a number of turns.
/// The module has at most `MAX_FILE_BYTES`.
///
/// # Errors
///
/// The fault names the cause: the module or the script is refused, the module does not link, the host cannot do
/// what the script says, or the run needs more turns. Each is reported if and only if it is the first cause that
/// applies. `Memory` if memory is out.
pub fn history(alloc: Global, module: &[u8], script: &[u8], turns: u64) -> Result<Vec<u8>, Fault>
    requires { length «module».now ≤ MAX_FILE_BYTES }
    ensures { IsExact (IsHistory «module».now script.now turns)
        (IsHistoryRefusal «module».now script.now turns) result }
{
    let (checked, script) = inputs_of(alloc, module, script)?;
    history_of(alloc, &checked, &script, turns)
}
