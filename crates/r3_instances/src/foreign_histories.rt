// `foreign-history`: the lines of a run with foreign functions.

ghost use Rattle.std.specs.Prelude.{◌≤◌, length};
ghost use Rattle.wasm_syntax.specs.declared.limits.TheConstants.{MAX_FILE_BYTES};
ghost use Rattle.r3_faults.specs.Answers.{IsExact};
ghost use Rattle.r3_instances.specs.ForeignHistories.{IsForeignHistory, IsForeignHistoryRefusal};

use crate::foreign_inputs::foreign_inputs;
use instance_laws::widened_outcomes_follow;
use r3_faults::Fault;
use r3_history::history_of;
use std::alloc::Global;

/// The lines of the history and of the outcome of the run of a module with foreign functions, which `decls` declares as
/// a JSON text, and a script that answers them as it does imports, within a number of turns. Functions are shown by
/// their numbers: the imports first, then the declared functions, then those that the module defines. The module and
/// the declarations have at most `MAX_FILE_BYTES`.
///
/// # Errors
///
/// The fault names the cause: the module, the declarations or the script are refused, the module does not link, the
/// host cannot do what the script says, or the run needs more turns. Each is reported if and only if it is the first
/// cause that applies. `Memory` if memory is out.
pub fn foreign_history(
    alloc: Global,
    module: &[u8],
    decls: &[u8],
    script: &[u8],
    turns: u64,
) -> Result<Vec<u8>, Fault>
    requires small { length «module».now ≤ MAX_FILE_BYTES }
    requires declared { length decls.now ≤ MAX_FILE_BYTES }
    ensures { IsExact (IsForeignHistory «module».now decls.now script.now turns)
        (IsForeignHistoryRefusal «module».now decls.now script.now turns) result }
{
    widened_outcomes_follow();
    let inputs = foreign_inputs(alloc, module, decls, script)?;
    history_of(alloc, &inputs.checked, &inputs.script, turns)
}
