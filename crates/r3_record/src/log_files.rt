// `record`: the file of the log of a run.

ghost use Rattle.std.specs.Prelude.{◌≤◌, length};
ghost use Rattle.r3_faults.specs.Answers.{IsExact};
ghost use Rattle.wasm_syntax.specs.declared.limits.TheConstants.{MAX_INSTRUMENTED_BYTES};
ghost use Rattle.r3_record.specs.LogFiles.{IsLogFile, IsLogRefusal};

use crate::module_logs::log_file;
use instrumented_module_laws::globals_within_encoding;
use r3_faults::Fault;
use r3_inputs::{ModuleFile, module_in};
use std::alloc::Global;

/// The file of the log of the run of a module in the hooked form under a script, which is read for that module,
/// within a number of turns; each instruction of the module takes one turn. The log is that of the hook calls
/// that the module makes, and has the digest that the module declares. The module has at most
/// `MAX_INSTRUMENTED_BYTES`.
///
/// # Errors
///
/// The fault names the cause: the module is refused, it does not have the hooked form, the script for it is
/// refused, the module does not link, or its run has no log: the host cannot do what the script says, the run
/// needs more turns, or a hook call before that is out of order. Each is reported if and only if it is the first
/// cause that applies. `Memory` if memory is out.
pub fn log_run(alloc: Global, hooked: &[u8], script: &[u8], turns: u64) -> Result<Vec<u8>, Fault>
    requires { length hooked.now ≤ MAX_INSTRUMENTED_BYTES }
    ensures { IsExact (IsLogFile hooked.now script.now turns) (IsLogRefusal hooked.now script.now turns) result }
{
    globals_within_encoding();
    let checked = module_in(alloc, ModuleFile::Instrumented, hooked)?;
    log_file(alloc, &checked, script, turns)
}
