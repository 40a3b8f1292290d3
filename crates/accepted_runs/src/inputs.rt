// The module and the script that the bytes of two files encode.

ghost use Rattle.std.specs.Prelude.{◌≡◌, ◌≤◌, ◌⊎◌, Ok, Err, IfErr, IfOk, length};
ghost use Rattle.wasm_syntax.specs.declared.limits.TheConstants.{MAX_FILE_BYTES};
ghost use Rattle.wasm_syntax.specs.declared.modules.Module as syntax;
ghost use Rattle.host_script.specs.declared.scripts.Script as scripts;
ghost use Rattle.r3_faults.specs.declared.faults.Fault.{Fault};
ghost use Rattle.r3_faults.specs.declared.faults.Fault.TheVariants.{Memory};
ghost use Rattle.r3_inputs.specs.Inputs.{AreInputs, AreRefused};
ghost use Rattle.accepted_runs.specs.Runnable.{AreTaken};

use host_script::Script;
use r3_faults::Fault;
use r3_inputs::{module_of, script_of};
use std::alloc::Global;
use wasm_validate::Checked;

/// The module that the bytes of a file encode, of at most `MAX_FILE_BYTES`, and the script for it that
/// the bytes of another encode.
///
/// # Errors
///
/// The fault names why the module is refused, or else why the script for it is; `Memory` if memory
/// is exhausted.
pub fn inputs_of(alloc: Global, module: &[u8], script: &[u8]) -> Result<(Checked, Script), Fault>
    requires { length «module».now ≤ MAX_FILE_BYTES }
    ensures taken { IfOk result (λ inputs. AreTaken «module».now script.now inputs.0 inputs.1) }
    ensures cause { IfErr result (λ fault. (fault ≡ Memory) ⊎ AreRefused «module».now script.now fault) }
    ensures refused { (fault : Fault) → AreRefused «module».now script.now fault
        → (result ≡ Err fault) ⊎ (result ≡ Err Memory) }
    ensures accepted { (m : syntax.Module) (s : scripts.Script) → AreInputs «module».now script.now m s
        → (result ≡ Ok (m, s)) ⊎ (result ≡ Err Memory) }
{
    match module_of(alloc, module) {
        Ok(checked) => match script_of(alloc, script, &checked) {
            Ok(script) => Ok((checked, script)),
            Err(fault) => Err(fault),
        },
        Err(fault) => Err(fault),
    }
}
