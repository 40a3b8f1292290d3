// The module that is read from a file.

ghost use Rattle.std.specs.Prelude.{◌≤◌, IfOk, length};
ghost use Rattle.wasm_syntax.specs.declared.limits.TheConstants.{MAX_FILE_BYTES};
ghost use Rattle.r3_faults.specs.Answers.{IsExactValue};
ghost use Rattle.r3_inputs.specs.Inputs.{IsModuleOf, IsRefusedModule};
ghost use Rattle.r3_instances.specs.RecordedModules.{IsFromFile};

use r3_faults::Fault;
use r3_inputs::module_of;
use std::alloc::Global;
use wasm_syntax::shortest_encoding;
use wasm_validate::Checked;

/// The module that the bytes of a file are.
///
/// # Errors
///
/// The fault names why the module is refused; `Memory` if memory is exhausted.
pub(crate) fn file_module(alloc: Global, bytes: &[u8]) -> Result<Checked, Fault>
    requires { length bytes.now ≤ MAX_FILE_BYTES }
    ensures exact { IsExactValue (IsModuleOf bytes.now) (IsRefusedModule bytes.now) result }
    ensures file { IfOk result (λ checked. IsFromFile checked) }
{
    shortest_encoding();
    module_of(alloc, bytes)
}
