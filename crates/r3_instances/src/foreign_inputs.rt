// The module in which declared functions are imports, and the script that is read for it, from the bytes of files.

ghost use Rattle.std.specs.Prelude.{◌≡◌, ◌≤◌, IfOk, length};
ghost use Rattle.wasm_syntax.specs.declared.limits.TheConstants.{MAX_FILE_BYTES};
ghost use Rattle.r3_faults.specs.Answers.{IsExactValue};
ghost use Rattle.r3_instances.specs.ForeignInputs.{foreign_source, widened_of, AreUndeclared};
ghost use Rattle.r3_instances.specs.RecordedModules.{AreRunInputs, CanBePlayed, CanBeRecorded, CanBeWidened, IsRecordedFor};
ghost use Rattle.r3_instances.specs.Sources.{AreRefusedWithScript};

use crate::declared_modules::{DeclaredModule, declared_module};
use crate::run_inputs::{RunInputs, run_inputs};
use base::NoMemory;
use foreign_funcs::widen;
use instance_laws::{
    widened_are_accepted, widened_are_core, widened_are_encodable, widened_are_short,
    widened_are_supported, widened_are_within,
};
use r3_faults::Fault;
use std::alloc::Global;
use wasm_syntax::encoding_forms;
use wasm_validate::Checked;

/// The widened module and the script for it that the bytes of a module, of declarations and of a script are.
///
/// # Errors
///
/// The fault names why the module is refused, or else the declarations, or else the script; `Memory` if memory is
/// exhausted.
pub(crate) fn foreign_inputs(
    alloc: Global,
    module: &[u8],
    decls: &[u8],
    script: &[u8],
) -> Result<RunInputs, Fault>
    requires small { length «module».now ≤ MAX_FILE_BYTES }
    requires declared { length decls.now ≤ MAX_FILE_BYTES }
    ensures exact { IsExactValue (AreRunInputs (foreign_source «module».now decls.now) script.now)
        (λ fault. AreRefusedWithScript (foreign_source «module».now decls.now) script.now fault) result }
    ensures played { IfOk result (λ inputs. CanBePlayed inputs) }
{
    let wide = widened_file(alloc, module, decls)?;
    run_inputs(alloc, wide, script)
}

/// The widened module of the module and the declarations that the bytes of two files are.
fn widened_file(alloc: Global, module: &[u8], decls: &[u8]) -> Result<Checked, Fault>
    requires small { length «module».now ≤ MAX_FILE_BYTES }
    requires declared { length decls.now ≤ MAX_FILE_BYTES }
    ensures exact { IsExactValue (IsRecordedFor (foreign_source «module».now decls.now))
        (AreUndeclared «module».now decls.now) result }
    ensures recorded { IfOk result (λ wide. CanBeRecorded wide) }
{
    let declared = declared_module(alloc, module, decls)?;
    let wide = widened_module(alloc, &declared)?;
    Ok(wide)
}

/// The widened module of a module and declarations.
fn widened_module(alloc: Global, declared: &DeclaredModule) -> Result<Checked, NoMemory>
    requires { CanBeWidened declared.now }
    ensures is { IfOk result (λ wide. wide ≡ widened_of declared.now) }
    ensures recorded { IfOk result (λ wide. CanBeRecorded wide) }
{
    encoding_forms();
    widened_are_accepted();
    widened_are_core();
    widened_are_encodable();
    widened_are_short();
    widened_are_supported();
    widened_are_within();
    widen(alloc, &declared.checked, &declared.decls)
}
