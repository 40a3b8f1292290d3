// A module that is made of those in files, with a script for it, and its replay module.

ghost use Rattle.std.specs.Prelude.{IfOk};
ghost use Rattle.r3_faults.specs.Answers.{IsExactValue, IsReplayAnswer};
ghost use Rattle.r3_inputs.specs.Inputs.{IsRefusedScript};
ghost use Rattle.r3_make.specs.Printed.{IsReplayFor};
ghost use Rattle.r3_make.specs.Refusals.{IsUnmade};
ghost use Rattle.r3_make.specs.Tapes.{NeedsLightTape};
ghost use Rattle.r3_instances.specs.RecordedModules.{CanBePlayed, CanBeRecorded, IsScriptFor};

use host_script::Script;
use r3_faults::Fault;
use r3_inputs::script_of;
use r3_make::replay_of;
use std::alloc::Global;
use wasm_syntax::{encoding_forms, lists_of_encoding, shortest_encoding};
use wasm_validate::Checked;

/// A module that is made of those in files, and a script that fits it.
#[derive(Drop)]
pub struct RunInputs {
    pub(crate) checked: Checked,
    pub(crate) script: Script,
}

/// A module, and the script for it that bytes are.
///
/// # Errors
///
/// The fault names why the script is refused; `Memory` if memory is exhausted.
pub(crate) fn run_inputs(alloc: Global, checked: Checked, script: &[u8]) -> Result<RunInputs, Fault>
    requires { CanBeRecorded checked }
    ensures exact { IsExactValue (IsScriptFor checked script.now)
        (λ fault. IsRefusedScript checked script.now fault) result }
    ensures played { IfOk result (λ inputs. CanBePlayed inputs) }
{
    match script_of(alloc, script, &checked) {
        Ok(script) => Ok(RunInputs { checked, script }),
        Err(fault) => Err(fault),
    }
}

/// The replay module of the run of a module under a script, within a number of turns.
///
/// # Errors
///
/// The fault names why the run has no replay module; `Memory` if memory is exhausted.
pub(crate) fn replay_of_inputs(
    alloc: Global,
    inputs: RunInputs,
    turns: u64,
) -> Result<Vec<u8>, Fault>
    requires { CanBePlayed inputs }
    ensures { IsReplayAnswer (IsReplayFor inputs.checked inputs.script turns)
        (IsUnmade inputs.checked inputs.script turns)
        (NeedsLightTape inputs.checked inputs.script turns) result }
{
    shortest_encoding();
    encoding_forms();
    lists_of_encoding();
    let RunInputs { checked, script } = inputs;
    replay_of(alloc, checked, script, turns)
}
