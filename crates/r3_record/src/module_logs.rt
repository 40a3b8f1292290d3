// The file of the log of an accepted module's run under the script that bytes encode.

ghost use Rattle.std.specs.Prelude.{◌≡◌, Some};
ghost use Rattle.record_replay_spec.specs.HookedForm.{hooked_form};
ghost use Rattle.hook_insert.specs.Forms.{form_of};
ghost use Rattle.r3_faults.specs.Answers.{IsCaused, IsExact};
ghost use Rattle.r3_record.specs.LogFiles.{HasModuleLog, HasNoModuleLog, IsAccepted};

use crate::run_logs::{HookedRun, run_file};
use hook_insert::{HookedFault, HookedForm, hooked_form};
use r3_faults::Fault;
use r3_inputs::script_of;
use replay_theorem::records_are_one;
use std::alloc::Global;
use wasm_validate::Checked;

/// The file of the log of a module's run.
pub(crate) fn log_file(
    alloc: Global,
    checked: &Checked,
    script: &[u8],
    turns: u64,
) -> Result<Vec<u8>, Fault>
    requires { IsAccepted checked.now }
    ensures { IsExact (HasModuleLog checked.now script.now turns)
        (HasNoModuleLog checked.now script.now turns) result }
{
    records_are_one();
    match hooked_form(checked) {
        Ok(form) => scripted_file(alloc, checked, form, script, turns),
        Err(HookedFault::NotHooked) => Err(Fault::NotHooked),
    }
}

/// The file of the log of the run of a module in the hooked form, or why there is none.
fn scripted_file(
    alloc: Global,
    checked: &Checked,
    form: HookedForm,
    script: &[u8],
    turns: u64,
) -> Result<Vec<u8>, Fault>
    requires form { hooked_form checked.now ≡ Some (form_of form) }
    requires accepted { IsAccepted checked.now }
    ensures { IsCaused (HasModuleLog checked.now script.now turns)
        (HasNoModuleLog checked.now script.now turns) result }
{
    match script_of(alloc, script, checked) {
        Ok(script) => {
            let run = HookedRun {
                checked,
                form,
                script: &script,
                turns,
            };
            run_file(alloc, run)
        }
        Err(fault) => Err(fault),
    }
}
