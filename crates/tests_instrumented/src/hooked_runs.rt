// The run of a module in the hooked form.

ghost use Rattle.wasm_flat.specs.Meters.{FitsMeter};
ghost use Rattle.wasm_flat.specs.Sizes.{IsShort};
ghost use Rattle.type_safety.specs.Supplies.{IsRunnable};

use accepted_runs::start_store;
use history_spec::Outcome;
use hook_insert::hooked_form;
use hook_names::Hooks;
use host_play::{Play, PlayFault, RunSettings, forms_have_hooks, play};
use r3_inputs::script_of;
use std::alloc::Global;
use std::test::Fail;
use wasm_flat::Meter;
use wasm_flatten::flatten;
use wasm_validate::Checked;

/// The run under a script within a number of turns.
pub(crate) fn played<H: Hooks>(
    alloc: Global,
    checked: &Checked,
    meter: &Meter,
    script: &str,
    turns: u64,
    hooks: &mut H,
) -> Result<Result<Outcome, PlayFault>, Fail>
    requires short { IsShort checked.now }
    requires runnable { IsRunnable checked.now }
    requires meter { FitsMeter checked.now meter.now }
{
    let Ok(form) = hooked_form(checked) else {
        return Err(Fail::from("a module without the form"));
    };
    let Ok(script) = script_of(alloc, script.as_bytes(), checked) else {
        return Err(Fail::from("a refused script"));
    };
    let Ok(store) = start_store(alloc, checked, &script) else {
        return Err(Fail::from("a module that does not link"));
    };
    forms_have_hooks();
    let play_of = Play {
        code: checked.module(),
        flat: flatten(alloc, checked)?,
        script: &script,
        store,
    };
    let settings = RunSettings {
        imports: form.imports,
        meter,
        turns,
    };
    Ok(play(alloc, play_of, &settings, hooks))
}
