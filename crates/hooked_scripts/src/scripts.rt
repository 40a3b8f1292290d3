// Scripts for instrumented modules.

ghost use Rattle.std.specs.Prelude.{◌≡◌, ◌<◌, IfOk, length};
ghost use Rattle.wasm_syntax.specs.Index.{func_indices, imported_funcs};
ghost use Rattle.wasm_flat.specs.Sizes.{list_limit};
ghost use Rattle.host_script.specs.Fits.{Fits};
ghost use Rattle.record_replay_spec.specs.HookedRuns.{hooked_script, renumbered_script};
ghost use Rattle.instrumented_module_laws.specs.Links.{script_with_hooks};
ghost use Rattle.hooked_scripts.specs.Low.{IsLowScript};

use crate::actions::renumbered_actions;
use crate::answers::hooked_answers;
use base::NoMemory;
use host_script::Script;
use std::alloc::Global;
use wasm_syntax::Module;

/// A script that fits a module, converted for its instrumented module: functions are renumbered, and each hook
/// is answered by doing nothing. Values and bytes are moved and not copied.
///
/// # Errors
///
/// `NoMemory` if an allocation failed.
pub fn script_with_hooks(alloc: Global, module: &Module, script: Script) -> Result<Script, NoMemory>
    requires fits { Fits «module».now script }
    requires few { length (func_indices «module».now) < list_limit }
    ensures { IfOk result (λ hooked. hooked ≡ script_with_hooks «module».now script) }
{
    let imports = count_of_imports(module, &script);
    hooked_script(alloc, imports, script)
}

/// The number of functions that a module imports, by a script that fits it, which has an answer for each.
pub fn count_of_imports(_module: &Module, script: &Script) -> u32
    requires fits { Fits _module.now script.now }
    requires few { length (func_indices _module.now) < list_limit }
    ensures { result ≡ imported_funcs _module.now }
{
    script.imports.as_slice().len() as u32
}

/// The converted script for a module that imports `imports` functions.
fn hooked_script(alloc: Global, imports: u32, script: Script) -> Result<Script, NoMemory>
    requires same { length script.imports ≡ imports }
    requires low { IsLowScript script }
    ensures { IfOk result (λ hooked. hooked ≡ hooked_script imports (renumbered_script imports script)) }
{
    let main = renumbered_actions(alloc, imports, script.main)?;
    let imports = hooked_answers(alloc, imports, script.imports)?;
    Ok(Script {
        imports,
        main,
        ..script
    })
}
