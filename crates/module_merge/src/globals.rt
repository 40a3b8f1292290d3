// The globals of a replay module.

ghost use Rattle.std.specs.Prelude.{◌≡◌, length, map, IfOk};
ghost use Rattle.std.specs.List.{zip};
ghost use Rattle.wasm_syntax.specs.Index.{imported_globals};
ghost use Rattle.replay_module_spec.specs.Merge.{supplied_global};
ghost use Rattle.module_merge.specs.Parts.{kept_globals};

use crate::constants::constant_body;
use base::NoMemory;
use instantiation_parts::all_globals;
use module_index::scope::Scope;
use std::alloc::Global;
use wasm_syntax::{Global as GlobalDef, GlobalType, Globals, List, Val};

/// The globals of the original, with the values that the supply gives or that they begin with.
pub(crate) fn kept_globals(
    alloc: Global,
    scope: &Scope<'_>,
    imported: &[Val],
) -> Result<Globals, NoMemory>
    requires { length (imported_globals scope.now) ≡ length imported.now }
    ensures { IfOk result (λ globals. globals ≡ kept_globals scope.now imported.now) }
{
    let values = all_globals(alloc, imported, scope.module().globals.as_slice())?;
    valued_globals(alloc, scope.globals(), values.as_slice())
}

/// Globals of these types that begin with these values.
fn valued_globals(alloc: Global, types: &[GlobalType], values: &[Val]) -> Result<Globals, NoMemory>
    ensures { IfOk result (λ globals. globals ≡ map supplied_global (zip types.now values.now)) }
{
    let mut globals = Vec::with_capacity(alloc, types.len())?;
    let mut types = types;
    let mut values = values;
    'globals: while let Some((ty, more_types)) = types.split_first() {
        let Some((value, more_values)) = values.split_first() else {
            return Ok(List::from_vec(globals));
        };
        globals.push(valued_global(alloc, *ty, *value)?)?;
        types = more_types;
        values = more_values;
    }
    Ok(List::from_vec(globals))
}

/// A global that begins with a value.
fn valued_global(alloc: Global, ty: GlobalType, value: Val) -> Result<GlobalDef, NoMemory>
    ensures { IfOk result (λ global. global ≡ supplied_global (ty, value)) }
{
    let init = constant_body(alloc, value)?;
    Ok(GlobalDef { ty, init })
}
