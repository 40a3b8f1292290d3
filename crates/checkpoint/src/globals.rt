// The globals of a known state.

ghost use Rattle.std.specs.Prelude.{◌≡◌, ◌+◌, ◌≤◌, ◌<◌, drop, length, slice_get, take, Some, IfOk};
ghost use Rattle.rest_spec.specs.StateModules.{state_global, state_globals};

use crate::constants::constant_body;
use base::NoMemory;
use recorder::Frozen;
use std::alloc::Global;
use wasm_syntax::{Global as GlobalDef, Globals, Item, List, Val};

/// The known values of a number of globals, from an index on.
pub(crate) fn frozen_values(
    alloc: Global,
    frozen: &Frozen,
    first: usize,
    count: usize,
) -> Result<Vec<Val>, NoMemory>
    requires { first + count ≤ length frozen.now.globals }
    ensures { IfOk result (λ values. values.items ≡ take count (drop first frozen.now.globals)) }
{
    let mut values = Vec::with_capacity(alloc, count)?;
    'globals: for place in 0..count {
        values.push(frozen_value(frozen, first, place)?)?;
    }
    Ok(values)
}

/// The known value of a global, by its place behind the first one.
fn frozen_value(frozen: &Frozen, first: usize, place: usize) -> Result<Val, NoMemory>
    requires { first + place < length frozen.now.globals }
    ensures { IfOk result (λ value. slice_get frozen.now.globals (first + place) ≡ Some value) }
{
    // No memory holds more globals than 32 bits count.
    let Ok(global) = u32::try_from(first.saturating_add(place)) else {
        return Err(NoMemory);
    };
    Ok(frozen.global(global))
}

/// Defined globals with what was frozen, given the number of imported ones.
pub(crate) fn defined_globals(
    alloc: Global,
    globals: &[GlobalDef],
    imported: usize,
    frozen: &Frozen,
) -> Result<Globals, NoMemory>
    requires { imported + length globals.now ≤ length frozen.now.globals }
    ensures { IfOk result (λ made. made ≡ state_globals globals.now (drop imported frozen.now.globals)) }
{
    let values = frozen_values(alloc, frozen, imported, globals.len())?;
    state_globals(alloc, globals, values.as_slice())
}

/// Defined globals with known values.
fn state_globals(alloc: Global, globals: &[GlobalDef], values: &[Val]) -> Result<Globals, NoMemory>
    requires { length globals.now ≡ length values.now }
    ensures { IfOk result (λ made. made ≡ state_globals globals.now values.now) }
{
    let mut made = Vec::with_capacity(alloc, globals.len())?;
    let mut globals = globals;
    let mut values = values;
    'globals: while let Some((global, more_globals)) = globals.split_first() {
        let Some((value, more_values)) = values.split_first() else {
            unreachable!();
        };
        made.push(state_global(alloc, global, *value)?)?;
        globals = more_globals;
        values = more_values;
    }
    Ok(List::from_vec(made))
}

/// A global that begins with this value if it is mutable; an immutable one keeps its own.
fn state_global(alloc: Global, global: &GlobalDef, value: Val) -> Result<GlobalDef, NoMemory>
    ensures { IfOk result (λ made. made ≡ state_global global.now value) }
{
    if !global.ty.mutable {
        return global.copy();
    }
    let init = constant_body(alloc, value)?;
    Ok(GlobalDef {
        ty: global.ty,
        init,
    })
}
