// The globals of a linked module.

ghost use Rattle.std.specs.Prelude.{◌≡◌, ◌++◌, map, IfOk};
ghost use Rattle.linked_pair.specs.Parts.{global_by};

use crate::constants::linked_constant;
use crate::numbers::SideNumbers;
use base::NoMemory;
use std::alloc::Global;
use wasm_syntax::{Global as GlobalDef, Globals, List};

/// Globals, and after them those of a side.
pub(crate) fn with_linked_globals(
    alloc: Global,
    numbers: &SideNumbers,
    before: Globals,
    globals: &[GlobalDef],
) -> Result<Globals, NoMemory>
    ensures { IfOk result (λ list. list ≡ before ++ map (global_by numbers.now) globals.now) }
{
    let mut list = before.into_vec();
    list.reserve(globals.len())?;
    'globals: for global in globals {
        list.push(linked_global(alloc, numbers, global)?)?;
    }
    Ok(List::from_vec(list))
}

/// A global of a side.
fn linked_global(
    alloc: Global,
    numbers: &SideNumbers,
    global: &GlobalDef,
) -> Result<GlobalDef, NoMemory>
    ensures { IfOk result (λ made. made ≡ global_by numbers.now global.now) }
{
    let init = linked_constant(alloc, numbers, &global.init)?;
    Ok(GlobalDef {
        ty: global.ty,
        init,
    })
}
