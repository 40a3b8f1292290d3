// The parts of a linked module in which no index is resolved.

ghost use Rattle.std.specs.Prelude.{◌≡◌, ◌++◌, IfOk};

use base::NoMemory;
use wasm_syntax::{FuncType, FuncTypes, Item, Limits, LimitsList, List};

/// The types of both modules.
pub(crate) fn types_of_both(left: &FuncTypes, right: &[FuncType]) -> Result<FuncTypes, NoMemory>
    ensures { IfOk result (λ list. list ≡ left.now ++ right.now) }
{
    let mut list = left.clone()?.into_vec();
    list.reserve(right.len())?;
    'types: for ty in right {
        list.push(ty.copy()?)?;
    }
    Ok(List::from_vec(list))
}

/// The limits of both modules, which are those of tables or of memories.
pub(crate) fn limits_of_both(left: &LimitsList, right: &[Limits]) -> Result<LimitsList, NoMemory>
    ensures { IfOk result (λ list. list ≡ left.now ++ right.now) }
{
    let mut list = left.clone()?.into_vec();
    list.reserve(right.len())?;
    'limits: for limits in right {
        list.push(*limits)?;
    }
    Ok(List::from_vec(list))
}
