// The functions of a linked module.

ghost use Rattle.std.specs.Prelude.{◌≡◌, ◌++◌, map, IfOk};
ghost use Rattle.pair_spec.specs.Linked.{linked_func};
ghost use Rattle.linked_pair.specs.SideNumbers.{instance_by};

use crate::numbers::SideNumbers;
use base::NoMemory;
use renamed_modules::{Numbering, renamed_body};
use std::alloc::Global;
use wasm_syntax::{Func, Funcs, List};

/// Functions, and after them those of a side.
pub(crate) fn with_linked_funcs(
    alloc: Global,
    numbers: &SideNumbers,
    before: Funcs,
    funcs: &[Func],
) -> Result<Funcs, NoMemory>
    ensures { IfOk result (λ list. list ≡ before ++ map (linked_func (instance_by numbers.now)) funcs.now) }
{
    let mut list = before.into_vec();
    list.reserve(funcs.len())?;
    'funcs: for func in funcs {
        list.push(linked_func(alloc, numbers, func)?)?;
    }
    Ok(List::from_vec(list))
}

/// A function with the number of its type, and with all indices in its body resolved.
fn linked_func(alloc: Global, numbers: &SideNumbers, func: &Func) -> Result<Func, NoMemory>
    ensures { IfOk result (λ made. made ≡ linked_func (instance_by numbers.now) func.now) }
{
    let locals = func.locals.clone()?;
    let body = renamed_body(alloc, numbers, func.body.as_slice())?;
    Ok(Func {
        ty: numbers.ty(func.ty),
        locals,
        body,
    })
}
