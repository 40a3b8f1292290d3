// The constant expressions of a linked module (Core 1.0, 3.3.7).

ghost use Rattle.std.specs.Prelude.{◌≡◌, [], IfOk, slice_get, unwrap_or};
ghost use Rattle.linked_pair.specs.SideNumbers.{constant_from};

use crate::numbers::SideNumbers;
use base::NoMemory;
use std::alloc::Global;
use wasm_syntax::{Body, Instr, List};

/// A constant expression of a side: if it names a global, the constant expression that names this one in the linked
/// module.
pub(crate) fn linked_constant(
    alloc: Global,
    numbers: &SideNumbers,
    body: &Body,
) -> Result<Body, NoMemory>
    ensures { IfOk result (λ made. made ≡ constant_from numbers.now.constants body.now) }
{
    match body.as_slice() {
        [Instr::GlobalGet(global), Instr::End] => constant_at(alloc, numbers, *global),
        _ => body.clone(),
    }
}

/// The constant expression that names a global in the linked module.
fn constant_at(alloc: Global, numbers: &SideNumbers, global: u32) -> Result<Body, NoMemory>
    ensures { IfOk result (λ made. made ≡ unwrap_or (slice_get numbers.now.constants global) []) }
{
    match numbers.constants.as_slice().get(global as usize) {
        Some(constant) => constant.clone(),
        None => Ok(List::new(alloc)),
    }
}
