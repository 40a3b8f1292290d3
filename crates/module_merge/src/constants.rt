// Expressions of one constant (Core 1.0, 3.3.7).

ghost use Rattle.std.specs.Prelude.{◌≡◌, IfOk};
ghost use Rattle.replay_module_spec.specs.Merge.{constant_body, constant_offset};
ghost use Rattle.module_merge.specs.Offsets.{IsOffset, offset_constant};

use base::NoMemory;
use instantiation_parts::offset_of;
use std::alloc::Global;
use wasm_syntax::{Body, Instr, List, Val, ValType};

/// The expression of a constant.
pub(crate) fn constant_body(alloc: Global, value: Val) -> Result<Body, NoMemory>
    ensures { IfOk result (λ body. body ≡ constant_body value) }
{
    let mut body = Vec::with_capacity(alloc, 2)?;
    body.push_reserved(Instr::Const(value));
    body.push_reserved(Instr::End);
    Ok(List::from_vec(body))
}

/// The expression of an offset's value, given the values of the imported globals.
pub(crate) fn constant_offset(
    alloc: Global,
    imported: &[Val],
    offset: Body,
) -> Result<Body, NoMemory>
    requires { IsOffset imported.now offset }
    ensures { IfOk result (λ body. body ≡ constant_offset imported.now offset) }
{
    constant_body(alloc, offset_value(imported, offset.as_slice()))
}

/// The value of an offset.
fn offset_value(imported: &[Val], offset: &[Instr]) -> Val
    requires { IsOffset imported.now offset.now }
    ensures { result ≡ offset_constant imported.now offset.now }
{
    Val {
        ty: ValType::I32,
        bits: offset_of(imported, offset),
    }
}
