// Expressions of one constant (Core 1.0, 3.3.7).

ghost use Rattle.std.specs.Prelude.{◌≡◌, [], ◌∷◌, IfOk};
ghost use Rattle.wasm_syntax.specs.declared.instructions.Instr.TheVariants.{Const, End};
ghost use Rattle.rest_spec.specs.StateSegments.{offset_at};

use base::NoMemory;
use std::alloc::Global;
use wasm_syntax::{Body, Instr, List, Val, ValType};

/// The expression of a constant.
pub(crate) fn constant_body(alloc: Global, value: Val) -> Result<Body, NoMemory>
    ensures { IfOk result (λ body. body ≡ Const value ∷ End ∷ []) }
{
    let mut body = Vec::with_capacity(alloc, 2)?;
    body.push_reserved(Instr::Const(value));
    body.push_reserved(Instr::End);
    Ok(List::from_vec(body))
}

/// The offset of a segment.
pub(crate) fn offset_at(alloc: Global, place: u64) -> Result<Body, NoMemory>
    ensures { IfOk result (λ body. body ≡ offset_at place) }
{
    constant_body(
        alloc,
        Val {
            ty: ValType::I32,
            bits: place,
        },
    )
}
