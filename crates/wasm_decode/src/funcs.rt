// Functions, made of what two sections hold of them.

ghost use Rattle.std.specs.Prelude.{◌≡◌, IfOk};
ghost use Rattle.wasm_syntax.specs.Encoding.ReadModules.{funcs_of};

use crate::code::CodeItem;
use base::NoMemory;
use std::alloc::Global;
use wasm_syntax::{Func, Funcs, Indices, List};

/// The functions of these types with these locals and bodies; None if the two lists differ in
/// length (Core 1.0, 5.5.15).
pub(crate) fn funcs_of(
    alloc: Global,
    types: Indices,
    codes: List<CodeItem>,
) -> Result<Option<Funcs>, NoMemory>
    ensures { IfOk result (λ funcs. funcs ≡ funcs_of types codes) }
{
    let mut codes = codes.into_vec().into_iter();
    let mut funcs = Vec::with_capacity(alloc, codes.len())?;
    for ty in types.as_slice() {
        let Some(code) = codes.next() else {
            return Ok(None);
        };
        let (locals, body) = code.into_parts();
        funcs.push(Func {
            ty: *ty,
            locals,
            body,
        })?;
    }
    if codes.len() > 0 {
        return Ok(None);
    }
    Ok(Some(List::from_vec(funcs)))
}
