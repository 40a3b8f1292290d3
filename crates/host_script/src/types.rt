// Value types compared.

ghost use Rattle.std.specs.Prelude.{◌≡◌};
ghost use Rattle.wasm_syntax.specs.Alike.{same_type};

use wasm_syntax::ValType;

/// Whether two value types are the same.
pub fn is_type(a: ValType, b: ValType) -> bool
    ensures { result ≡ same_type a b }
{
    match (a, b) {
        (ValType::I32, ValType::I32) => true,
        (ValType::I64, ValType::I64) => true,
        (ValType::F32, ValType::F32) => true,
        (ValType::F64, ValType::F64) => true,
        (ValType::FuncRef, ValType::FuncRef) => true,
        _ => false,
    }
}
