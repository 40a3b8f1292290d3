// Tests of value types and of values.

ghost use Rattle.std.specs.Prelude.{◌≡◌, ◌≤◌, length, reverse};
ghost use Rattle.wasm_syntax.specs.Typing.{is_number as is_number_type, is_constant, results_of};
ghost use Rattle.wasm_syntax.specs.Alike.{same_type as same_types_are};

use wasm_syntax::{FuncType, Val, ValType};

/// Whether the type is a number type (Core 1.0, 2.3.1), not a reference type.
pub fn is_number(ty: ValType) -> bool
    ensures { result ≡ is_number_type ty }
{
    !matches!(ty, ValType::FuncRef)
}

/// Whether two types are the same.
pub fn same_type(ty: ValType, other: ValType) -> bool
    ensures { result ≡ same_types_are ty other }
{
    match ty {
        ValType::I32 => matches!(other, ValType::I32),
        ValType::I64 => matches!(other, ValType::I64),
        ValType::F32 => matches!(other, ValType::F32),
        ValType::F64 => matches!(other, ValType::F64),
        ValType::FuncRef => matches!(other, ValType::FuncRef),
    }
}

/// Whether the value is of a number type, with bits of no more than its width (Core 1.0, 3.3.1.1).
pub fn is_value(value: Val) -> bool
    ensures { result ≡ is_constant value }
{
    match value.ty {
        ValType::I32 | ValType::F32 => value.bits < 1 << 32,
        ValType::I64 | ValType::F64 => true,
        ValType::FuncRef => false,
    }
}

/// The result of a function type, which has at most one (Core 1.0, 3.2.2).
pub fn result_of(ty: &FuncType) -> Option<ValType>
    requires { length ty.now.results ≤ 1 }
    ensures same { results_of result ≡ ty.now.results }
    ensures reversed { results_of result ≡ reverse ty.now.results }
{
    match ty.results.as_slice() {
        [] => None,
        [only, ..] => Some(*only),
    }
}
