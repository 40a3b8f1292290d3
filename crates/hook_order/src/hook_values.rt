// Values as hook calls pass them.

ghost use Rattle.std.specs.Prelude.{◌≡◌};
ghost use Rattle.record_replay_spec.specs.Order.{bits_fit, fits_global, is_width, type_of_byte, value_reported};

use base::marks::{TYPE_F32, TYPE_F64, TYPE_I32, TYPE_I64};
use wasm_syntax::{GlobalType, Val, ValType};

/// The number type that a byte encodes (Core 1.0, 5.3.1).
fn type_of_byte(byte: u64) -> Option<ValType>
    ensures { result ≡ type_of_byte byte }
{
    if byte == u64::from(TYPE_I32) {
        Some(ValType::I32)
    } else if byte == u64::from(TYPE_I64) {
        Some(ValType::I64)
    } else if byte == u64::from(TYPE_F32) {
        Some(ValType::F32)
    } else if byte == u64::from(TYPE_F64) {
        Some(ValType::F64)
    } else {
        None
    }
}

/// Whether bits fit a type.
fn bits_fit(ty: ValType, bits: u64) -> bool
    ensures { result ≡ bits_fit ty bits }
{
    match ty {
        ValType::I32 | ValType::F32 => bits <= u64::from(u32::MAX),
        ValType::I64 | ValType::F64 => true,
        ValType::FuncRef => bits == 0,
    }
}

/// The value that a type's byte and bits give.
pub(crate) fn value_reported(byte: u64, bits: u64) -> Option<Val>
    ensures { result ≡ value_reported byte bits }
{
    match type_of_byte(byte) {
        Some(ty) if bits_fit(ty, bits) => Some(Val { ty, bits }),
        _ => None,
    }
}

/// Whether bits fit a global that exists and is mutable.
pub(crate) fn fits_global(ty: Option<GlobalType>, bits: u64) -> bool
    ensures { result ≡ fits_global ty bits }
{
    match ty {
        Some(ty) => ty.mutable && bits_fit(ty.ty, bits),
        None => false,
    }
}

/// Whether a number is the width of an access.
#[inline(always)]
pub(crate) fn is_width(width: u64) -> bool
    ensures { result ≡ is_width width }
{
    width == 1 || width == 2 || width == 4 || width == 8
}
