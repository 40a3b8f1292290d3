// Readers of types (Core 1.0, 5.3).

ghost use Rattle.wasm_syntax.specs.Encoding.Readers.{first_val_type, first_block_type, first_func_type, first_limits, first_table_type, first_mutability, first_global_type};
ghost use Rattle.leb_bytes.specs.ReadResults.{Gives};

use crate::values::{Read, first_byte, first_u32};
use crate::vectors::first_vector;
use base::marks::{
    LIMITS_MIN, LIMITS_MIN_MAX, MUTABILITY_CONST, MUTABILITY_VAR, TYPE_EMPTY, TYPE_F32, TYPE_F64,
    TYPE_FUNC, TYPE_FUNCREF, TYPE_I32, TYPE_I64,
};
use leb_bytes::Unread;
use std::alloc::Global;
use wasm_syntax::{Form, FuncType, GlobalType, Limits, ValType};

/// A value type (Core 1.0, 5.3.1).
#[tactic(auto, unfolding(wasm_syntax::specs::Encoding::Readers::first_val_type))]
pub(crate) fn first_val_type(bytes: &[u8]) -> Read<'_, ValType>
    ensures { Gives (λ read. (read.0, read.1.now)) result (first_val_type bytes.now) }
{
    let (mark, rest) = first_byte(bytes)?;
    match mark {
        TYPE_I32 => Ok((ValType::I32, rest)),
        TYPE_I64 => Ok((ValType::I64, rest)),
        TYPE_F32 => Ok((ValType::F32, rest)),
        TYPE_F64 => Ok((ValType::F64, rest)),
        _ => Err(Unread::NotThere),
    }
}

/// A block type (Core 1.0, 5.3.2).
#[tactic(auto, unfolding(wasm_syntax::specs::Encoding::Readers::first_block_type))]
pub(crate) fn first_block_type(bytes: &[u8]) -> Read<'_, Option<ValType>>
    ensures { Gives (λ read. (read.0, read.1.now)) result (first_block_type bytes.now) }
{
    let (mark, rest) = first_byte(bytes)?;
    match mark {
        TYPE_EMPTY => Ok((None, rest)),
        TYPE_I32 => Ok((Some(ValType::I32), rest)),
        TYPE_I64 => Ok((Some(ValType::I64), rest)),
        TYPE_F32 => Ok((Some(ValType::F32), rest)),
        TYPE_F64 => Ok((Some(ValType::F64), rest)),
        _ => Err(Unread::NotThere),
    }
}

/// A function type (Core 1.0, 5.3.3).
#[tactic(auto, unfolding(wasm_syntax::specs::Encoding::Readers::first_func_type))]
pub(crate) fn first_func_type(alloc: Global, form: Form, bytes: &[u8]) -> Read<'_, FuncType>
    ensures { Gives (λ read. (read.0, read.1.now)) result (first_func_type bytes.now) }
{
    let (mark, rest) = first_byte(bytes)?;
    if mark != TYPE_FUNC {
        return Err(Unread::NotThere);
    }
    let (params, rest) = first_vector::<ValType>(alloc, form, rest)?;
    let (results, rest) = first_vector::<ValType>(alloc, form, rest)?;
    Ok((FuncType { params, results }, rest))
}

/// Limits (Core 1.0, 5.3.4).
#[tactic(auto, unfolding(wasm_syntax::specs::Encoding::Readers::first_limits))]
pub(crate) fn first_limits(bytes: &[u8]) -> Read<'_, Limits>
    ensures { Gives (λ read. (read.0, read.1.now)) result (first_limits bytes.now) }
{
    let (mark, rest) = first_byte(bytes)?;
    match mark {
        LIMITS_MIN => {
            let (min, rest) = first_u32(rest)?;
            Ok((Limits { min, max: None }, rest))
        }
        LIMITS_MIN_MAX => {
            let (min, rest) = first_u32(rest)?;
            let (max, rest) = first_u32(rest)?;
            Ok((
                Limits {
                    min,
                    max: Some(max),
                },
                rest,
            ))
        }
        _ => Err(Unread::NotThere),
    }
}

/// A table type (Core 1.0, 5.3.6).
#[tactic(auto, unfolding(wasm_syntax::specs::Encoding::Readers::first_table_type))]
pub(crate) fn first_table_type(bytes: &[u8]) -> Read<'_, Limits>
    ensures { Gives (λ read. (read.0, read.1.now)) result (first_table_type bytes.now) }
{
    let (mark, rest) = first_byte(bytes)?;
    if mark != TYPE_FUNCREF {
        return Err(Unread::NotThere);
    }
    first_limits(rest)
}

/// Whether a global is mutable (Core 1.0, 5.3.7).
#[tactic(auto, unfolding(wasm_syntax::specs::Encoding::Readers::first_mutability))]
pub(crate) fn first_mutability(bytes: &[u8]) -> Read<'_, bool>
    ensures { Gives (λ read. (read.0, read.1.now)) result (first_mutability bytes.now) }
{
    let (mark, rest) = first_byte(bytes)?;
    match mark {
        MUTABILITY_CONST => Ok((false, rest)),
        MUTABILITY_VAR => Ok((true, rest)),
        _ => Err(Unread::NotThere),
    }
}

/// A global type (Core 1.0, 5.3.7).
#[tactic(auto, unfolding(wasm_syntax::specs::Encoding::Readers::first_global_type))]
pub(crate) fn first_global_type(bytes: &[u8]) -> Read<'_, GlobalType>
    ensures { Gives (λ read. (read.0, read.1.now)) result (first_global_type bytes.now) }
{
    let (ty, rest) = first_val_type(bytes)?;
    let (mutable, rest) = first_mutability(rest)?;
    Ok((GlobalType { ty, mutable }, rest))
}
