// What opcodes take and give.

ghost use Rattle.std.specs.Prelude.{◌≡◌, ◌^◌, nat_le, slice_get};
ghost use Rattle.std.specs.Option.{option_map};
ghost use Rattle.wasm_syntax.specs.Opcodes.{numeric_shape as shape_of_opcode, load_of, store_of};
ghost use Rattle.module_index.specs.Tables.{shape_of, reach_of, reach_of_transfer};

use crate::opcodes::Operation::{One, Two};
use base::opcodes::{I32_EQZ, I32_LOAD, I32_STORE};
use wasm_syntax::ValType;
use wasm_syntax::ValType::{F32, F64, I32, I64};

/// The types of a numeric instruction: of its one operand, or of both of its two; and of its
/// result.
#[derive(Clone, Copy)]
pub enum Operation {
    One(ValType, ValType),
    Two(ValType, ValType),
}

/// The type of an access to memory, and its width in bytes.
#[derive(Clone, Copy)]
pub struct Transfer {
    pub ty: ValType,
    pub width: u32,
}

/// The numeric instructions from `I32_EQZ` on (Core 1.0, 5.4.5; Core 2.0, 5.4.7).
static NUMERIC: [Operation; 128] = [
    // I32_EQZ
    One(I32, I32),
    // I32_EQ to I32_GE_U
    Two(I32, I32),
    Two(I32, I32),
    Two(I32, I32),
    Two(I32, I32),
    Two(I32, I32),
    Two(I32, I32),
    Two(I32, I32),
    Two(I32, I32),
    Two(I32, I32),
    Two(I32, I32),
    // I64_EQZ
    One(I64, I32),
    // I64_EQ to I64_GE_U
    Two(I64, I32),
    Two(I64, I32),
    Two(I64, I32),
    Two(I64, I32),
    Two(I64, I32),
    Two(I64, I32),
    Two(I64, I32),
    Two(I64, I32),
    Two(I64, I32),
    Two(I64, I32),
    // F32_EQ to F32_GE
    Two(F32, I32),
    Two(F32, I32),
    Two(F32, I32),
    Two(F32, I32),
    Two(F32, I32),
    Two(F32, I32),
    // F64_EQ to F64_GE
    Two(F64, I32),
    Two(F64, I32),
    Two(F64, I32),
    Two(F64, I32),
    Two(F64, I32),
    Two(F64, I32),
    // I32_CLZ to I32_POPCNT
    One(I32, I32),
    One(I32, I32),
    One(I32, I32),
    // I32_ADD to I32_ROTR
    Two(I32, I32),
    Two(I32, I32),
    Two(I32, I32),
    Two(I32, I32),
    Two(I32, I32),
    Two(I32, I32),
    Two(I32, I32),
    Two(I32, I32),
    Two(I32, I32),
    Two(I32, I32),
    Two(I32, I32),
    Two(I32, I32),
    Two(I32, I32),
    Two(I32, I32),
    Two(I32, I32),
    // I64_CLZ to I64_POPCNT
    One(I64, I64),
    One(I64, I64),
    One(I64, I64),
    // I64_ADD to I64_ROTR
    Two(I64, I64),
    Two(I64, I64),
    Two(I64, I64),
    Two(I64, I64),
    Two(I64, I64),
    Two(I64, I64),
    Two(I64, I64),
    Two(I64, I64),
    Two(I64, I64),
    Two(I64, I64),
    Two(I64, I64),
    Two(I64, I64),
    Two(I64, I64),
    Two(I64, I64),
    Two(I64, I64),
    // F32_ABS to F32_SQRT
    One(F32, F32),
    One(F32, F32),
    One(F32, F32),
    One(F32, F32),
    One(F32, F32),
    One(F32, F32),
    One(F32, F32),
    // F32_ADD to F32_COPYSIGN
    Two(F32, F32),
    Two(F32, F32),
    Two(F32, F32),
    Two(F32, F32),
    Two(F32, F32),
    Two(F32, F32),
    Two(F32, F32),
    // F64_ABS to F64_SQRT
    One(F64, F64),
    One(F64, F64),
    One(F64, F64),
    One(F64, F64),
    One(F64, F64),
    One(F64, F64),
    One(F64, F64),
    // F64_ADD to F64_COPYSIGN
    Two(F64, F64),
    Two(F64, F64),
    Two(F64, F64),
    Two(F64, F64),
    Two(F64, F64),
    Two(F64, F64),
    Two(F64, F64),
    // I32_WRAP_I64
    One(I64, I32),
    // I32_TRUNC_F32_S to I32_TRUNC_F32_U
    One(F32, I32),
    One(F32, I32),
    // I32_TRUNC_F64_S to I32_TRUNC_F64_U
    One(F64, I32),
    One(F64, I32),
    // I64_EXTEND_I32_S to I64_EXTEND_I32_U
    One(I32, I64),
    One(I32, I64),
    // I64_TRUNC_F32_S to I64_TRUNC_F32_U
    One(F32, I64),
    One(F32, I64),
    // I64_TRUNC_F64_S to I64_TRUNC_F64_U
    One(F64, I64),
    One(F64, I64),
    // F32_CONVERT_I32_S to F32_CONVERT_I32_U
    One(I32, F32),
    One(I32, F32),
    // F32_CONVERT_I64_S to F32_CONVERT_I64_U
    One(I64, F32),
    One(I64, F32),
    // F32_DEMOTE_F64
    One(F64, F32),
    // F64_CONVERT_I32_S to F64_CONVERT_I32_U
    One(I32, F64),
    One(I32, F64),
    // F64_CONVERT_I64_S to F64_CONVERT_I64_U
    One(I64, F64),
    One(I64, F64),
    // F64_PROMOTE_F32
    One(F32, F64),
    // I32_REINTERPRET_F32
    One(F32, I32),
    // I64_REINTERPRET_F64
    One(F64, I64),
    // F32_REINTERPRET_I32
    One(I32, F32),
    // F64_REINTERPRET_I64
    One(I64, F64),
    // I32_EXTEND8_S to I32_EXTEND16_S
    One(I32, I32),
    One(I32, I32),
    // I64_EXTEND8_S to I64_EXTEND32_S
    One(I64, I64),
    One(I64, I64),
    One(I64, I64),
];

/// The loads from `I32_LOAD` on (Core 1.0, 5.4.4).
static LOADS: [Transfer; 14] = [
    Transfer { ty: I32, width: 4 },
    Transfer { ty: I64, width: 8 },
    Transfer { ty: F32, width: 4 },
    Transfer { ty: F64, width: 8 },
    Transfer { ty: I32, width: 1 },
    Transfer { ty: I32, width: 1 },
    Transfer { ty: I32, width: 2 },
    Transfer { ty: I32, width: 2 },
    Transfer { ty: I64, width: 1 },
    Transfer { ty: I64, width: 1 },
    Transfer { ty: I64, width: 2 },
    Transfer { ty: I64, width: 2 },
    Transfer { ty: I64, width: 4 },
    Transfer { ty: I64, width: 4 },
];

/// The stores from `I32_STORE` on (Core 1.0, 5.4.4).
static STORES: [Transfer; 9] = [
    Transfer { ty: I32, width: 4 },
    Transfer { ty: I64, width: 8 },
    Transfer { ty: F32, width: 4 },
    Transfer { ty: F64, width: 8 },
    Transfer { ty: I32, width: 1 },
    Transfer { ty: I32, width: 2 },
    Transfer { ty: I64, width: 1 },
    Transfer { ty: I64, width: 2 },
    Transfer { ty: I64, width: 4 },
];

/// The types of the numeric instruction of this opcode, if there is one.
pub fn numeric_shape(op: u8) -> Option<Operation>
    ensures { option_map shape_of result ≡ shape_of_opcode op }
{
    if op < I32_EQZ {
        return None;
    }
    entry(&NUMERIC, (op - I32_EQZ) as usize)
}

/// The load of this opcode, if there is one.
pub fn load(op: u8) -> Option<Transfer>
    ensures { option_map reach_of_transfer result ≡ option_map reach_of (load_of op) }
{
    if op < I32_LOAD {
        return None;
    }
    entry(&LOADS, (op - I32_LOAD) as usize)
}

/// The store of this opcode, if there is one.
pub fn store(op: u8) -> Option<Transfer>
    ensures { option_map reach_of_transfer result ≡ option_map reach_of (store_of op) }
{
    if op < I32_STORE {
        return None;
    }
    entry(&STORES, (op - I32_STORE) as usize)
}

/// Whether an access is aligned to its width in bytes at most (Core 1.0, 3.3.4): `align` is the
/// exponent of 2.
pub fn is_aligned(align: u32, width: u32) -> bool
    ensures { result ≡ nat_le (2 ^ align) width }
{
    align < 32 && (1u32 << align) <= width
}

/// The entry of a table at a place.
fn entry<T: Copy>(table: &[T], place: usize) -> Option<T>
    ensures { result ≡ slice_get table.now place }
{
    table.get(place).copied()
}
