//! The integer operations of WebAssembly (Core 1.0, 4.3.2), by the opcodes of the numeric
//! instructions (5.4.5). No operation takes memory.
#![tactic(auto)]

ghost use Rattle.std.specs.Prelude.{◌≡◌, ℕ, ◌^◌, ◌<◌, ◌≤◌, ◌==◌, IfOk};
ghost use Rattle.wasm_numeric.specs.Laws.{ResultsFit};
ghost use Rattle.wasm_numeric.specs.Opcode.{Test, Compare, Unary, Binary, Convert, kind_of, width, width_of, result_of, test_of, compare_of, unary_of, binary_of, convert_of, answer_of};

pub mod i32_ops;
pub mod i64_ops;
pub mod operation;

use base::opcodes::{
    I32_EXTEND8_S, I32_EXTEND16_S, I32_GE_U, I32_POPCNT, I32_ROTR, I32_WRAP_I64, I64_EXTEND_I32_S,
};
use i32_ops::{i32_binary, i32_compare, i32_unary};
use i64_ops::{i64_binary, i64_compare, i64_unary};
use operation::{binary_op, compare_op, unary_op};
use thiserror::Error;

/// Why an integer operation has no value.
#[derive(Clone, Copy, PartialEq, Eq, Debug, Error)]
pub enum NumTrap {
    #[error("integer divide by zero")]
    DivideByZero,
    #[error("integer overflow")]
    Overflow,
}

/// 1 if `a` is 0, else 0 (Core 1.0, 4.3.2, "ieqz").
#[inline]
pub fn test(op: u8, a: u64) -> u32
    requires kind { kind_of op ≡ Test }
    requires operand_fits { a < 2 ^ width_of op }
    ensures { result ≡ test_of op a }
{
    (a == 0) as u32
}

/// 1 if the comparison of `a` and `b` holds, else 0 (Core 1.0, 4.3.2, "ieq" to "ige_s").
#[inline]
pub fn compare(op: u8, a: u64, b: u64) -> u32
    requires kind { kind_of op ≡ Compare }
    requires left_fits { a < 2 ^ width_of op }
    requires right_fits { b < 2 ^ width_of op }
    ensures { result ≡ compare_of op a b }
{
    let operation = compare_op(op);
    if op <= I32_GE_U {
        i32_compare(operation, a as u32, b as u32)
    } else {
        i64_compare(operation, a, b)
    }
}

/// What a unary operation computes of `a` (Core 1.0, 4.3.2, "iclz", "ictz", "ipopcnt"; Core 2.0, 4.3.2,
/// "iextendM_s").
#[inline]
pub fn unary(op: u8, a: u64) -> u64
    requires kind { kind_of op ≡ Unary }
    requires operand_fits { a < 2 ^ width_of op }
    ensures value { result ≡ unary_of op a }
    ensures fits { result < 2 ^ width (result_of op) }
{
    let operation = unary_op(op);
    if is_of_i32(op) {
        u64::from(i32_unary(operation, a as u32))
    } else {
        i64_unary(operation, a)
    }
}

/// Whether the operand of a unary operation is an `i32`.
#[inline]
fn is_of_i32(op: u8) -> bool
    requires { kind_of op ≡ Unary }
    ensures { result ≡ width_of op == 32 }
{
    op <= I32_POPCNT || (I32_EXTEND8_S <= op && op <= I32_EXTEND16_S)
}

/// The value of a binary operation on `a` and `b`, or why it has no value (Core 1.0, 4.3.2,
/// "iadd" to "irotr"): only divisions and remainders may have no value.
///
/// # Errors
///
/// If a division or remainder is by 0, or the quotient of a signed division overflows.
#[inline]
pub fn binary(op: u8, a: u64, b: u64) -> Result<u64, NumTrap>
    requires kind { kind_of op ≡ Binary }
    requires left_fits { a < 2 ^ width_of op }
    requires right_fits { b < 2 ^ width_of op }
    ensures value { result ≡ answer_of (binary_of op a b) }
    ensures fits { IfOk result (λ value. value < 2 ^ width (result_of op)) }
{
    let operation = binary_op(op);
    if op <= I32_ROTR {
        let value = i32_binary(operation, a as u32, b as u32)?;
        Ok(u64::from(value))
    } else {
        i64_binary(operation, a, b)
    }
}

/// What a conversion between integers makes of `a`; a reinterpretation keeps its bits (Core 1.0,
/// 4.3.4).
#[inline]
pub fn convert(op: u8, a: u64) -> u64
    requires kind { kind_of op ≡ Convert }
    requires operand_fits { a < 2 ^ width_of op }
    ensures value { result ≡ convert_of op a }
    ensures fits { result < 2 ^ width (result_of op) }
{
    match op {
        I32_WRAP_I64 => a % 0x1_0000_0000,
        I64_EXTEND_I32_S => i64::from((a as u32).cast_signed()).cast_unsigned(),
        // `i64.extend_i32_u` and the reinterpretations
        _ => a,
    }
}

/// The result of an operation fits its type, if the first operand fits.
pub fn values_fit()
    ensures { ResultsFit }
{}
