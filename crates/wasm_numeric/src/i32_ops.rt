//! The operations on `i32` (Core 1.0, 4.3.2).
ghost use Rattle.std.specs.Prelude.{◌≡◌};
ghost use Rattle.wasm_numeric.specs.Integer.{unary_value, binary_value, compare_value, div_s, rem_s};
ghost use Rattle.wasm_numeric.specs.Opcode.{answer_of};

use crate::NumTrap;
use crate::operation::{BinaryOp, CompareOp, UnaryOp};

/// What `operation` computes of `a`.
#[inline]
pub fn i32_unary(operation: UnaryOp, a: u32) -> u32
    ensures { result ≡ unary_value operation 32 a }
{
    match operation {
        UnaryOp::Clz => a.leading_zeros(),
        UnaryOp::Ctz => a.trailing_zeros(),
        UnaryOp::Popcnt => a.count_ones(),
        UnaryOp::Extend8S => i32::from(((a % 0x100) as u8).cast_signed()).cast_unsigned(),
        UnaryOp::Extend16S => i32::from(((a % 0x1_0000) as u16).cast_signed()).cast_unsigned(),
        UnaryOp::Extend32S => a,
    }
}

/// 1 if the comparison holds, else 0.
#[inline]
pub fn i32_compare(operation: CompareOp, a: u32, b: u32) -> u32
    ensures { result ≡ compare_value operation 32 a b }
{
    let holds = match operation {
        CompareOp::Eq => a == b,
        CompareOp::Ne => a != b,
        CompareOp::LtS => a.cast_signed() < b.cast_signed(),
        CompareOp::LtU => a < b,
        CompareOp::GtS => a.cast_signed() > b.cast_signed(),
        CompareOp::GtU => a > b,
        CompareOp::LeS => a.cast_signed() <= b.cast_signed(),
        CompareOp::LeU => a <= b,
        CompareOp::GeS => a.cast_signed() >= b.cast_signed(),
        CompareOp::GeU => a >= b,
    };
    holds as u32
}

/// The value of `operation` on `a` and `b`, or why it has no value.
///
/// # Errors
///
/// If a division or remainder is by 0, or the quotient of a signed division is 2^31.
#[inline]
pub fn i32_binary(operation: BinaryOp, a: u32, b: u32) -> Result<u32, NumTrap>
    ensures { result ≡ answer_of (binary_value operation 32 a b) }
{
    match operation {
        BinaryOp::Add => Ok(a.wrapping_add(b)),
        BinaryOp::Sub => Ok(a.wrapping_sub(b)),
        BinaryOp::Mul => Ok(a.wrapping_mul(b)),
        BinaryOp::DivS => i32_div_s(a, b),
        BinaryOp::DivU => a.checked_div(b).ok_or(NumTrap::DivideByZero),
        BinaryOp::RemS => i32_rem_s(a, b),
        BinaryOp::RemU => a.checked_rem(b).ok_or(NumTrap::DivideByZero),
        BinaryOp::And => Ok(a & b),
        BinaryOp::Or => Ok(a | b),
        BinaryOp::Xor => Ok(a ^ b),
        BinaryOp::Shl => Ok(a << (b % 32)),
        BinaryOp::ShrS => Ok((a.cast_signed() >> (b % 32)).cast_unsigned()),
        BinaryOp::ShrU => Ok(a >> (b % 32)),
        BinaryOp::Rotl => Ok(a.rotate_left(b)),
        BinaryOp::Rotr => Ok(a.rotate_right(b)),
    }
}

/// The quotient cut towards zero.
#[inline]
fn i32_div_s(a: u32, b: u32) -> Result<u32, NumTrap>
    ensures { result ≡ answer_of (div_s 32 a b) }
{
    if b == 0 {
        Err(NumTrap::DivideByZero)
    } else if a == 0x8000_0000 && b == u32::MAX {
        Err(NumTrap::Overflow)
    } else {
        Ok((a.cast_signed() / b.cast_signed()).cast_unsigned())
    }
}

/// The remainder of the quotient cut towards zero; 0 if the quotient overflows.
#[inline]
fn i32_rem_s(a: u32, b: u32) -> Result<u32, NumTrap>
    ensures { result ≡ answer_of (rem_s 32 a b) }
{
    if b == 0 {
        Err(NumTrap::DivideByZero)
    } else {
        let left = a.cast_signed().wrapping_rem(b.cast_signed());
        Ok(left.cast_unsigned())
    }
}
