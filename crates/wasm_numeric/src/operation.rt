//! The operations, apart from the width of their operands (Core 1.0, 2.4.1), and by their opcodes.
ghost use Rattle.std.specs.Prelude.{◌≡◌};
ghost use Rattle.wasm_numeric.specs.Opcode.{Compare, Unary, Binary, kind_of, unary_op_of, binary_op_of, compare_op_of};

use base::opcodes::{
    I32_ADD, I32_AND, I32_CLZ, I32_CTZ, I32_DIV_S, I32_DIV_U, I32_EQ, I32_EXTEND8_S,
    I32_EXTEND16_S, I32_GE_S, I32_GE_U, I32_GT_S, I32_GT_U, I32_LE_S, I32_LE_U, I32_LT_S, I32_LT_U,
    I32_MUL, I32_NE, I32_OR, I32_POPCNT, I32_REM_S, I32_REM_U, I32_ROTL, I32_ROTR, I32_SHL,
    I32_SHR_S, I32_SHR_U, I32_SUB, I32_XOR, I64_ADD, I64_AND, I64_CLZ, I64_CTZ, I64_DIV_S,
    I64_DIV_U, I64_EQ, I64_EXTEND8_S, I64_EXTEND16_S, I64_EXTEND32_S, I64_GE_S, I64_GE_U, I64_GT_S,
    I64_GT_U, I64_LE_S, I64_LE_U, I64_LT_S, I64_LT_U, I64_MUL, I64_NE, I64_OR, I64_POPCNT,
    I64_REM_S, I64_REM_U, I64_ROTL, I64_ROTR, I64_SHL, I64_SHR_S, I64_SHR_U, I64_SUB, I64_XOR,
};

/// An operation on one integer.
#[derive(Clone, Copy)]
pub enum UnaryOp {
    Clz,
    Ctz,
    Popcnt,
    Extend8S,
    Extend16S,
    Extend32S,
}

/// An operation on two integers.
#[derive(Clone, Copy)]
pub enum BinaryOp {
    Add,
    Sub,
    Mul,
    DivS,
    DivU,
    RemS,
    RemU,
    And,
    Or,
    Xor,
    Shl,
    ShrS,
    ShrU,
    Rotl,
    Rotr,
}

/// A comparison of two integers.
#[derive(Clone, Copy)]
pub enum CompareOp {
    Eq,
    Ne,
    LtS,
    LtU,
    GtS,
    GtU,
    LeS,
    LeU,
    GeS,
    GeU,
}

/// The operation of an opcode, such as that of `i32.clz`.
#[inline]
pub fn unary_op(op: u8) -> UnaryOp
    requires { kind_of op ≡ Unary }
    ensures { result ≡ unary_op_of op }
{
    match op {
        I32_CLZ | I64_CLZ => UnaryOp::Clz,
        I32_CTZ | I64_CTZ => UnaryOp::Ctz,
        I32_POPCNT | I64_POPCNT => UnaryOp::Popcnt,
        I32_EXTEND8_S | I64_EXTEND8_S => UnaryOp::Extend8S,
        I32_EXTEND16_S | I64_EXTEND16_S => UnaryOp::Extend16S,
        I64_EXTEND32_S => UnaryOp::Extend32S,
        _ => unreachable!(),
    }
}

/// The operation of an opcode, such as that of `i32.eq`.
#[inline]
pub fn compare_op(op: u8) -> CompareOp
    requires { kind_of op ≡ Compare }
    ensures { result ≡ compare_op_of op }
{
    match op {
        I32_EQ | I64_EQ => CompareOp::Eq,
        I32_NE | I64_NE => CompareOp::Ne,
        I32_LT_S | I64_LT_S => CompareOp::LtS,
        I32_LT_U | I64_LT_U => CompareOp::LtU,
        I32_GT_S | I64_GT_S => CompareOp::GtS,
        I32_GT_U | I64_GT_U => CompareOp::GtU,
        I32_LE_S | I64_LE_S => CompareOp::LeS,
        I32_LE_U | I64_LE_U => CompareOp::LeU,
        I32_GE_S | I64_GE_S => CompareOp::GeS,
        I32_GE_U | I64_GE_U => CompareOp::GeU,
        _ => unreachable!(),
    }
}

/// The operation of an opcode, such as that of `i32.add`.
#[inline]
pub fn binary_op(op: u8) -> BinaryOp
    requires { kind_of op ≡ Binary }
    ensures { result ≡ binary_op_of op }
{
    match op {
        I32_ADD | I64_ADD => BinaryOp::Add,
        I32_SUB | I64_SUB => BinaryOp::Sub,
        I32_MUL | I64_MUL => BinaryOp::Mul,
        I32_DIV_S | I64_DIV_S => BinaryOp::DivS,
        I32_DIV_U | I64_DIV_U => BinaryOp::DivU,
        I32_REM_S | I64_REM_S => BinaryOp::RemS,
        I32_REM_U | I64_REM_U => BinaryOp::RemU,
        I32_AND | I64_AND => BinaryOp::And,
        I32_OR | I64_OR => BinaryOp::Or,
        I32_XOR | I64_XOR => BinaryOp::Xor,
        I32_SHL | I64_SHL => BinaryOp::Shl,
        I32_SHR_S | I64_SHR_S => BinaryOp::ShrS,
        I32_SHR_U | I64_SHR_U => BinaryOp::ShrU,
        I32_ROTL | I64_ROTL => BinaryOp::Rotl,
        I32_ROTR | I64_ROTR => BinaryOp::Rotr,
        _ => unreachable!(),
    }
}
