//! For each opcode an ordinary case and one at the type's end. What is expected follows the cases of
//! the standard's test suite, and was confirmed with Python's integers.

use base::opcodes::{
    F32_REINTERPRET_I32, F64_REINTERPRET_I64, I32_ADD, I32_AND, I32_CLZ, I32_CTZ, I32_DIV_S,
    I32_DIV_U, I32_EQ, I32_EQZ, I32_EXTEND8_S, I32_EXTEND16_S, I32_GE_S, I32_GE_U, I32_GT_S,
    I32_GT_U, I32_LE_S, I32_LE_U, I32_LT_S, I32_LT_U, I32_MUL, I32_NE, I32_OR, I32_POPCNT,
    I32_REINTERPRET_F32, I32_REM_S, I32_REM_U, I32_ROTL, I32_ROTR, I32_SHL, I32_SHR_S, I32_SHR_U,
    I32_SUB, I32_WRAP_I64, I32_XOR, I64_ADD, I64_AND, I64_CLZ, I64_CTZ, I64_DIV_S, I64_DIV_U,
    I64_EQ, I64_EQZ, I64_EXTEND_I32_S, I64_EXTEND_I32_U, I64_EXTEND8_S, I64_EXTEND16_S,
    I64_EXTEND32_S, I64_GE_S, I64_GE_U, I64_GT_S, I64_GT_U, I64_LE_S, I64_LE_U, I64_LT_S, I64_LT_U,
    I64_MUL, I64_NE, I64_OR, I64_POPCNT, I64_REINTERPRET_F64, I64_REM_S, I64_REM_U, I64_ROTL,
    I64_ROTR, I64_SHL, I64_SHR_S, I64_SHR_U, I64_SUB, I64_XOR,
};
use wasm_numeric::{NumTrap, binary, compare, convert, test, unary};

// The bits of -1 and of the least and the greatest number with a sign, and of pi and a signalling NaN, in 64 bits.
const ALL_64: u64 = 0xFFFF_FFFF_FFFF_FFFF;

const MIN_64: u64 = 0x8000_0000_0000_0000;

const GREATEST_64: u64 = 0x7FFF_FFFF_FFFF_FFFF;

const PI_64: u64 = 0x4009_21FB_5444_2D18;

const NAN_64: u64 = 0x7FF4_0000_0000_0000;

// Opcode, operand, result.
const TESTS: &[(u8, u64, u32)] = &[
    (I32_EQZ, 1, 0),
    (I32_EQZ, 0, 1),
    (I64_EQZ, 1, 0),
    (I64_EQZ, 0, 1),
];

// Opcode, operand, result: counts of bits, sign extensions, conversions.
const OF_ONE: &[(u8, u64, u64)] = &[
    (I32_CLZ, 0xFF, 24),
    (I32_CLZ, 0, 32),
    (I32_CTZ, 0x8000, 15),
    (I32_CTZ, 0, 32),
    (I32_POPCNT, 0xDEAD_BEEF, 24),
    (I32_POPCNT, 0xFFFF_FFFF, 32),
    (I64_CLZ, 0xFF, 56),
    (I64_CLZ, 0, 64),
    (I64_CTZ, 0x8000, 15),
    (I64_CTZ, 0, 64),
    (I64_POPCNT, 0xDEAD_BEEF_DEAD_BEEF, 48),
    (I64_POPCNT, 0xFFFF_FFFF_FFFF_FFFF, 64),
    (I32_EXTEND8_S, 0x1234_567F, 0x7F),
    (I32_EXTEND8_S, 0x1234_5680, 0xFFFF_FF80),
    (I32_EXTEND16_S, 0x1234_7FFF, 0x7FFF),
    (I32_EXTEND16_S, 0x1234_8000, 0xFFFF_8000),
    (I64_EXTEND8_S, 0xFE, 0xFFFF_FFFF_FFFF_FFFE),
    (I64_EXTEND16_S, 0x1_FFFE, 0xFFFF_FFFF_FFFF_FFFE),
    (I64_EXTEND32_S, 0x1_7FFF_FFFF, 0x7FFF_FFFF),
    (I64_EXTEND32_S, 0x1_8000_0000, 0xFFFF_FFFF_8000_0000),
    (I32_WRAP_I64, 0x1234_5678_9ABC_DEF0, 0x9ABC_DEF0),
    (I32_WRAP_I64, 0xFFFF_FFFF_0000_0000, 0),
    (I64_EXTEND_I32_S, 10_000, 10_000),
    (I64_EXTEND_I32_S, 0x8000_0000, 0xFFFF_FFFF_8000_0000),
    (I64_EXTEND_I32_U, 10_000, 10_000),
    (I64_EXTEND_I32_U, 0x8000_0000, 0x8000_0000),
    (I32_REINTERPRET_F32, 0x4049_0FDB, 0x4049_0FDB),
    (I32_REINTERPRET_F32, 0xFFFF_FFFF, 0xFFFF_FFFF),
    (I64_REINTERPRET_F64, PI_64, PI_64),
    (I64_REINTERPRET_F64, ALL_64, ALL_64),
    (F32_REINTERPRET_I32, 0x7FA0_0000, 0x7FA0_0000),
    (F32_REINTERPRET_I32, 0xFFFF_FFFF, 0xFFFF_FFFF),
    (F64_REINTERPRET_I64, NAN_64, NAN_64),
    (F64_REINTERPRET_I64, ALL_64, ALL_64),
];

// Opcode, operands, result: comparisons, and arithmetic.
const OF_TWO: &[(u8, u64, u64, u64)] = &[
    (I32_EQ, 1, 1, 1),
    (I32_EQ, 0x8000_0000, 0x7FFF_FFFF, 0),
    (I32_NE, 1, 1, 0),
    (I32_NE, 0x8000_0000, 0x7FFF_FFFF, 1),
    (I32_LT_S, 0, 1, 1),
    (I32_LT_S, 0x7FFF_FFFF, 0x8000_0000, 0),
    (I32_LT_U, 0, 1, 1),
    (I32_LT_U, 0x7FFF_FFFF, 0x8000_0000, 1),
    (I32_GT_S, 1, 0, 1),
    (I32_GT_S, 0x7FFF_FFFF, 0x8000_0000, 1),
    (I32_GT_U, 1, 0, 1),
    (I32_GT_U, 0x7FFF_FFFF, 0x8000_0000, 0),
    (I32_LE_S, 1, 1, 1),
    (I32_LE_S, 0x7FFF_FFFF, 0x8000_0000, 0),
    (I32_LE_U, 1, 1, 1),
    (I32_LE_U, 0x7FFF_FFFF, 0x8000_0000, 1),
    (I32_GE_S, 1, 1, 1),
    (I32_GE_S, 0x7FFF_FFFF, 0x8000_0000, 1),
    (I32_GE_U, 1, 1, 1),
    (I32_GE_U, 0x7FFF_FFFF, 0x8000_0000, 0),
    (I64_EQ, 1, 1, 1),
    (I64_EQ, 0x8000_0000_0000_0000, 0x7FFF_FFFF_FFFF_FFFF, 0),
    (I64_NE, 1, 1, 0),
    (I64_NE, 0x8000_0000_0000_0000, 0x7FFF_FFFF_FFFF_FFFF, 1),
    (I64_LT_S, 0, 1, 1),
    (I64_LT_S, 0x7FFF_FFFF_FFFF_FFFF, 0x8000_0000_0000_0000, 0),
    (I64_LT_U, 0, 1, 1),
    (I64_LT_U, 0x7FFF_FFFF_FFFF_FFFF, 0x8000_0000_0000_0000, 1),
    (I64_GT_S, 1, 0, 1),
    (I64_GT_S, 0x7FFF_FFFF_FFFF_FFFF, 0x8000_0000_0000_0000, 1),
    (I64_GT_U, 1, 0, 1),
    (I64_GT_U, 0x7FFF_FFFF_FFFF_FFFF, 0x8000_0000_0000_0000, 0),
    (I64_LE_S, 1, 1, 1),
    (I64_LE_S, 0x7FFF_FFFF_FFFF_FFFF, 0x8000_0000_0000_0000, 0),
    (I64_LE_U, 1, 1, 1),
    (I64_LE_U, 0x7FFF_FFFF_FFFF_FFFF, 0x8000_0000_0000_0000, 1),
    (I64_GE_S, 1, 1, 1),
    (I64_GE_S, 0x7FFF_FFFF_FFFF_FFFF, 0x8000_0000_0000_0000, 1),
    (I64_GE_U, 1, 1, 1),
    (I64_GE_U, 0x7FFF_FFFF_FFFF_FFFF, 0x8000_0000_0000_0000, 0),
    (I32_ADD, 0x3FFF_FFFF, 1, 0x4000_0000),
    (I32_ADD, 0x7FFF_FFFF, 1, 0x8000_0000),
    (I32_SUB, 0x3FFF_FFFF, 0xFFFF_FFFF, 0x4000_0000),
    (I32_SUB, 0x8000_0000, 1, 0x7FFF_FFFF),
    (I32_MUL, 0x0123_4567, 0x7654_3210, 0x358E_7470),
    (I32_MUL, 0x7FFF_FFFF, 0xFFFF_FFFF, 0x8000_0001),
    (I32_DIV_S, 0xFFFF_FFF9, 3, 0xFFFF_FFFE),
    (I32_DIV_S, 0x8000_0000, 2, 0xC000_0000),
    (I32_DIV_U, 0x8FF0_0FF0, 0x1_0001, 0x8FEF),
    (I32_DIV_U, 0x8000_0000, 0xFFFF_FFFF, 0),
    (I32_REM_S, 0xFFFF_FFF9, 3, 0xFFFF_FFFF),
    (I32_REM_S, 0x8000_0000, 0xFFFF_FFFF, 0),
    (I32_REM_U, 0x8FF0_0FF0, 0x1_0001, 0x8001),
    (I32_REM_U, 0x8000_0000, 0xFFFF_FFFF, 0x8000_0000),
    (I32_AND, 0xF0F0_FFFF, 0xFFFF_F0F0, 0xF0F0_F0F0),
    (I32_AND, 0x7FFF_FFFF, 0x8000_0000, 0),
    (I32_OR, 0xF0F0_FFFF, 0xFFFF_F0F0, 0xFFFF_FFFF),
    (I32_OR, 0x7FFF_FFFF, 0x8000_0000, 0xFFFF_FFFF),
    (I32_XOR, 0xF0F0_FFFF, 0xFFFF_F0F0, 0x0F0F_0F0F),
    (I32_XOR, 0xFFFF_FFFF, 0x8000_0000, 0x7FFF_FFFF),
    (I32_SHL, 0x7FFF_FFFF, 1, 0xFFFF_FFFE),
    (I32_SHL, 1, 33, 2),
    (I32_SHR_S, 0x4000_0000, 1, 0x2000_0000),
    (I32_SHR_S, 0x8000_0000, 31, 0xFFFF_FFFF),
    (I32_SHR_U, 0x7FFF_FFFF, 1, 0x3FFF_FFFF),
    (I32_SHR_U, 0xFFFF_FFFF, 33, 0x7FFF_FFFF),
    (I32_ROTL, 0xB0C1_D2E3, 5, 0x183A_5C76),
    (I32_ROTL, 1, 32, 1),
    (I32_ROTR, 0xB0C1_D2E3, 5, 0x1D86_0E97),
    (I32_ROTR, 1, 32, 1),
    (I64_ADD, 0x3FFF_FFFF, 1, 0x4000_0000),
    (I64_ADD, 0x7FFF_FFFF_FFFF_FFFF, 1, 0x8000_0000_0000_0000),
    (I64_SUB, 0x3FFF_FFFF, 0xFFFF_FFFF_FFFF_FFFF, 0x4000_0000),
    (I64_SUB, 0x8000_0000_0000_0000, 1, 0x7FFF_FFFF_FFFF_FFFF),
    (
        I64_MUL,
        0x0123_4567_89AB_CDEF,
        0xFEDC_BA98_7654_3210,
        0x2236_D88F_E561_8CF0,
    ),
    (I64_MUL, GREATEST_64, ALL_64, 0x8000_0000_0000_0001),
    (I64_DIV_S, 0xFFFF_FFFF_FFFF_FFF9, 3, 0xFFFF_FFFF_FFFF_FFFE),
    (I64_DIV_S, 0x8000_0000_0000_0000, 2, 0xC000_0000_0000_0000),
    (I64_DIV_U, 0x8FF0_0FF0_0FF0_0FF0, 0x1_0000_0001, 0x8FF0_0FEF),
    (I64_DIV_U, 0x8000_0000_0000_0000, 0xFFFF_FFFF_FFFF_FFFF, 0),
    (I64_REM_S, 0xFFFF_FFFF_FFFF_FFF9, 3, 0xFFFF_FFFF_FFFF_FFFF),
    (I64_REM_S, 0x8000_0000_0000_0000, 0xFFFF_FFFF_FFFF_FFFF, 0),
    (I64_REM_U, 0x8FF0_0FF0_0FF0_0FF0, 0x1_0000_0001, 0x8000_0001),
    (I64_REM_U, MIN_64, ALL_64, MIN_64),
    (I64_AND, 0xF0F0_FFFF, 0xFFFF_F0F0, 0xF0F0_F0F0),
    (I64_AND, 0x7FFF_FFFF_FFFF_FFFF, 0x8000_0000_0000_0000, 0),
    (I64_OR, 0xF0F0_FFFF, 0xFFFF_F0F0, 0xFFFF_FFFF),
    (I64_OR, GREATEST_64, MIN_64, ALL_64),
    (I64_XOR, 0xF0F0_FFFF, 0xFFFF_F0F0, 0x0F0F_0F0F),
    (I64_XOR, ALL_64, MIN_64, GREATEST_64),
    (I64_SHL, 0x7FFF_FFFF_FFFF_FFFF, 1, 0xFFFF_FFFF_FFFF_FFFE),
    (I64_SHL, 1, 65, 2),
    (I64_SHR_S, 0x4000_0000_0000_0000, 1, 0x2000_0000_0000_0000),
    (I64_SHR_S, 0x8000_0000_0000_0000, 63, 0xFFFF_FFFF_FFFF_FFFF),
    (I64_SHR_U, 0x7FFF_FFFF_FFFF_FFFF, 1, 0x3FFF_FFFF_FFFF_FFFF),
    (I64_SHR_U, 0xFFFF_FFFF_FFFF_FFFF, 65, 0x7FFF_FFFF_FFFF_FFFF),
    (I64_ROTL, 0xABCD_1234_EF56_7809, 53, 0x0135_79A2_469D_EACF),
    (I64_ROTL, 1, 64, 1),
    (I64_ROTR, 0xABCD_1234_EF56_7809, 53, 0x6891_A77A_B3C0_4D5E),
    (I64_ROTR, 1, 64, 1),
];

// Opcode and operands of divisions that trap.
const TRAPS: &[(u8, u64, u64, NumTrap)] = &[
    (I32_DIV_S, 1, 0, NumTrap::DivideByZero),
    (I32_DIV_S, 0x8000_0000, 0, NumTrap::DivideByZero),
    (I32_DIV_S, 0x8000_0000, 0xFFFF_FFFF, NumTrap::Overflow),
    (I32_DIV_U, 1, 0, NumTrap::DivideByZero),
    (I32_REM_S, 1, 0, NumTrap::DivideByZero),
    (I32_REM_S, 0x8000_0000, 0, NumTrap::DivideByZero),
    (I32_REM_U, 1, 0, NumTrap::DivideByZero),
    (I64_DIV_S, 1, 0, NumTrap::DivideByZero),
    (I64_DIV_S, 0x8000_0000_0000_0000, 0, NumTrap::DivideByZero),
    (I64_DIV_S, MIN_64, ALL_64, NumTrap::Overflow),
    (I64_DIV_U, 1, 0, NumTrap::DivideByZero),
    (I64_REM_S, 1, 0, NumTrap::DivideByZero),
    (I64_REM_S, 0x8000_0000_0000_0000, 0, NumTrap::DivideByZero),
    (I64_REM_U, 1, 0, NumTrap::DivideByZero),
];

// A value of 32 bits is below this.
const PAST_I32: u64 = 0x1_0000_0000;

fn test_at(op: u8, a: u64) -> Option<u32> {
    match op {
        I32_EQZ if a < PAST_I32 => Some(test(op, a)),
        I64_EQZ => Some(test(op, a)),
        _ => None,
    }
}

fn unary_at(op: u8, a: u64) -> Option<u64> {
    match op {
        I32_CLZ..=I32_POPCNT if a < PAST_I32 => Some(unary(op, a)),
        I64_CLZ..=I64_POPCNT => Some(unary(op, a)),
        _ => None,
    }
}

fn sign_extension_at(op: u8, a: u64) -> Option<u64> {
    match op {
        I32_EXTEND8_S if a < PAST_I32 => Some(unary(I32_EXTEND8_S, a)),
        I32_EXTEND16_S if a < PAST_I32 => Some(unary(I32_EXTEND16_S, a)),
        I64_EXTEND8_S => Some(unary(I64_EXTEND8_S, a)),
        I64_EXTEND16_S => Some(unary(I64_EXTEND16_S, a)),
        I64_EXTEND32_S => Some(unary(I64_EXTEND32_S, a)),
        _ => None,
    }
}

fn convert_at(op: u8, a: u64) -> Option<u64> {
    match op {
        I64_EXTEND_I32_S | I64_EXTEND_I32_U | I32_REINTERPRET_F32 | F32_REINTERPRET_I32
            if a < PAST_I32 => Some(convert(op, a)),
        I32_WRAP_I64 | I64_REINTERPRET_F64 | F64_REINTERPRET_I64 => Some(convert(op, a)),
        _ => None,
    }
}

// What an instruction gives that counts bits, extends a sign or converts.
fn of_one_at(op: u8, a: u64) -> Option<u64> {
    match (unary_at(op, a), sign_extension_at(op, a)) {
        (Some(result), _) => Some(result),
        (None, Some(result)) => Some(result),
        (None, None) => convert_at(op, a),
    }
}

// What an instruction gives that compares, or one of arithmetic.
fn of_two_at(op: u8, a: u64, b: u64) -> Option<Result<u64, NumTrap>> {
    match op {
        I32_EQ..=I32_GE_U if a < PAST_I32 && b < PAST_I32 => {
            Some(Ok(u64::from(compare(op, a, b))))
        }
        I64_EQ..=I64_GE_U => Some(Ok(u64::from(compare(op, a, b)))),
        I32_ADD..=I32_ROTR if a < PAST_I32 && b < PAST_I32 => Some(binary(op, a, b)),
        I64_ADD..=I64_ROTR => Some(binary(op, a, b)),
        _ => None,
    }
}

/// The first row for another result: its opcode and operand.
fn first_other_test() -> Option<(u8, u64)> {
    for &(op, a, want) in TESTS {
        if test_at(op, a) != Some(want) {
            return Some((op, a));
        }
    }
    None
}

fn first_other_of_one() -> Option<(u8, u64)> {
    for &(op, a, want) in OF_ONE {
        if of_one_at(op, a) != Some(want) {
            return Some((op, a));
        }
    }
    None
}

fn first_other_of_two() -> Option<(u8, u64, u64)> {
    for &(op, a, b, want) in OF_TWO {
        if of_two_at(op, a, b) != Some(Ok(want)) {
            return Some((op, a, b));
        }
    }
    None
}

fn first_other_trap() -> Option<(u8, u64, u64)> {
    for &(op, a, b, want) in TRAPS {
        if of_two_at(op, a, b) != Some(Err(want)) {
            return Some((op, a, b));
        }
    }
    None
}

#[test]
fn tests_of_zero(rt: HostRuntime) {
    assert_eq!(rt; first_other_test(), None);
}

#[test]
fn instructions_on_one_operand(rt: HostRuntime) {
    assert_eq!(rt; first_other_of_one(), None);
}

#[test]
fn instructions_on_two_operands(rt: HostRuntime) {
    assert_eq!(rt; first_other_of_two(), None);
}

#[test]
fn divisions_that_trap(rt: HostRuntime) {
    assert_eq!(rt; first_other_trap(), None);
}
