// The operands and the results of instructions, as a history contains them.

ghost use Rattle.std.specs.Prelude.{◌≡◌, ℕ, ◌+◌, ◌^◌, ◌<◌, ◌≤◌, List, [], ◌∷◌, ◌++◌, length, true, IfOk, OnOk, IsSome, slice_get, option_to_list};
ghost use Rattle.wasm_syntax.specs.Opcodes.{load_of, store_of, numeric_shape};
ghost use Rattle.wasm_flat.specs.Slots as slot_types;
ghost use Rattle.wasm_flat.specs.Slots.{operands_of_shape, result_of_shape, types_of_access, params_of};
ghost use Rattle.wasm_numeric.specs.Opcode.{Test, Compare, Unary, Binary, Convert, kind_of};
ghost use Rattle.wasm_interp.specs.OpcodeTypes.{operand_by, result_by, is_integer, takes_one, takes_two};
ghost use Rattle.flat_steps.specs.FlatStep.{values_at};
ghost use Rattle.wasm_interp.specs.Steps.{IsTypedOp};

use crate::values::{param_types, push_values};
use base::NoMemory;
use base::opcodes::{
    F32_LOAD, F32_REINTERPRET_I32, F32_STORE, F64_GE, F64_LOAD, F64_REINTERPRET_I64, F64_STORE,
    I32_EXTEND8_S, I32_EXTEND16_S, I32_GE_U, I32_LOAD, I32_LOAD8_S, I32_LOAD8_U, I32_LOAD16_S,
    I32_LOAD16_U, I32_REINTERPRET_F32, I32_ROTR, I32_STORE, I32_STORE8, I32_STORE16, I32_WRAP_I64,
    I64_EXTEND8_S, I64_REINTERPRET_F64, I64_ROTR,
};
use wasm_flat::{Flat, Op};
use wasm_syntax::{Val, ValType};

/// The type of each operand of a numeric instruction on integers.
fn operand_type(opcode: u8) -> ValType
    ensures { result ≡ operand_by opcode }
{
    if opcode <= I32_GE_U {
        ValType::I32
    } else if opcode <= F64_GE {
        ValType::I64
    } else if opcode <= I32_ROTR {
        ValType::I32
    } else if opcode <= I64_ROTR {
        ValType::I64
    } else if opcode == I32_WRAP_I64 || opcode == F64_REINTERPRET_I64 {
        ValType::I64
    } else if opcode == I32_REINTERPRET_F32 {
        ValType::F32
    } else if opcode == I64_REINTERPRET_F64 {
        ValType::F64
    } else if I64_EXTEND8_S <= opcode {
        ValType::I64
    } else {
        ValType::I32
    }
}

/// The type of the result of a numeric instruction on integers.
fn result_type(opcode: u8) -> ValType
    ensures { result ≡ result_by opcode }
{
    if opcode <= F64_GE {
        ValType::I32
    } else if opcode <= I32_ROTR {
        ValType::I32
    } else if opcode <= I64_ROTR {
        ValType::I64
    } else if opcode == I32_WRAP_I64 || opcode == I32_REINTERPRET_F32 {
        ValType::I32
    } else if opcode == I32_EXTEND8_S || opcode == I32_EXTEND16_S {
        ValType::I32
    } else if opcode == F32_REINTERPRET_I32 {
        ValType::F32
    } else if opcode == F64_REINTERPRET_I64 {
        ValType::F64
    } else {
        ValType::I64
    }
}

/// The type of the value that a load reads.
fn load_type(opcode: u8) -> ValType
    requires { IsSome (load_of opcode) }
    ensures { types_of_access (load_of opcode) ≡ result ∷ [] }
{
    match opcode {
        I32_LOAD | I32_LOAD8_S | I32_LOAD8_U | I32_LOAD16_S | I32_LOAD16_U => ValType::I32,
        F32_LOAD => ValType::F32,
        F64_LOAD => ValType::F64,
        _ => ValType::I64,
    }
}

/// The type of the value that a store writes.
fn store_type(opcode: u8) -> ValType
    requires { IsSome (store_of opcode) }
    ensures { types_of_access (store_of opcode) ≡ result ∷ [] }
{
    match opcode {
        I32_STORE | I32_STORE8 | I32_STORE16 => ValType::I32,
        F32_STORE => ValType::F32,
        F64_STORE => ValType::F64,
        _ => ValType::I64,
    }
}

/// Appends the operands of a call through the table by a type: the arguments, and the index.
fn push_indirect(
    flat: &Flat,
    ty: u32,
    slots: &[u64],
    at: usize,
    values: &mut Vec<Val>,
) -> Result<(), NoMemory>
    requires { at < 2 ^ 63 }
    ensures { OnOk result (values.new.items
        ≡ values.old.items ++ values_at slots.now at (params_of (slice_get flat.now.types ty) ++ ValType.I32 ∷ [])) }
{
    let params = params_at(flat, ty);
    push_values(slots, at, params, values)?;
    push_values(slots, at + params.len(), &[ValType::I32], values)
}

/// Appends the operands of an instruction whose first slot is given; after a refusal, some of them.
pub(crate) fn push_operands(
    flat: &Flat,
    op: &Op,
    slots: &[u64],
    at: usize,
    values: &mut Vec<Val>,
) -> Result<(), NoMemory>
    requires typed { IsTypedOp op.now }
    requires small { at < 2 ^ 63 }
    ensures { OnOk result (values.new.items ≡ values.old.items
        ++ values_at slots.now at (slot_types.operand_types flat.now.types flat.now.indices op.now)) }
{
    match op {
        Op::Choose { .. } | Op::Branch { .. } | Op::Switch { .. } => {
            push_values(slots, at, &[ValType::I32], values)
        }
        Op::Load { .. } | Op::MemoryGrow => push_values(slots, at, &[ValType::I32], values),
        Op::Call { func } => push_values(slots, at, param_types(flat, *func), values),
        Op::CallIndirect { ty } => push_indirect(flat, *ty, slots, at, values),
        Op::Drop { ty } | Op::GlobalSet { ty, .. } => push_values(slots, at, &[*ty], values),
        Op::LocalSet { ty, .. } | Op::LocalTee { ty, .. } => push_values(slots, at, &[*ty], values),
        Op::Select { ty } => push_values(slots, at, &[*ty, *ty, ValType::I32], values),
        Op::Store { op, .. } => push_values(slots, at, &[ValType::I32, store_type(*op)], values),
        Op::Test { op } | Op::Unary { op } => push_one(*op, slots, at, values),
        Op::Convert { op } => push_one(*op, slots, at, values),
        Op::Compare { op } | Op::Binary { op } => push_two(*op, slots, at, values),
        Op::MemoryCopy | Op::MemoryFill => push_values(
            slots,
            at,
            &[ValType::I32, ValType::I32, ValType::I32],
            values,
        ),
        Op::TableSet => push_values(slots, at, &[ValType::I32, ValType::FuncRef], values),
        Op::TableGrow => push_values(slots, at, &[ValType::FuncRef, ValType::I32], values),
        _ => Ok(()),
    }
}

/// The type of the result of an instruction, if it has one.
pub(crate) fn result_of(op: &Op) -> Option<ValType>
    requires typed { IsTypedOp op.now }
    ensures { slot_types.result_types op.now ≡ option_to_list result }
{
    match op {
        Op::Select { ty } | Op::LocalGet { ty, .. } => Some(*ty),
        Op::LocalTee { ty, .. } | Op::GlobalGet { ty, .. } => Some(*ty),
        Op::Load { op, .. } => Some(load_type(*op)),
        Op::MemorySize | Op::MemoryGrow => Some(ValType::I32),
        Op::TableGrow | Op::TableSize => Some(ValType::I32),
        Op::Const { value } => Some(value.ty),
        Op::Test { op } | Op::Compare { op } => numeric_result(*op),
        Op::Unary { op } | Op::Binary { op } => numeric_result(*op),
        Op::Convert { op } => numeric_result(*op),
        _ => None,
    }
}

/// Appends the result in a slot, if there is one.
#[inline(always)]
pub(crate) fn push_result(
    ty: Option<ValType>,
    slots: &[u64],
    at: usize,
    values: &mut Vec<Val>,
) -> Result<(), NoMemory>
    requires { at < 2 ^ 63 }
    ensures { OnOk result (values.new.items ≡ values.old.items ++ values_at slots.now at (option_to_list ty)) }
{
    match ty {
        Some(ty) => push_values(slots, at, &[ty], values),
        None => Ok(()),
    }
}

/// The parameters of a type.
fn params_at(flat: &Flat, ty: u32) -> &[ValType]
    ensures { result.now ≡ params_of (slice_get flat.now.types ty) }
{
    match flat.types.as_slice().get(ty as usize) {
        None => &[],
        Some(found) => found.params.as_slice(),
    }
}

/// The type of the result of a numeric instruction; there is one.
#[inline(always)]
#[tactic(auto, using(crate::proofs::Opcodes::numeric_result))]
pub(crate) fn numeric_result(opcode: u8) -> Option<ValType>
    requires { is_integer (kind_of opcode) ≡ true }
    ensures { result_of_shape (numeric_shape opcode) ≡ option_to_list result }
{
    Some(result_type(opcode))
}

/// Appends the operand of a numeric instruction that takes one.
#[tactic(auto, using(crate::proofs::Opcodes::one_operand))]
fn push_one(opcode: u8, slots: &[u64], at: usize, values: &mut Vec<Val>) -> Result<(), NoMemory>
    requires one { takes_one (kind_of opcode) ≡ true }
    requires small { at < 2 ^ 63 }
    ensures { OnOk result (values.new.items
        ≡ values.old.items ++ values_at slots.now at (operands_of_shape (numeric_shape opcode))) }
{
    push_values(slots, at, &[operand_type(opcode)], values)
}

/// Appends the operands of a numeric instruction that takes two.
#[tactic(auto, using(crate::proofs::Opcodes::two_operands))]
#[inline(always)]
pub(crate) fn push_two(
    opcode: u8,
    slots: &[u64],
    at: usize,
    values: &mut Vec<Val>,
) -> Result<(), NoMemory>
    requires two { takes_two (kind_of opcode) ≡ true }
    requires small { at < 2 ^ 63 }
    ensures { OnOk result (values.new.items
        ≡ values.old.items ++ values_at slots.now at (operands_of_shape (numeric_shape opcode))) }
{
    let ty = operand_type(opcode);
    push_values(slots, at, &[ty, ty], values)
}
