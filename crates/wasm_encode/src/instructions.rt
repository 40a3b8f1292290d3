// Instructions and bodies (Core 1.0, 5.4).

ghost use Rattle.std.specs.Prelude.{◌≡◌, ℕ, ◌^◌, ◌<◌, ◌≤◌, ◌++◌, ◌∷◌, [], length, OnOk};
ghost use Rattle.std.specs.Int.{w32, cast_signed};
ghost use Rattle.std.specs.List.{AllByRecursion};
ghost use Rattle.leb_bytes.specs.Signed.{i32_bytes, i64_bytes};
ghost use Rattle.leb_bytes.specs.Unsigned.{u32_bytes};
ghost use Rattle.wasm_encode.specs.Lengths.{at_most_u64};
ghost use Rattle.wasm_encode.specs.NotEmpty.{instr_some};
ghost use Rattle.wasm_syntax.specs.Encoding.Encodable.{FitsConst, FitsInstr, FitsU32};
ghost use Rattle.wasm_syntax.specs.Encoding.Shortest.{access_bytes, body_bytes, const_bytes, instr_bytes};
ghost use Rattle.wasm_syntax.specs.declared.forms.Form.TheVariants.{Replay};
ghost use Rattle.wasm_syntax.specs.declared.instructions.Instr.TheVariants.{BrTable, CallIndirect, MemoryCopy, MemoryFill};
ghost use Rattle.base.specs.declared.opcodes.TheConstants.{PREFIX};

use crate::encoding::Encoding;
use crate::kinds::Indices;
use crate::lengths::{i64_length, u32_length};
use crate::parts::{push_byte, push_marked, push_pair};
use crate::types::block_type_byte;
use crate::vectors::{items_length, vector_length, write_items, write_vector};
use base::NoMemory;
use base::marks::TYPE_FUNCREF;
use base::opcodes::{
    BLOCK, BR, BR_IF, BR_TABLE, CALL, CALL_INDIRECT, DROP, ELSE, END, F32_CONST, F64_CONST,
    GLOBAL_GET, GLOBAL_SET, I32_CONST, I64_CONST, IF, LOCAL_GET, LOCAL_SET, LOCAL_TEE, LOOP,
    MEMORY_COPY, MEMORY_FILL, MEMORY_GROW, MEMORY_SIZE, NOP, PREFIX, REF_FUNC, REF_NULL, RETURN,
    SELECT, TABLE_GROW, TABLE_SET, TABLE_SIZE, UNREACHABLE,
};
use leb_bytes::{push_i64, push_u32};
use wasm_syntax::{Body, Instr, Labels, MemArg, Val, ValType};

/// The byte that ends `call_indirect`, `memory.size`, `memory.grow` and `memory.fill`, and twice `memory.copy` (Core
/// 1.0, 5.4.1 and 5.4.4; Core 2.0, 5.4.6).
const RESERVED: u8 = 0x00;

/// Instructions (Core 1.0, 5.4).
pub(crate) struct Instrs;

#[tactic(auto, unfolding(wasm_syntax::specs::Encoding::Shortest::instr_bytes))]
impl Encoding for Instrs {
    type Item = Instr;

    ghost bytes = { instr_bytes };

    ghost fits = { FitsInstr Replay };

    fn length(item: &Instr) -> u64 {
        match item {
            Instr::Block(_) | Instr::Loop(_) | Instr::If(_) => 2,
            Instr::BrTable(labels, default) => table_length(labels, *default),
            Instr::CallIndirect(ty) => 2 + u32_length(u64::from(*ty)),
            Instr::Br(index)
            | Instr::BrIf(index)
            | Instr::Call(index)
            | Instr::LocalGet(index)
            | Instr::LocalSet(index)
            | Instr::LocalTee(index)
            | Instr::GlobalGet(index)
            | Instr::GlobalSet(index)
            | Instr::RefFunc(index)
            | Instr::TableSet(index) => 1 + u32_length(u64::from(*index)),
            Instr::TableGrow(table) | Instr::TableSize(table) => 2 + u32_length(u64::from(*table)),
            Instr::Load(access) | Instr::Store(access) => access_length(*access),
            Instr::Const(value) => const_length(*value),
            Instr::MemorySize | Instr::MemoryGrow | Instr::RefNull => 2,
            Instr::MemoryCopy => 4,
            Instr::MemoryFill => 3,
            _ => 1,
        }
    }

    fn write(item: &Instr, out: &mut Vec<u8>) -> Result<(), NoMemory> {
        match item {
            Instr::Unreachable => push_byte(out, UNREACHABLE),
            Instr::Nop => push_byte(out, NOP),
            Instr::Block(ty) => push_pair(out, BLOCK, block_type_byte(*ty)),
            Instr::Loop(ty) => push_pair(out, LOOP, block_type_byte(*ty)),
            Instr::If(ty) => push_pair(out, IF, block_type_byte(*ty)),
            Instr::Else => push_byte(out, ELSE),
            Instr::End => push_byte(out, END),
            Instr::Br(label) => push_marked(out, BR, *label),
            Instr::BrIf(label) => push_marked(out, BR_IF, *label),
            Instr::BrTable(labels, default) => write_table(labels, *default, out),
            Instr::Return => push_byte(out, RETURN),
            Instr::Call(func) => push_marked(out, CALL, *func),
            Instr::CallIndirect(ty) => write_call_indirect(*ty, out),
            Instr::Drop => push_byte(out, DROP),
            Instr::Select => push_byte(out, SELECT),
            Instr::LocalGet(local) => push_marked(out, LOCAL_GET, *local),
            Instr::LocalSet(local) => push_marked(out, LOCAL_SET, *local),
            Instr::LocalTee(local) => push_marked(out, LOCAL_TEE, *local),
            Instr::GlobalGet(global) => push_marked(out, GLOBAL_GET, *global),
            Instr::GlobalSet(global) => push_marked(out, GLOBAL_SET, *global),
            Instr::Load(access) | Instr::Store(access) => write_access(*access, out),
            Instr::MemorySize => push_pair(out, MEMORY_SIZE, RESERVED),
            Instr::MemoryGrow => push_pair(out, MEMORY_GROW, RESERVED),
            Instr::MemoryCopy => write_memory_copy(out),
            Instr::MemoryFill => write_memory_fill(out),
            Instr::Const(value) => write_const(*value, out),
            Instr::Numeric(op) => push_byte(out, *op),
            Instr::TableSet(table) => push_marked(out, TABLE_SET, *table),
            Instr::RefNull => push_pair(out, REF_NULL, TYPE_FUNCREF),
            Instr::RefFunc(func) => push_marked(out, REF_FUNC, *func),
            Instr::TableGrow(table) => push_prefixed(out, TABLE_GROW, *table),
            Instr::TableSize(table) => push_prefixed(out, TABLE_SIZE, *table),
        }
    }

    ghost some = { instr_some };
}

/// The number of bytes of a body.
pub(crate) fn body_length(body: &Body) -> u64
    requires { AllByRecursion (FitsInstr Replay) body.now }
    ensures { result ≡ at_most_u64 (length (body_bytes body.now)) }
{
    items_length::<Instrs>(body.as_slice())
}

/// Appends a body.
pub(crate) fn write_body(body: &Body, out: &mut Vec<u8>) -> Result<(), NoMemory>
    requires fits { AllByRecursion (FitsInstr Replay) body.now }
    requires sizes { length (body_bytes body.now) < 2 ^ 32 }
    ensures { OnOk result (out.new.items ≡ out.old.items ++ body_bytes body.now) }
{
    write_items::<Instrs>(body.as_slice(), out)
}

/// The number of bytes of a `br_table`.
#[tactic(auto, unfolding(wasm_syntax::specs::Encoding::Shortest::instr_bytes))]
fn table_length(labels: &Labels, default: u32) -> u64
    requires { AllByRecursion FitsU32 labels.now }
    ensures { result ≡ at_most_u64 (length (instr_bytes (BrTable labels.now default))) }
{
    let last = u32_length(u64::from(default));
    vector_length::<Indices>(labels.as_slice()).saturating_add(1 + last)
}

/// Appends a `br_table`.
#[tactic(auto, unfolding(wasm_syntax::specs::Encoding::Shortest::instr_bytes))]
fn write_table(labels: &Labels, default: u32, out: &mut Vec<u8>) -> Result<(), NoMemory>
    requires fits { AllByRecursion FitsU32 labels.now }
    requires sizes { length (instr_bytes (BrTable labels.now default)) < 2 ^ 32 }
    ensures { OnOk result
        (out.new.items ≡ out.old.items ++ instr_bytes (BrTable labels.now default)) }
{
    push_byte(out, BR_TABLE)?;
    write_vector::<Indices>(labels.as_slice(), out)?;
    push_u32(out, default)
}

/// Appends a `call_indirect`.
#[tactic(auto, unfolding(wasm_syntax::specs::Encoding::Shortest::instr_bytes))]
fn write_call_indirect(ty: u32, out: &mut Vec<u8>) -> Result<(), NoMemory>
    ensures { OnOk result (out.new.items ≡ out.old.items ++ instr_bytes (CallIndirect ty)) }
{
    push_marked(out, CALL_INDIRECT, ty)?;
    push_byte(out, RESERVED)
}

/// Appends a `memory.copy`.
#[tactic(auto, unfolding(wasm_syntax::specs::Encoding::Shortest::instr_bytes))]
fn write_memory_copy(out: &mut Vec<u8>) -> Result<(), NoMemory>
    ensures { OnOk result (out.new.items ≡ out.old.items ++ instr_bytes MemoryCopy) }
{
    push_marked(out, PREFIX, MEMORY_COPY)?;
    push_pair(out, RESERVED, RESERVED)
}

/// Appends a `memory.fill`.
#[tactic(auto, unfolding(wasm_syntax::specs::Encoding::Shortest::instr_bytes))]
fn write_memory_fill(out: &mut Vec<u8>) -> Result<(), NoMemory>
    ensures { OnOk result (out.new.items ≡ out.old.items ++ instr_bytes MemoryFill) }
{
    push_marked(out, PREFIX, MEMORY_FILL)?;
    push_byte(out, RESERVED)
}

/// Appends the instruction of the prefix and a number, with an index (Core 2.0, 5.4.5).
fn push_prefixed(out: &mut Vec<u8>, number: u32, index: u32) -> Result<(), NoMemory>
    ensures { OnOk result
        (out.new.items ≡ out.old.items ++ PREFIX ∷ (u32_bytes number ++ u32_bytes index)) }
{
    push_marked(out, PREFIX, number)?;
    push_u32(out, index)
}

/// The number of bytes of a load or a store.
fn access_length(access: MemArg) -> u64
    ensures length { result ≡ length (access_bytes access) }
    ensures few { result ≤ 11 }
{
    1 + u32_length(u64::from(access.align)) + u32_length(u64::from(access.offset))
}

/// Appends a load or a store.
fn write_access(access: MemArg, out: &mut Vec<u8>) -> Result<(), NoMemory>
    ensures { OnOk result (out.new.items ≡ out.old.items ++ access_bytes access) }
{
    push_marked(out, access.op, access.align)?;
    push_u32(out, access.offset)
}

/// The number of bytes of a constant.
#[tactic(auto, unfolding(wasm_syntax::specs::Encoding::Shortest::const_bytes))]
fn const_length(value: Val) -> u64
    requires { FitsConst value.ty value.bits }
    ensures length { result ≡ length (const_bytes value.ty value.bits) }
    ensures few { result ≤ 11 }
{
    match value.ty {
        ValType::I32 => 1 + i32_bits_length(value.bits),
        ValType::I64 => 1 + i64_bits_length(value.bits),
        ValType::F32 => 5,
        ValType::F64 => 9,
        ValType::FuncRef => 0,
    }
}

/// Appends a constant.
#[tactic(auto, unfolding(wasm_syntax::specs::Encoding::Shortest::const_bytes))]
fn write_const(value: Val, out: &mut Vec<u8>) -> Result<(), NoMemory>
    requires { FitsConst value.ty value.bits }
    ensures { OnOk result (out.new.items ≡ out.old.items ++ const_bytes value.ty value.bits) }
{
    match value.ty {
        ValType::I32 => {
            push_byte(out, I32_CONST)?;
            push_i32_bits(out, value.bits)
        }
        ValType::I64 => {
            push_byte(out, I64_CONST)?;
            push_i64_bits(out, value.bits)
        }
        ValType::F32 => {
            push_byte(out, F32_CONST)?;
            out.extend_from_slice(&(value.bits as u32).to_le_bytes())?;
            Ok(())
        }
        ValType::F64 => {
            push_byte(out, F64_CONST)?;
            out.extend_from_slice(&value.bits.to_le_bytes())?;
            Ok(())
        }
        ValType::FuncRef => Ok(()),
    }
}

/// The number of bytes of the bits of an i32, as an s32.
#[tactic(auto, unfolding(leb_bytes::specs::Signed::i32_bytes))]
fn i32_bits_length(bits: u64) -> u64
    requires { bits < 2 ^ 32 }
    ensures length { result ≡ length (i32_bytes bits) }
    ensures few { result ≤ 10 }
{
    i64_length(signed_of_i32(bits))
}

/// The number of bytes of the bits of an i64, as an s64.
#[tactic(auto, unfolding(leb_bytes::specs::Signed::i64_bytes))]
fn i64_bits_length(bits: u64) -> u64
    ensures length { result ≡ length (i64_bytes bits) }
    ensures few { result ≤ 10 }
{
    i64_length(bits.cast_signed())
}

/// Appends the bits of an i32, as an s32.
#[tactic(auto, unfolding(leb_bytes::specs::Signed::i32_bytes))]
fn push_i32_bits(out: &mut Vec<u8>, bits: u64) -> Result<(), NoMemory>
    requires { bits < 2 ^ 32 }
    ensures { OnOk result (out.new.items ≡ out.old.items ++ i32_bytes bits) }
{
    push_i64(out, signed_of_i32(bits))
}

/// Appends the bits of an i64, as an s64.
#[tactic(auto, unfolding(leb_bytes::specs::Signed::i64_bytes))]
fn push_i64_bits(out: &mut Vec<u8>, bits: u64) -> Result<(), NoMemory>
    ensures { OnOk result (out.new.items ≡ out.old.items ++ i64_bytes bits) }
{
    push_i64(out, bits.cast_signed())
}

/// The number whose two's complement has the bits of an i32.
fn signed_of_i32(bits: u64) -> i64
    requires { bits < 2 ^ 32 }
    ensures { result ≡ cast_signed w32 bits }
{
    i64::from((bits as u32).cast_signed())
}
