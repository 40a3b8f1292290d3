// Readers of instructions (Core 1.0, 5.4).

ghost use Rattle.std.specs.Prelude.{◌≡◌, ◌≢◌, ◌≤◌, ◌<◌, [], ◌∷◌, option_and_then};
ghost use Rattle.leb_bytes.specs.Unsigned.{first_u32};
ghost use Rattle.wasm_syntax.specs.Encoding.Combinators.{by_mark, first_exactly, first_then, map_read, row_at};
ghost use Rattle.wasm_syntax.specs.Encoding.Readers.{first_indices, first_instr, instr_at, const, mem_arg, prefixed_rows};
ghost use Rattle.wasm_syntax.specs.declared.forms.Form.TheVariants.{Core, Replay};
ghost use Rattle.wasm_syntax.specs.declared.instructions.Instr.TheVariants.{BrTable};
ghost use Rattle.leb_bytes.specs.ReadResults.{Gives};
ghost use Rattle.base.specs.declared.opcodes.TheConstants.{BR, ELSE, END, F64_CONST, GLOBAL_SET, I32_LOAD, I64_EXTEND32_S, LOCAL_GET, MEMORY_COPY, MEMORY_FILL, MEMORY_SIZE, PREFIX, SELECT, TABLE_SET};

use crate::types::first_block_type;
use crate::values::{Read, first_byte, first_f32, first_f64, first_i32, first_i64, first_u32};
use crate::vectors::first_vector;
use base::marks::TYPE_FUNCREF;
use base::opcodes::{
    BLOCK, BR, BR_IF, BR_TABLE, CALL, CALL_INDIRECT, DROP, ELSE, END, F32_CONST, F64_CONST,
    GLOBAL_GET, GLOBAL_SET, I32_CONST, I32_EQZ, I32_LOAD, I32_STORE, I64_CONST, I64_EXTEND32_S,
    I64_LOAD32_U, I64_STORE32, IF, LOCAL_GET, LOCAL_SET, LOCAL_TEE, LOOP, MEMORY_COPY, MEMORY_FILL,
    MEMORY_GROW, MEMORY_SIZE, NOP, PREFIX, REF_FUNC, REF_NULL, RETURN, SELECT, TABLE_GROW,
    TABLE_SET, TABLE_SIZE, UNREACHABLE,
};
use leb_bytes::Unread;
use std::alloc::Global;
use wasm_syntax::{Form, Instr, MemArg, Val, ValType};

// The opcodes between those of `else` and `end`, which no instruction has.
const AFTER_ELSE: u8 = 0x06;

const BEFORE_END: u8 = 0x0a;

// The opcodes between those of `select` and `local.get`, which no instruction has.
const AFTER_SELECT: u8 = 0x1c;

const BEFORE_LOCAL_GET: u8 = 0x1f;

// The opcodes between those of `global.set` and `i32.load`: the replay form has one of them.
const AFTER_GLOBAL_SET: u8 = 0x25;

const BEFORE_I32_LOAD: u8 = 0x27;

/// The byte that ends `call_indirect`, `memory.size`, `memory.grow` and `memory.fill`, and twice `memory.copy` (Core
/// 1.0, 5.4.1 and 5.4.4; Core 2.0, 5.4.6).
const RESERVED: u8 = 0x00;

/// An instruction; `Else` and `End` are read as such.
#[tactic(auto, unfolding(wasm_syntax::specs::Encoding::Readers::first_instr))]
pub(crate) fn first_instr(alloc: Global, form: Form, bytes: &[u8]) -> Read<'_, Instr>
    ensures { Gives (λ read. (read.0, read.1.now)) result (first_instr form bytes.now) }
{
    let (op, rest) = first_byte(bytes)?;
    match op {
        I32_EQZ..=I64_EXTEND32_S => Ok((Instr::Numeric(op), rest)),
        I32_LOAD..=I64_LOAD32_U => {
            let (access, rest) = mem_arg_of(op, rest)?;
            Ok((Instr::Load(access), rest))
        }
        I32_STORE..=I64_STORE32 => {
            let (access, rest) = mem_arg_of(op, rest)?;
            Ok((Instr::Store(access), rest))
        }
        UNREACHABLE..=ELSE => block_instr(form, op, rest),
        AFTER_ELSE..=BEFORE_END => no_block_instr(form, op, rest),
        END => Ok((Instr::End, rest)),
        BR..=SELECT => control_instr(alloc, form, op, rest),
        LOCAL_GET..=GLOBAL_SET => variable_instr(form, op, rest),
        MEMORY_SIZE..=F64_CONST => constant_instr(form, op, rest),
        AFTER_SELECT..=BEFORE_LOCAL_GET => no_parametric_instr(form, op, rest),
        AFTER_GLOBAL_SET..=BEFORE_I32_LOAD => table_instr(form, op, rest),
        _ => late_instr(form, op, rest),
    }
}

/// No instruction has an opcode between those of `select` and `local.get`.
fn no_parametric_instr(form: Form, op: u8, bytes: &[u8]) -> Read<'_, Instr>
    requires low { SELECT < op }
    requires high { op < LOCAL_GET }
    ensures { Gives (λ read. (read.0, read.1.now)) result (by_mark (instr_at form) (op ∷ bytes.now)) }
{
    Err(Unread::NotThere)
}

/// The operand of the load or store of an opcode (Core 1.0, 5.4.4).
fn mem_arg_of(op: u8, bytes: &[u8]) -> Read<'_, MemArg>
    ensures { Gives (λ read. (read.0, read.1.now)) result
        (map_read (mem_arg op) (first_then first_u32 first_u32) bytes.now) }
{
    let (align, rest) = first_u32(bytes)?;
    let (offset, rest) = first_u32(rest)?;
    Ok((MemArg { op, align, offset }, rest))
}

/// No instruction has an opcode between those of `else` and `end`.
fn no_block_instr(form: Form, op: u8, bytes: &[u8]) -> Read<'_, Instr>
    requires low { ELSE < op }
    requires high { op < END }
    ensures { Gives (λ read. (read.0, read.1.now)) result (by_mark (instr_at form) (op ∷ bytes.now)) }
{
    Err(Unread::NotThere)
}

/// The instruction of an opcode up to that of `else`.
fn block_instr(form: Form, op: u8, bytes: &[u8]) -> Read<'_, Instr>
    requires { op ≤ ELSE }
    ensures { Gives (λ read. (read.0, read.1.now)) result (by_mark (instr_at form) (op ∷ bytes.now)) }
{
    match op {
        UNREACHABLE => Ok((Instr::Unreachable, bytes)),
        NOP => Ok((Instr::Nop, bytes)),
        BLOCK => {
            let (ty, rest) = first_block_type(bytes)?;
            Ok((Instr::Block(ty), rest))
        }
        LOOP => {
            let (ty, rest) = first_block_type(bytes)?;
            Ok((Instr::Loop(ty), rest))
        }
        IF => {
            let (ty, rest) = first_block_type(bytes)?;
            Ok((Instr::If(ty), rest))
        }
        _ => Ok((Instr::Else, bytes)),
    }
}

/// The operands of `br_table`.
#[tactic(auto, unfolding(wasm_syntax::specs::Encoding::Readers::first_indices))]
fn br_table_instr(alloc: Global, form: Form, bytes: &[u8]) -> Read<'_, Instr>
    ensures { Gives (λ read. (read.0, read.1.now)) result
        (map_read (λ labels. BrTable labels.0 labels.1) (first_then first_indices first_u32) bytes.now) }
{
    let (labels, rest) = first_vector::<u32>(alloc, form, bytes)?;
    let (default, rest) = first_u32(rest)?;
    Ok((Instr::BrTable(labels, default), rest))
}

/// The instruction of an opcode from that of `br` to that of `select`.
fn control_instr(alloc: Global, form: Form, op: u8, bytes: &[u8]) -> Read<'_, Instr>
    requires low { BR ≤ op }
    requires high { op ≤ SELECT }
    ensures { Gives (λ read. (read.0, read.1.now)) result (by_mark (instr_at form) (op ∷ bytes.now)) }
{
    match op {
        BR => {
            let (label, rest) = first_u32(bytes)?;
            Ok((Instr::Br(label), rest))
        }
        BR_IF => {
            let (label, rest) = first_u32(bytes)?;
            Ok((Instr::BrIf(label), rest))
        }
        BR_TABLE => br_table_instr(alloc, form, bytes),
        RETURN => Ok((Instr::Return, bytes)),
        CALL => {
            let (func, rest) = first_u32(bytes)?;
            Ok((Instr::Call(func), rest))
        }
        CALL_INDIRECT => {
            let (ty, rest) = first_u32(bytes)?;
            Ok((Instr::CallIndirect(ty), rest_after(RESERVED, rest)?))
        }
        DROP => Ok((Instr::Drop, bytes)),
        SELECT => Ok((Instr::Select, bytes)),
        _ => Err(Unread::NotThere),
    }
}

/// The instruction of an opcode from that of `local.get` to that of `global.set`.
fn variable_instr(form: Form, op: u8, bytes: &[u8]) -> Read<'_, Instr>
    requires low { LOCAL_GET ≤ op }
    requires high { op ≤ GLOBAL_SET }
    ensures { Gives (λ read. (read.0, read.1.now)) result (by_mark (instr_at form) (op ∷ bytes.now)) }
{
    let (index, rest) = first_u32(bytes)?;
    match op {
        LOCAL_GET => Ok((Instr::LocalGet(index), rest)),
        LOCAL_SET => Ok((Instr::LocalSet(index), rest)),
        LOCAL_TEE => Ok((Instr::LocalTee(index), rest)),
        GLOBAL_GET => Ok((Instr::GlobalGet(index), rest)),
        _ => Ok((Instr::GlobalSet(index), rest)),
    }
}

/// The instruction of an opcode from that of `memory.size` to that of `f64.const`.
fn constant_instr(form: Form, op: u8, bytes: &[u8]) -> Read<'_, Instr>
    requires low { MEMORY_SIZE ≤ op }
    requires high { op ≤ F64_CONST }
    ensures { Gives (λ read. (read.0, read.1.now)) result (by_mark (instr_at form) (op ∷ bytes.now)) }
{
    match op {
        MEMORY_SIZE => Ok((Instr::MemorySize, rest_after(RESERVED, bytes)?)),
        MEMORY_GROW => Ok((Instr::MemoryGrow, rest_after(RESERVED, bytes)?)),
        I32_CONST => {
            let (bits, rest) = first_i32(bytes)?;
            Ok((constant(ValType::I32, u64::from(bits)), rest))
        }
        I64_CONST => {
            let (bits, rest) = first_i64(bytes)?;
            Ok((constant(ValType::I64, bits), rest))
        }
        F32_CONST => {
            let (bits, rest) = first_f32(bytes)?;
            Ok((constant(ValType::F32, u64::from(bits)), rest))
        }
        _ => {
            let (bits, rest) = first_f64(bytes)?;
            Ok((constant(ValType::F64, bits), rest))
        }
    }
}

/// The instruction of an opcode between those of `global.set` and `i32.load`: `table.set` alone.
fn table_instr(form: Form, op: u8, bytes: &[u8]) -> Read<'_, Instr>
    requires low { GLOBAL_SET < op }
    requires high { op < I32_LOAD }
    ensures { Gives (λ read. (read.0, read.1.now)) result (by_mark (instr_at form) (op ∷ bytes.now)) }
{
    if op == TABLE_SET {
        return table_set_instr(form, bytes);
    }
    Err(Unread::NotThere)
}

/// The instruction of the opcode of `table.set`, which the replay form alone has.
fn table_set_instr(form: Form, bytes: &[u8]) -> Read<'_, Instr>
    ensures { Gives (λ read. (read.0, read.1.now)) result
        (by_mark (instr_at form) (TABLE_SET ∷ bytes.now)) }
{
    match form {
        Form::Core => Err(Unread::NotThere),
        Form::Replay => {
            let (table, rest) = first_u32(bytes)?;
            Ok((Instr::TableSet(table), rest))
        }
    }
}

/// The instruction of an opcode after those of the numeric instructions.
fn late_instr(form: Form, op: u8, bytes: &[u8]) -> Read<'_, Instr>
    requires { I64_EXTEND32_S < op }
    ensures { Gives (λ read. (read.0, read.1.now)) result (by_mark (instr_at form) (op ∷ bytes.now)) }
{
    if op == PREFIX {
        return prefixed_instr(form, bytes);
    }
    match form {
        Form::Core => no_core_instr(op, bytes),
        Form::Replay => reference_instr(op, bytes),
    }
}

/// The core form has no instruction after the numeric ones but those of the prefix.
fn no_core_instr(op: u8, bytes: &[u8]) -> Read<'_, Instr>
    requires late { I64_EXTEND32_S < op }
    requires plain { op ≢ PREFIX }
    ensures { Gives (λ read. (read.0, read.1.now)) result (by_mark (instr_at Core) (op ∷ bytes.now)) }
{
    Err(Unread::NotThere)
}

/// The instruction of an opcode after those of the numeric instructions, in the replay form, without the prefix.
fn reference_instr(op: u8, bytes: &[u8]) -> Read<'_, Instr>
    requires late { I64_EXTEND32_S < op }
    requires plain { op ≢ PREFIX }
    ensures { Gives (λ read. (read.0, read.1.now)) result (by_mark (instr_at Replay) (op ∷ bytes.now)) }
{
    match op {
        REF_NULL => Ok((Instr::RefNull, rest_after(TYPE_FUNCREF, bytes)?)),
        REF_FUNC => {
            let (func, rest) = first_u32(bytes)?;
            Ok((Instr::RefFunc(func), rest))
        }
        _ => Err(Unread::NotThere),
    }
}

/// The instruction of the prefix and the number after it (Core 2.0, 5.4.5 and 5.4.6).
fn prefixed_instr(form: Form, bytes: &[u8]) -> Read<'_, Instr>
    ensures { Gives (λ read. (read.0, read.1.now)) result
        (by_mark (instr_at form) (PREFIX ∷ bytes.now)) }
{
    let (number, rest) = first_u32(bytes)?;
    numbered_instr(form, number, rest)
}

/// The instruction of a number after the prefix.
fn numbered_instr(form: Form, number: u32, bytes: &[u8]) -> Read<'_, Instr>
    ensures { Gives (λ read. (read.0, read.1.now)) result
        (option_and_then (λ read. read bytes.now) (row_at (prefixed_rows form) number)) }
{
    match number {
        MEMORY_COPY => Ok((Instr::MemoryCopy, rest_after_two(bytes)?)),
        MEMORY_FILL => Ok((Instr::MemoryFill, rest_after(RESERVED, bytes)?)),
        _ => numbered_table_instr(form, number, bytes),
    }
}

/// The instruction of another number after the prefix: the replay form alone has some.
fn numbered_table_instr(form: Form, number: u32, bytes: &[u8]) -> Read<'_, Instr>
    requires no_copy { number ≢ MEMORY_COPY }
    requires no_fill { number ≢ MEMORY_FILL }
    ensures { Gives (λ read. (read.0, read.1.now)) result
        (option_and_then (λ read. read bytes.now) (row_at (prefixed_rows form) number)) }
{
    match form {
        Form::Core => Err(Unread::NotThere),
        Form::Replay => replay_table_instr(number, bytes),
    }
}

/// The instruction of another number after the prefix, in the replay form.
fn replay_table_instr(number: u32, bytes: &[u8]) -> Read<'_, Instr>
    requires no_copy { number ≢ MEMORY_COPY }
    requires no_fill { number ≢ MEMORY_FILL }
    ensures { Gives (λ read. (read.0, read.1.now)) result
        (option_and_then (λ read. read bytes.now) (row_at (prefixed_rows Replay) number)) }
{
    match number {
        TABLE_GROW => {
            let (table, rest) = first_u32(bytes)?;
            Ok((Instr::TableGrow(table), rest))
        }
        TABLE_SIZE => {
            let (table, rest) = first_u32(bytes)?;
            Ok((Instr::TableSize(table), rest))
        }
        _ => Err(Unread::NotThere),
    }
}

/// The instruction that pushes a value.
fn constant(ty: ValType, bits: u64) -> Instr
    ensures { result ≡ const ty bits }
{
    Instr::Const(Val { ty, bits })
}

/// What comes after this byte, if it comes first.
fn rest_after(byte: u8, bytes: &[u8]) -> Result<&[u8], Unread>
    ensures { Gives (λ rest. (tt, rest.now)) result (first_exactly (byte ∷ []) bytes.now) }
{
    let (found, rest) = first_byte(bytes)?;
    if found != byte {
        return Err(Unread::NotThere);
    }
    Ok(rest)
}

/// What comes after the two bytes that end `memory.copy`, if they come first.
fn rest_after_two(bytes: &[u8]) -> Result<&[u8], Unread>
    ensures { Gives (λ rest. (tt, rest.now)) result (first_exactly (0x00 ∷ 0x00 ∷ []) bytes.now) }
{
    rest_after(RESERVED, rest_after(RESERVED, bytes)?)
}
