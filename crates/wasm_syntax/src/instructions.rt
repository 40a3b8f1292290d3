// Instructions and bodies.

use crate::lists::List;
use crate::values::{Val, ValType};

/// One instruction of a flat body (Core 1.0, 2.4; of Core 2.0 the sign extensions, `memory.copy` and
/// `memory.fill`, 2.4.1 and 2.4.7). `Numeric` holds an opcode from 0x45 to 0xC4 (Core 1.0, 5.4.5;
/// Core 2.0, 5.4.7). The last five are forms of Core 2.0 that the replay form alone spells.
#[derive(Debug, Drop)]
pub enum Instr {
    Unreachable,
    Nop,
    Block(Option<ValType>),
    Loop(Option<ValType>),
    If(Option<ValType>),
    Else,
    End,
    Br(u32),
    BrIf(u32),
    BrTable(Labels, u32),
    Return,
    Call(u32),
    CallIndirect(u32),
    Drop,
    Select,
    LocalGet(u32),
    LocalSet(u32),
    LocalTee(u32),
    GlobalGet(u32),
    GlobalSet(u32),
    Load(MemArg),
    Store(MemArg),
    MemorySize,
    MemoryGrow,
    MemoryCopy,
    MemoryFill,
    Const(Val),
    Numeric(u8),
    RefNull,
    RefFunc(u32),
    TableSet(u32),
    TableGrow(u32),
    TableSize(u32),
}

/// The operand of a load or store (Core 1.0, 2.4.4): its opcode from 0x28 to 0x3E, the base 2
/// logarithm of its alignment in bytes, and its offset in bytes.
#[derive(Clone, Copy, PartialEq, Eq, Debug)]
pub struct MemArg {
    pub op: u8,
    pub align: u32,
    pub offset: u32,
}

/// Label indices of a `br_table`.
pub type Labels = List<u32>;

/// The instructions of a function or a constant expression; the last is its own `End`
/// (Core 1.0, 2.4.6).
pub type Body = List<Instr>;
