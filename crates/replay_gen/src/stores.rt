// Stores of bytes.

ghost use Rattle.std.specs.Prelude.{◌≡◌, ◌++◌, ◌≤◌, ◌<◌, length, OnOk};
ghost use Rattle.history_spec.specs.Store.{number_of};
ghost use Rattle.wasm_syntax.specs.declared.instructions.Instr.TheVariants.{Const};
ghost use Rattle.replay_module_spec.specs.Effects.{byte_count, i32_const, store_opcode, store_type, store_widths, stores_code};
ghost use Rattle.replay_gen.specs.Pieces.{store_of, widest};

use base::NoMemory;
use base::opcodes::{I32_STORE, I32_STORE8, I32_STORE16, I64_STORE};
use wasm_syntax::{Instr, MemArg, Val, ValType};

/// The number of instructions of a store.
const IN_STORE: usize = 3;

/// Appends stores of bytes from an address on, the widest first.
pub(crate) fn push_stores(code: &mut Vec<Instr>, address: u32, bytes: &[u8]) -> Result<(), NoMemory>
    ensures { OnOk result (code.new.items
        ≡ code.old.items ++ stores_code (store_widths (length bytes.now)) address bytes.now) }
{
    let mut at = u64::from(address);
    let mut rest = bytes;
    'stores: while !rest.is_empty() {
        let (width, ty, op) = widest_store(rest.len());
        let (part, after) = rest.split_at(width);
        push_store(code, ty, op, at, number_of(part))?;
        at += width as u64;
        rest = after;
    }
    Ok(())
}

/// The width in bytes of the widest store of at most `count` bytes, the type of its value, and its opcode.
fn widest_store(count: usize) -> (usize, ValType, u8)
    requires { 0 < count }
    ensures width { result.0 ≡ byte_count (widest count) }
    ensures ty { result.1 ≡ store_type (widest count) }
    ensures op { result.2 ≡ store_opcode (widest count) }
    ensures within { result.0 ≤ count }
    ensures narrow { result.0 ≤ 8 }
    ensures some { 0 < result.0 }
{
    if count >= 8 {
        (8, ValType::I64, I64_STORE)
    } else if count >= 4 {
        (4, ValType::I32, I32_STORE)
    } else if count >= 2 {
        (2, ValType::I32, I32_STORE16)
    } else {
        (1, ValType::I32, I32_STORE8)
    }
}

/// Appends a store of a number at an address.
fn push_store(
    code: &mut Vec<Instr>,
    ty: ValType,
    op: u8,
    address: u64,
    number: u64,
) -> Result<(), NoMemory>
    ensures { OnOk result (code.new.items ≡ code.old.items ++ store_of ty op address number) }
{
    code.reserve(IN_STORE)?;
    code.push_reserved(i32_const(address));
    code.push_reserved(Instr::Const(Val { ty, bits: number }));
    code.push_reserved(Instr::Store(MemArg {
        op,
        align: 0,
        offset: 0,
    }));
    Ok(())
}

/// `i32.const` of these bits.
pub(crate) fn i32_const(bits: u64) -> Instr
    ensures { result ≡ i32_const bits }
{
    Instr::Const(Val {
        ty: ValType::I32,
        bits,
    })
}

/// The number that bytes encode, the lowest byte first.
fn number_of(bytes: &[u8]) -> u64
    requires { length bytes.now ≤ 8 }
    ensures { result ≡ number_of bytes.now }
{
    let mut word = [0; 8];
    word[..bytes.len()].copy_from_slice(bytes);
    u64::from_le_bytes(word)
}
