// The pieces of code that are inserted. Each function appends its piece; if memory is out, the code has only a
// part of it.

ghost use Rattle.std.specs.Prelude.{◌≡◌, ◌∷◌, [], ◌++◌, Bool, OnOk};
ghost use Rattle.wasm_syntax.specs.Alike.{type_byte};
ghost use Rattle.wasm_syntax.specs.Opcodes as accesses;
ghost use Rattle.record_replay_spec.specs.Insertions.{before_load, before_store, bits_of_local, number, range_operands, reports_global, reports_index, reports_local, reports_number, reports_range, widened};

use crate::sites::BodySite;
use base::NoMemory;
use base::marks::{TYPE_F32, TYPE_F64, TYPE_FUNCREF, TYPE_I32, TYPE_I64};
use base::opcodes::{I32_REINTERPRET_F32, I32_WRAP_I64, I64_EXTEND_I32_U, I64_REINTERPRET_F64};
use module_index::opcodes::Transfer;
use record_replay_spec::Hook;
use wasm_syntax::{Instr, MemArg, Val, ValType};

/// An instruction that pushes an i32.
pub(crate) fn number(bits: u32) -> Instr
    ensures { result ≡ number bits }
{
    Instr::Const(Val {
        ty: ValType::I32,
        bits: u64::from(bits),
    })
}

/// Appends instructions that turn a value on the stack into its bits, as an i64.
fn push_widened(code: &mut Vec<Instr>, ty: ValType) -> Result<(), NoMemory>
    ensures { OnOk result (code.new.items ≡ code.old.items ++ widened ty) }
{
    match ty {
        ValType::I32 => code.push(Instr::Numeric(I64_EXTEND_I32_U))?,
        ValType::F32 => {
            code.push(Instr::Numeric(I32_REINTERPRET_F32))?;
            code.push(Instr::Numeric(I64_EXTEND_I32_U))?;
        }
        ValType::F64 => code.push(Instr::Numeric(I64_REINTERPRET_F64))?,
        ValType::I64 | ValType::FuncRef => {}
    }
    Ok(())
}

/// Appends the bits of a local.
fn push_bits(code: &mut Vec<Instr>, ty: ValType, local: u32) -> Result<(), NoMemory>
    ensures { OnOk result (code.new.items ≡ code.old.items ++ bits_of_local ty local) }
{
    code.push(Instr::LocalGet(local))?;
    push_widened(code, ty)
}

impl<'a> BodySite<'a> {
    /// Appends a hook call that passes the value of a local.
    pub(crate) fn push_local(
        &self,
        code: &mut Vec<Instr>,
        ty: ValType,
        local: u32,
    ) -> Result<(), NoMemory>
        ensures { OnOk result (code.new.items ≡ code.old.items ++ reports_local self.now ty local) }
    {
        code.push(number(type_byte(ty)))?;
        push_bits(code, ty, local)?;
        code.push(self.hook_call(Hook::Arg))?;
        Ok(())
    }

    /// Appends a hook call that passes one number.
    pub(crate) fn push_number(
        &self,
        code: &mut Vec<Instr>,
        kind: Hook,
        bits: u32,
    ) -> Result<(), NoMemory>
        ensures { OnOk result (code.new.items ≡ code.old.items ++ reports_number self.now kind bits) }
    {
        code.push(number(bits))?;
        code.push(self.hook_call(kind))?;
        Ok(())
    }

    /// Appends what is inserted before a load: a hook call with its base, offset and width.
    pub(crate) fn push_load(
        &self,
        code: &mut Vec<Instr>,
        at: MemArg,
        access: Transfer,
    ) -> Result<(), NoMemory>
        ensures { OnOk result ((signed : Bool)
            → code.new.items
            ≡ code.old.items ++ before_load self.now at (accesses.access access.ty access.width signed)) }
    {
        let address = self.address_local();
        code.push(Instr::LocalTee(address))?;
        code.push(number(at.offset))?;
        code.push(number(access.width))?;
        code.push(self.hook_call(Hook::Load))?;
        code.push(Instr::LocalGet(address))?;
        Ok(())
    }

    /// Appends what is inserted before a store: a hook call with its base, offset, width and bits.
    pub(crate) fn push_store(
        &self,
        code: &mut Vec<Instr>,
        at: MemArg,
        access: Transfer,
    ) -> Result<(), NoMemory>
        ensures { OnOk result ((signed : Bool)
            → code.new.items
            ≡ code.old.items ++ before_store self.now at (accesses.access access.ty access.width signed)) }
    {
        let address = self.address_local();
        let value = self.value_local(access.ty);
        code.push(Instr::LocalSet(value))?;
        code.push(Instr::LocalTee(address))?;
        code.push(number(at.offset))?;
        code.push(number(access.width))?;
        push_bits(code, access.ty, value)?;
        code.push(self.hook_call(Hook::Store))?;
        code.push(Instr::LocalGet(address))?;
        code.push(Instr::LocalGet(value))?;
        Ok(())
    }

    /// Appends a hook call that passes a global's value, which is on the stack before and after.
    pub(crate) fn push_global(
        &self,
        code: &mut Vec<Instr>,
        kind: Hook,
        global: u32,
        ty: ValType,
    ) -> Result<(), NoMemory>
        ensures { OnOk result (code.new.items ≡ code.old.items ++ reports_global self.now kind global ty) }
    {
        let value = self.value_local(ty);
        code.push(Instr::LocalSet(value))?;
        code.push(number(global))?;
        push_bits(code, ty, value)?;
        code.push(self.hook_call(kind))?;
        code.push(Instr::LocalGet(value))?;
        Ok(())
    }

    /// Appends the operands of a copy or a fill, from the locals that hold them.
    fn push_operands(&self, code: &mut Vec<Instr>) -> Result<(), NoMemory>
        ensures { OnOk result (code.new.items ≡ code.old.items ++ range_operands self.now) }
    {
        code.push(Instr::LocalGet(self.value_local(ValType::I64)))?;
        code.push(Instr::Numeric(I32_WRAP_I64))?;
        code.push(Instr::LocalGet(self.address_local()))?;
        code.push(Instr::LocalGet(self.value_local(ValType::I32)))?;
        Ok(())
    }

    /// Appends a hook call that passes the operands of a copy or a fill, which are on the stack before and
    /// after.
    pub(crate) fn push_range(&self, code: &mut Vec<Instr>, kind: Hook) -> Result<(), NoMemory>
        ensures { OnOk result (code.new.items ≡ code.old.items ++ reports_range self.now kind) }
    {
        code.push(Instr::LocalSet(self.value_local(ValType::I32)))?;
        code.push(Instr::LocalSet(self.address_local()))?;
        code.push(Instr::Numeric(I64_EXTEND_I32_U))?;
        code.push(Instr::LocalSet(self.value_local(ValType::I64)))?;
        self.push_operands(code)?;
        code.push(self.hook_call(kind))?;
        self.push_operands(code)
    }

    /// Appends a hook call that passes an index or the result of a growth, which is on the stack before and
    /// after.
    pub(crate) fn push_index(&self, code: &mut Vec<Instr>, kind: Hook) -> Result<(), NoMemory>
        ensures { OnOk result (code.new.items ≡ code.old.items ++ reports_index self.now kind) }
    {
        let address = self.address_local();
        code.push(Instr::LocalTee(address))?;
        code.push(self.hook_call(kind))?;
        code.push(Instr::LocalGet(address))?;
        Ok(())
    }
}

/// The byte of a type in the binary format (Core 1.0, 5.3.1; of `funcref`, Core 2.0, 5.3.3).
fn type_byte(ty: ValType) -> u32
    ensures { result ≡ type_byte ty }
{
    u32::from(match ty {
        ValType::I32 => TYPE_I32,
        ValType::I64 => TYPE_I64,
        ValType::F32 => TYPE_F32,
        ValType::F64 => TYPE_F64,
        ValType::FuncRef => TYPE_FUNCREF,
    })
}
