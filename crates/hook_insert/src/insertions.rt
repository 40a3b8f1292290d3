// The instructions inserted before and after an instruction.

ghost use Rattle.std.specs.Prelude.{◌≡◌, ◌∷◌, [], ◌++◌, slice_get, cond, OnOk};
ghost use Rattle.wasm_syntax.specs.Index.{all_globals, func_type as type_of_func, type_at};
ghost use Rattle.wasm_syntax.specs.Opcodes.{load_of, store_of};
ghost use Rattle.record_replay_spec.specs.declared.hooks.Hook.TheVariants.{Gget, Gset};
ghost use Rattle.record_replay_spec.specs.Hooks.{on};
ghost use Rattle.record_replay_spec.specs.Insertions.{after_call, calls, before_load, before_store, inserted_after, inserted_before, reports_global};
ghost use Rattle.hook_insert.specs.declared.insertions.Over.TheVariants as over;
ghost use Rattle.hook_insert.specs.Rounds.{over_piece};

use crate::sites::BodySite;
use base::NoMemory;
use module_index::opcodes::{load, store};
use record_replay_spec::Hook;
use wasm_syntax::{Instr, MemArg, ValType};

/// The call that ends: of the function of an index, or one by the table.
#[derive(Clone, Copy)]
pub(crate) enum Over {
    Direct(u32),
    Indirect,
}

impl<'a> BodySite<'a> {
    /// Appends what is inserted before an instruction.
    pub(crate) fn push_before(&self, code: &mut Vec<Instr>, instr: &Instr) -> Result<(), NoMemory>
        ensures { OnOk result (code.new.items ≡ code.old.items ++ inserted_before self.now instr.now) }
    {
        match instr {
            Instr::Return => self.push_number(code, Hook::Leave, self.func()),
            Instr::Call(func) => self.push_number(code, Hook::Pre, *func),
            Instr::CallIndirect(_) => self.push_index(code, Hook::Ipre),
            Instr::Load(at) => self.push_before_load(code, *at),
            Instr::Store(at) => self.push_before_store(code, *at),
            Instr::MemorySize => self.push_call(code, Hook::Size),
            Instr::GlobalSet(global) => self.push_before_set(code, *global),
            Instr::MemoryCopy => self.push_range(code, Hook::Copy),
            Instr::MemoryFill => self.push_range(code, Hook::Fill),
            _ => Ok(()),
        }
    }

    /// Appends a call of a hook without parameters.
    fn push_call(&self, code: &mut Vec<Instr>, kind: Hook) -> Result<(), NoMemory>
        ensures { OnOk result (code.new.items ≡ code.old.items ++ calls self.now kind ∷ []) }
    {
        code.push(self.hook_call(kind))?;
        Ok(())
    }

    /// Appends what is inserted before a load, if the opcode is one.
    fn push_before_load(&self, code: &mut Vec<Instr>, at: MemArg) -> Result<(), NoMemory>
        ensures { OnOk result (code.new.items ≡ code.old.items ++ on (load_of at.op) (before_load self.now at)) }
    {
        match load(at.op) {
            Some(access) => self.push_load(code, at, access),
            None => Ok(()),
        }
    }

    /// Appends what is inserted before a store, if the opcode is one.
    fn push_before_store(&self, code: &mut Vec<Instr>, at: MemArg) -> Result<(), NoMemory>
        ensures { OnOk result (code.new.items ≡ code.old.items ++ on (store_of at.op) (before_store self.now at)) }
    {
        match store(at.op) {
            Some(access) => self.push_store(code, at, access),
            None => Ok(()),
        }
    }

    /// Appends what is inserted before a global is set, if the global exists.
    fn push_before_set(&self, code: &mut Vec<Instr>, global: u32) -> Result<(), NoMemory>
        ensures { OnOk result (code.new.items ≡ code.old.items
            ++ on (slice_get (all_globals self.now.m) global) (λ ty. reports_global self.now Gset global ty.ty)) }
    {
        match self.scope().global(global) {
            Some(ty) => self.push_global(code, Hook::Gset, global, ty.ty),
            None => Ok(()),
        }
    }

    /// Appends what is inserted after an instruction.
    pub(crate) fn push_after(&self, code: &mut Vec<Instr>, instr: &Instr) -> Result<(), NoMemory>
        ensures { OnOk result (code.new.items ≡ code.old.items ++ inserted_after self.now instr.now) }
    {
        match instr {
            Instr::Call(func) => self.push_after_direct(code, *func),
            Instr::CallIndirect(ty) => self.push_after_indirect(code, *ty),
            Instr::MemoryGrow => self.push_index(code, Hook::Grow),
            Instr::GlobalGet(global) => self.push_after_get(code, *global),
            _ => Ok(()),
        }
    }

    /// Appends what is inserted after a call of the function of this index, if the function exists.
    fn push_after_direct(&self, code: &mut Vec<Instr>, func: u32) -> Result<(), NoMemory>
        ensures { OnOk result (code.new.items ≡ code.old.items
            ++ on (type_of_func self.now.m func)
            (λ ty. after_call self.now (over_piece self.now (over.Direct func)) ty.results)) }
    {
        match self.scope().func_type(func) {
            Some(ty) => self.push_after_call(code, Over::Direct(func), ty.results.as_slice()),
            None => Ok(()),
        }
    }

    /// Appends what is inserted after a call by the table of a function of this type, if the type exists.
    fn push_after_indirect(&self, code: &mut Vec<Instr>, ty: u32) -> Result<(), NoMemory>
        ensures { OnOk result (code.new.items ≡ code.old.items
            ++ on (type_at self.now.m ty)
            (λ found. after_call self.now (over_piece self.now over.Indirect) found.results)) }
    {
        match self.scope().type_at(ty) {
            Some(ty) => self.push_after_call(code, Over::Indirect, ty.results.as_slice()),
            None => Ok(()),
        }
    }

    /// Appends what is inserted after a read of a global, if the global exists and is mutable.
    fn push_after_get(&self, code: &mut Vec<Instr>, global: u32) -> Result<(), NoMemory>
        ensures { OnOk result (code.new.items ≡ code.old.items
            ++ on (slice_get (all_globals self.now.m) global)
            (λ ty. cond ty.mutable (reports_global self.now Gget global ty.ty) [])) }
    {
        match self.scope().global(global) {
            Some(ty) if ty.mutable => self.push_global(code, Hook::Gget, global, ty.ty),
            _ => Ok(()),
        }
    }

    /// Appends what is inserted after a call with these results.
    fn push_after_call(
        &self,
        code: &mut Vec<Instr>,
        over: Over,
        results: &[ValType],
    ) -> Result<(), NoMemory>
        ensures { OnOk result (code.new.items
            ≡ code.old.items ++ after_call self.now (over_piece self.now over) results.now) }
    {
        match results {
            [] => self.push_over(code, over),
            [ty, ..] => self.push_result(code, over, *ty),
        }
    }

    /// Appends what is inserted after a call with a result, which is passed to a hook and stays on the stack.
    fn push_result(&self, code: &mut Vec<Instr>, over: Over, ty: ValType) -> Result<(), NoMemory>
        ensures { OnOk result (code.new.items
            ≡ code.old.items ++ after_call self.now (over_piece self.now over) (ty ∷ [])) }
    {
        let value = self.value_local(ty);
        code.push(Instr::LocalSet(value))?;
        self.push_local(code, ty, value)?;
        self.push_over(code, over)?;
        code.push(Instr::LocalGet(value))?;
        Ok(())
    }

    /// Appends a hook call that reports the end of a call.
    fn push_over(&self, code: &mut Vec<Instr>, over: Over) -> Result<(), NoMemory>
        ensures { OnOk result (code.new.items ≡ code.old.items ++ over_piece self.now over) }
    {
        match over {
            Over::Direct(func) => self.push_number(code, Hook::Post, func),
            Over::Indirect => self.push_call(code, Hook::Ipost),
        }
    }
}
