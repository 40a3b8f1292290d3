// The functions that run a guarded module and compare a word.

ghost use Rattle.std.specs.Prelude.{◌≡◌, ◌++◌, IfOk, OnOk};
ghost use Rattle.wasm_syntax.specs.Nest.{Empty};
ghost use Rattle.replay_module_spec.specs.Dispatch.{body_of, sequence};
ghost use Rattle.guarded_module_spec.specs.Functions as spec;
ghost use Rattle.guard_maker.specs.Bounds.{HasRoom};

use crate::fronts::{i32_const, push_check_number};
use crate::numbers::{check_place, digest_place, next_place};
use base::NoMemory;
use base::opcodes::{I32_ADD, I64_EXTEND_I32_U, I64_NE};
use guarded_module_spec::Numbers;
use std::alloc::Global;
use wasm_syntax::{Body, Func, Instr, List};

/// The number of instructions that compare the size of the memory and its digest.
const IN_MEMORY: usize = 5;

/// The number of instructions that compare a word and count the check.
const IN_CHECK: usize = 11;

/// The word at the end of a run that ends.
const END_WORD: u64 = u64::MAX;

/// Appends code that compares the size of the memory and its digest, if there is a memory.
fn push_check_memory(code: &mut Vec<Instr>, n: Numbers) -> Result<(), NoMemory>
    requires { HasRoom n }
    ensures { OnOk result (code.new.items ≡ code.old.items ++ spec.check_memory n.digests n) }
{
    if n.digests == 0 {
        return Ok(());
    }
    code.reserve(IN_MEMORY)?;
    code.push_reserved(Instr::MemorySize);
    code.push_reserved(Instr::Numeric(I64_EXTEND_I32_U));
    code.push_reserved(Instr::Call(check_place(n)));
    code.push_reserved(Instr::Call(digest_place(n)));
    code.push_reserved(Instr::Call(check_place(n)));
    Ok(())
}

/// The body of the exported function.
fn start_body(alloc: Global, n: Numbers, entry: u32) -> Result<Body, NoMemory>
    requires { HasRoom n }
    ensures { IfOk result (λ body. body ≡ body_of (sequence (spec.start_code n entry) Empty)) }
{
    let mut code = Vec::new(alloc);
    code.push(Instr::Call(entry))?;
    push_check_memory(&mut code, n)?;
    push_check_number(&mut code, n, END_WORD)?;
    code.push(Instr::End)?;
    Ok(List::from_vec(code))
}

/// The exported function, which calls the function that the replay module exports.
pub(crate) fn start_func(alloc: Global, n: Numbers, entry: u32) -> Result<Func, NoMemory>
    requires { HasRoom n }
    ensures { IfOk result (λ func. func ≡ spec.start_func n entry) }
{
    let body = start_body(alloc, n, entry)?;
    Ok(Func {
        ty: n.types,
        locals: List::new(alloc),
        body,
    })
}

/// The body of the function that takes a word and compares it.
fn check_body(alloc: Global, n: Numbers) -> Result<Body, NoMemory>
    requires { HasRoom n }
    ensures { IfOk result (λ body. body ≡ body_of (spec.check_nest n)) }
{
    let mut code = Vec::with_capacity(alloc, IN_CHECK)?;
    code.push_reserved(Instr::LocalGet(0));
    code.push_reserved(Instr::Call(next_place(n)));
    code.push_reserved(Instr::Numeric(I64_NE));
    code.push_reserved(Instr::If(None));
    code.push_reserved(Instr::Unreachable);
    code.push_reserved(Instr::End);
    code.push_reserved(Instr::GlobalGet(n.globals + 1));
    code.push_reserved(i32_const(1));
    code.push_reserved(Instr::Numeric(I32_ADD));
    code.push_reserved(Instr::GlobalSet(n.globals + 1));
    code.push_reserved(Instr::End);
    Ok(List::from_vec(code))
}

/// The function that takes a word and compares it.
pub(crate) fn check_func(alloc: Global, n: Numbers) -> Result<Func, NoMemory>
    requires { HasRoom n }
    ensures { IfOk result (λ func. func ≡ spec.check_func n) }
{
    let body = check_body(alloc, n)?;
    Ok(Func {
        ty: n.types + 1,
        locals: List::new(alloc),
        body,
    })
}
