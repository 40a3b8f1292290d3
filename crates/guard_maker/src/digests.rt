// The function that gives the digest of the memory.

ghost use Rattle.std.specs.Prelude.{◌≡◌, ◌++◌, IfOk, OnOk, drop, take};
ghost use Rattle.replay_module_spec.specs.Dispatch.{body_of};
ghost use Rattle.guarded_module_spec.specs.Functions as spec;
ghost use Rattle.guard_maker.specs.Bounds.{HasRoom};

use crate::fronts::{i32_const, i64_const, one_local};
use base::NoMemory;
use base::opcodes::{I32_SHL, I32_SUB, I64_LOAD, I64_MUL, I64_ROTL, I64_XOR};
use guarded_module_spec::{DIGEST_FACTOR, DIGEST_ROTATION, Numbers};
use std::alloc::Global;
use wasm_syntax::{Body, Func, Instr, List, MemArg, Runs, ValType};

/// The number of instructions of the code before the loop.
const IN_BEGIN: usize = 4;

/// The number of instructions that load eight bytes.
const IN_LOAD: usize = 5;

/// The number of instructions that take a word into the digest.
const IN_MIX: usize = 7;

/// The number of instructions after those in the loop.
const IN_LOOP: usize = 6;

/// Appends code that begins with the number of the memory's bytes.
fn push_begin(code: &mut Vec<Instr>) -> Result<(), NoMemory>
    ensures { OnOk result (code.new.items ≡ code.old.items ++ spec.digest_begin) }
{
    code.reserve(IN_BEGIN)?;
    code.push_reserved(Instr::MemorySize);
    code.push_reserved(i32_const(16));
    code.push_reserved(Instr::Numeric(I32_SHL));
    code.push_reserved(Instr::LocalTee(0));
    Ok(())
}

/// Appends code that loads the eight bytes before an address, which is kept.
fn push_load(code: &mut Vec<Instr>) -> Result<(), NoMemory>
    ensures { OnOk result (code.new.items ≡ code.old.items ++ take 5 spec.digest_turn) }
{
    code.reserve(IN_LOAD)?;
    code.push_reserved(Instr::LocalGet(0));
    code.push_reserved(i32_const(8));
    code.push_reserved(Instr::Numeric(I32_SUB));
    code.push_reserved(Instr::LocalTee(0));
    code.push_reserved(Instr::Load(MemArg {
        op: I64_LOAD,
        align: 3,
        offset: 0,
    }));
    Ok(())
}

/// Appends code that takes the word on the stack into the digest.
fn push_mix(code: &mut Vec<Instr>) -> Result<(), NoMemory>
    ensures { OnOk result (code.new.items ≡ code.old.items ++ drop 5 spec.digest_turn) }
{
    code.reserve(IN_MIX)?;
    code.push_reserved(Instr::LocalGet(1));
    code.push_reserved(Instr::Numeric(I64_XOR));
    code.push_reserved(i64_const(DIGEST_ROTATION));
    code.push_reserved(Instr::Numeric(I64_ROTL));
    code.push_reserved(i64_const(DIGEST_FACTOR));
    code.push_reserved(Instr::Numeric(I64_MUL));
    code.push_reserved(Instr::LocalSet(1));
    Ok(())
}

/// Appends code that takes the eight bytes before an address into the digest.
fn push_turn(code: &mut Vec<Instr>) -> Result<(), NoMemory>
    ensures { OnOk result (code.new.items ≡ code.old.items ++ spec.digest_turn) }
{
    push_load(code)?;
    push_mix(code)?;
    Ok(())
}

/// The locals of the function: an address and a digest.
fn digest_locals(alloc: Global) -> Result<Runs, NoMemory>
    ensures { IfOk result (λ locals. locals ≡ spec.digest_locals) }
{
    let mut locals = Vec::with_capacity(alloc, 2)?;
    locals.push_reserved(one_local(ValType::I32));
    locals.push_reserved(one_local(ValType::I64));
    Ok(List::from_vec(locals))
}

/// The body of the function.
fn digest_body(alloc: Global) -> Result<Body, NoMemory>
    ensures { IfOk result (λ body. body ≡ body_of spec.digest_nest) }
{
    let mut code = Vec::new(alloc);
    push_begin(&mut code)?;
    code.push(Instr::If(None))?;
    code.push(Instr::Loop(None))?;
    push_turn(&mut code)?;
    code.reserve(IN_LOOP)?;
    code.push_reserved(Instr::LocalGet(0));
    code.push_reserved(Instr::BrIf(0));
    code.push_reserved(Instr::End);
    code.push_reserved(Instr::End);
    code.push_reserved(Instr::LocalGet(1));
    code.push_reserved(Instr::End);
    Ok(List::from_vec(code))
}

/// The function that gives the digest of the memory.
fn digest_func(alloc: Global, n: Numbers) -> Result<Func, NoMemory>
    requires { HasRoom n }
    ensures { IfOk result (λ func. func ≡ spec.digest_func n) }
{
    let body = digest_body(alloc)?;
    let locals = digest_locals(alloc)?;
    Ok(Func {
        ty: n.types + 2,
        locals,
        body,
    })
}

/// Appends the function of the digest, if there is a memory.
pub(crate) fn push_digest(alloc: Global, funcs: &mut Vec<Func>, n: Numbers) -> Result<(), NoMemory>
    requires { HasRoom n }
    ensures { OnOk result (funcs.new.items ≡ funcs.old.items ++ spec.digest_funcs n.digests n) }
{
    if n.digests > 0 {
        funcs.push(digest_func(alloc, n)?)?;
    }
    Ok(())
}
