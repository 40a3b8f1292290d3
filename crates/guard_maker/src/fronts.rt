// Fronts: functions before both sides of the border, which compare the words of a call.

ghost use Rattle.std.specs.Prelude.{◌≡◌, [], ◌∷◌, ◌++◌, ◌+◌, ◌<◌, ◌^◌, IfOk, OnOk, length, map, true};
ghost use Rattle.wasm_syntax.specs.declared.values.ValType.{ValType as Ty};
ghost use Rattle.wasm_syntax.specs.declared.instructions.Instr.TheVariants.{End, LocalSet, Unreachable};
ghost use Rattle.wasm_syntax.specs.Nest.{Empty};
ghost use Rattle.replay_module_spec.specs.Effects.{i32_const};
ghost use Rattle.replay_module_spec.specs.Dispatch.{body_of, sequence};
ghost use Rattle.guarded_module_spec.specs.Fronts as spec;
ghost use Rattle.guard_maker.specs.Bounds.{HasRoom};

use crate::numbers::{behind, check_place};
use base::NoMemory;
use base::opcodes::{I32_REINTERPRET_F32, I64_EXTEND_I32_U, I64_REINTERPRET_F64};
use guarded_module_spec::Numbers;
use std::alloc::Global;
use wasm_syntax::{Body, Func, FuncType, Instr, List, Run, Runs, Val, ValType};

/// Appends code that makes the value on the stack a word.
fn push_to_word(code: &mut Vec<Instr>, ty: ValType) -> Result<(), NoMemory>
    ensures { OnOk result (code.new.items ≡ code.old.items ++ spec.to_word ty) }
{
    match ty {
        ValType::I32 => Ok(code.push(Instr::Numeric(I64_EXTEND_I32_U))?),
        ValType::F32 => {
            code.push(Instr::Numeric(I32_REINTERPRET_F32))?;
            Ok(code.push(Instr::Numeric(I64_EXTEND_I32_U))?)
        }
        ValType::F64 => Ok(code.push(Instr::Numeric(I64_REINTERPRET_F64))?),
        ValType::I64 | ValType::FuncRef => Ok(()),
    }
}

/// `i64.const` of these bits.
pub(crate) fn i64_const(bits: u64) -> Instr
    ensures { result ≡ spec.i64_const bits }
{
    Instr::Const(Val {
        ty: ValType::I64,
        bits,
    })
}

/// `i32.const` of these bits.
pub(crate) fn i32_const(bits: u64) -> Instr
    ensures { result ≡ i32_const bits }
{
    Instr::Const(Val {
        ty: ValType::I32,
        bits,
    })
}

/// Appends code that compares a number.
pub(crate) fn push_check_number(
    code: &mut Vec<Instr>,
    n: Numbers,
    number: u64,
) -> Result<(), NoMemory>
    requires { HasRoom n }
    ensures { OnOk result (code.new.items ≡ code.old.items ++ spec.check_number n number) }
{
    code.push(i64_const(number))?;
    code.push(Instr::Call(check_place(n)))?;
    Ok(())
}

/// Appends code that compares a local.
fn push_check_local(
    code: &mut Vec<Instr>,
    n: Numbers,
    local: u32,
    ty: ValType,
) -> Result<(), NoMemory>
    requires { HasRoom n }
    ensures { OnOk result (code.new.items ≡ code.old.items ++ spec.check_local n local ty) }
{
    code.push(Instr::LocalGet(local))?;
    push_to_word(code, ty)?;
    code.push(Instr::Call(check_place(n)))?;
    Ok(())
}

/// Appends code that compares the locals of these types.
fn push_check_locals(
    code: &mut Vec<Instr>,
    n: Numbers,
    first: u32,
    types: &[ValType],
) -> Result<(), NoMemory>
    requires room { HasRoom n }
    requires few { first + length types.now < 2 ^ 32 }
    ensures { OnOk result (code.new.items ≡ code.old.items ++ spec.check_locals n first types.now) }
{
    let mut local = first;
    let mut types = types;
    'locals: while let Some((ty, more)) = types.split_first() {
        push_check_local(code, n, local, *ty)?;
        local += 1;
        types = more;
    }
    Ok(())
}

/// Appends code that pushes locals.
fn push_local_gets(code: &mut Vec<Instr>, first: u32, count: u32) -> Result<(), NoMemory>
    requires { first + count < 2 ^ 32 }
    ensures { OnOk result (code.new.items ≡ code.old.items ++ spec.local_gets first count) }
{
    'locals: for local in 0..count {
        code.push(Instr::LocalGet(first + local))?;
    }
    Ok(())
}

/// Appends code that keeps a result, if there is one, in the local of this index.
fn push_keep(code: &mut Vec<Instr>, local: u32, results: &[ValType]) -> Result<(), NoMemory>
    ensures { OnOk result (code.new.items
        ≡ code.old.items ++ map (λ (ty : Ty). LocalSet local) results.now) }
{
    'results: for _ in 0..results.len() {
        code.push(Instr::LocalSet(local))?;
    }
    Ok(())
}

/// Appends the code of the front of an import with this type.
fn push_import_front(
    code: &mut Vec<Instr>,
    n: Numbers,
    ty: &FuncType,
    import: u32,
) -> Result<(), NoMemory>
    requires room { HasRoom n }
    requires few { length ty.now.params + 1 < 2 ^ 32 }
    ensures { OnOk result (code.new.items ≡ code.old.items ++ spec.import_front_code n ty.now import) }
{
    let params = ty.params.as_slice();
    push_check_number(code, n, u64::from(import))?;
    push_check_locals(code, n, 0, params)?;
    push_local_gets(code, 0, params.len() as u32)?;
    code.push(Instr::Call(behind(n, import)))?;
    Ok(())
}

/// The body of the front of an import with this type.
fn import_front_body(
    alloc: Global,
    n: Numbers,
    ty: &FuncType,
    import: u32,
) -> Result<Body, NoMemory>
    requires room { HasRoom n }
    requires few { length ty.now.params + 1 < 2 ^ 32 }
    ensures { IfOk result (λ body. body ≡ body_of (sequence (spec.import_front_code n ty.now import) Empty)) }
{
    let mut code = Vec::new(alloc);
    push_import_front(&mut code, n, ty, import)?;
    code.push(Instr::End)?;
    Ok(List::from_vec(code))
}

/// The front of an import with this type, whose index is `place`.
pub(crate) fn import_front(
    alloc: Global,
    n: Numbers,
    ty: &FuncType,
    import: u32,
    place: u32,
) -> Result<Func, NoMemory>
    requires room { HasRoom n }
    requires few { length ty.now.params + 1 < 2 ^ 32 }
    ensures { IfOk result (λ func. func ≡ spec.import_front n ty.now import place) }
{
    let body = import_front_body(alloc, n, ty, import)?;
    Ok(Func {
        ty: place,
        locals: List::new(alloc),
        body,
    })
}

/// Appends the code of the front of an original with this type.
fn push_func_front(
    code: &mut Vec<Instr>,
    n: Numbers,
    ty: &FuncType,
    func: u32,
) -> Result<(), NoMemory>
    requires room { HasRoom n }
    requires few { length ty.now.params + 1 < 2 ^ 32 }
    requires one { length ty.now.results < 2 }
    ensures { OnOk result (code.new.items ≡ code.old.items ++ spec.func_front_code n ty.now func) }
{
    let count = ty.params.as_slice().len() as u32;
    let results = ty.results.as_slice();
    push_local_gets(code, 0, count)?;
    code.push(Instr::Call(func))?;
    push_keep(code, count, results)?;
    push_check_number(code, n, u64::from(func))?;
    push_check_locals(code, n, count, results)?;
    push_local_gets(code, count, results.len() as u32)
}

/// A local of each of these types.
fn locals_of(alloc: Global, types: &[ValType]) -> Result<Runs, NoMemory>
    ensures { IfOk result (λ locals. locals ≡ map spec.one_local types.now) }
{
    let mut locals = Vec::with_capacity(alloc, types.len())?;
    'types: for ty in types {
        locals.push(one_local(*ty))?;
    }
    Ok(List::from_vec(locals))
}

/// A local of a type.
pub(crate) fn one_local(ty: ValType) -> Run
    ensures { result ≡ spec.one_local ty }
{
    Run { count: 1, ty }
}

/// The body of the front of an original with this type.
fn func_front_body(alloc: Global, n: Numbers, ty: &FuncType, func: u32) -> Result<Body, NoMemory>
    requires room { HasRoom n }
    requires few { length ty.now.params + 1 < 2 ^ 32 }
    requires one { length ty.now.results < 2 }
    ensures { IfOk result (λ body. body ≡ body_of (sequence (spec.func_front_code n ty.now func) Empty)) }
{
    let mut code = Vec::new(alloc);
    push_func_front(&mut code, n, ty, func)?;
    code.push(Instr::End)?;
    Ok(List::from_vec(code))
}

/// The front of an original with this type, whose index is `place`, if a function outside calls it.
fn called_front(
    alloc: Global,
    n: Numbers,
    ty: &FuncType,
    func: u32,
    place: u32,
) -> Result<Func, NoMemory>
    requires room { HasRoom n }
    requires few { length ty.now.params + 1 < 2 ^ 32 }
    requires one { length ty.now.results < 2 }
    ensures { IfOk result (λ front. front ≡ spec.func_front true n ty.now func place) }
{
    let body = func_front_body(alloc, n, ty, func)?;
    let locals = locals_of(alloc, ty.results.as_slice())?;
    Ok(Func {
        ty: place,
        locals,
        body,
    })
}

/// A function that traps, with a type of this index.
fn trap(alloc: Global, place: u32) -> Result<Func, NoMemory>
    ensures { IfOk result (λ func. func ≡ record { ty = place; locals = []; body = Unreachable ∷ End ∷ [] }) }
{
    let mut code = Vec::with_capacity(alloc, 2)?;
    code.push_reserved(Instr::Unreachable);
    code.push_reserved(Instr::End);
    Ok(Func {
        ty: place,
        locals: List::new(alloc),
        body: List::from_vec(code),
    })
}

/// The front of an original with this type, whose index is `place`; a trap if no function outside calls it.
pub(crate) fn func_front(
    alloc: Global,
    called: bool,
    n: Numbers,
    ty: &FuncType,
    func: u32,
    place: u32,
) -> Result<Func, NoMemory>
    requires room { HasRoom n }
    requires few { length ty.now.params + 1 < 2 ^ 32 }
    requires one { length ty.now.results < 2 }
    ensures { IfOk result (λ front. front ≡ spec.func_front called n ty.now func place) }
{
    if called {
        called_front(alloc, n, ty, func, place)
    } else {
        trap(alloc, place)
    }
}
