// Functions and bodies with the numbers of what their indices name.

ghost use Rattle.std.specs.Prelude.{◌≡◌, map, IfOk};
ghost use Rattle.instance_spec.specs.Instances.{resolved_instr};
ghost use Rattle.instance_spec.specs.Widened.{renamed_func};

use crate::numbering::Numbering;
use base::NoMemory;
use std::alloc::Global;
use wasm_syntax::{Body, Func, Funcs, Instr, Item, List};

/// Defined functions with all indices in their bodies resolved. The indices of their types stay.
///
/// # Errors
///
/// `NoMemory` if an allocation failed.
pub fn renamed_funcs<N: Numbering>(
    alloc: Global,
    numbering: &N,
    funcs: &[Func],
) -> Result<Funcs, NoMemory>
    ensures { IfOk result (λ list. list ≡ map (renamed_func (N.instance numbering.now)) funcs.now) }
{
    let mut list = Vec::with_capacity(alloc, funcs.len())?;
    'funcs: for func in funcs {
        list.push(renamed_func(alloc, numbering, func)?)?;
    }
    Ok(List::from_vec(list))
}

/// A defined function with all indices in its body resolved.
fn renamed_func<N: Numbering>(alloc: Global, numbering: &N, func: &Func) -> Result<Func, NoMemory>
    ensures { IfOk result (λ made. made ≡ renamed_func (N.instance numbering.now) func.now) }
{
    let locals = func.locals.clone()?;
    let body = renamed_body(alloc, numbering, func.body.as_slice())?;
    Ok(Func {
        ty: func.ty,
        locals,
        body,
    })
}

/// A body with all indices resolved.
///
/// # Errors
///
/// `NoMemory` if an allocation failed.
pub fn renamed_body<N: Numbering>(
    alloc: Global,
    numbering: &N,
    body: &[Instr],
) -> Result<Body, NoMemory>
    ensures { IfOk result (λ made. made ≡ map (resolved_instr (N.instance numbering.now)) body.now) }
{
    let mut code = Vec::with_capacity(alloc, body.len())?;
    'body: for instr in body {
        code.push(resolved_instr(numbering, instr)?)?;
    }
    Ok(List::from_vec(code))
}

/// An instruction with the numbers of what its indices name.
fn resolved_instr<N: Numbering>(numbering: &N, instr: &Instr) -> Result<Instr, NoMemory>
    ensures { IfOk result (λ made. made ≡ resolved_instr (N.instance numbering.now) instr.now) }
{
    match instr {
        Instr::Call(func) => Ok(Instr::Call(numbering.func(*func))),
        Instr::CallIndirect(ty) => Ok(Instr::CallIndirect(numbering.ty(*ty))),
        Instr::GlobalGet(global) => Ok(Instr::GlobalGet(numbering.global(*global))),
        Instr::GlobalSet(global) => Ok(Instr::GlobalSet(numbering.global(*global))),
        Instr::RefFunc(func) => Ok(Instr::RefFunc(numbering.func(*func))),
        other => other.copy(),
    }
}
