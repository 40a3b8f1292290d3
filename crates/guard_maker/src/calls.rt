// Functions outside the original: which functions they call, and their calls redirected to what is behind.

ghost use Rattle.std.specs.Prelude.{◌≡◌, ◌∷◌, [], ◌++◌, filter_map, flat_map, map, IfOk, OnOk};
ghost use Rattle.std.specs.List.{cons_option};
ghost use Rattle.module_index.specs.Marks.{AreMarks, MarksMore};
ghost use Rattle.guarded_module_spec.specs.GuardedModules as spec;
ghost use Rattle.guard_maker.specs.Bounds.{HasRoom};

use crate::numbers::behind;
use base::NoMemory;
use guarded_module_spec::Numbers;
use replay_gen::mark;
use std::alloc::Global;
use wasm_syntax::{Body, Func, Instr, List};

/// Marks for the functions below a number, set for those that functions in two lists call.
pub(crate) fn called_marks(
    alloc: Global,
    below: u32,
    first: &[Func],
    second: &[Func],
) -> Result<Vec<bool>, NoMemory>
    ensures { IfOk result (λ marks. AreMarks marks.items below (spec.called_funcs (first.now ++ second.now))) }
{
    let mut marks = vec![in alloc; false; below as usize]?;
    mark_funcs(&mut marks, first);
    mark_funcs(&mut marks, second);
    Ok(marks)
}

/// Marks the functions that bodies call.
fn mark_funcs(marks: &mut Vec<bool>, funcs: &[Func])
    ensures { MarksMore marks.old.items marks.new.items (spec.called_funcs funcs.now) }
{
    'funcs: for func in funcs {
        mark_body(marks, func.body.as_slice());
    }
}

/// Marks the functions that a body calls.
fn mark_body(marks: &mut Vec<bool>, body: &[Instr])
    ensures { MarksMore marks.old.items marks.new.items (filter_map spec.called_func body.now) }
{
    'instrs: for instr in body {
        mark_instr(marks, instr);
    }
}

/// Marks the function that an instruction calls, if it calls one.
fn mark_instr(marks: &mut Vec<bool>, instr: &Instr)
    ensures { MarksMore marks.old.items marks.new.items (cons_option (spec.called_func instr.now) []) }
{
    if let Instr::Call(func) = instr {
        mark(marks, *func);
    }
}

/// Appends functions with their calls redirected.
pub(crate) fn push_redirected(
    alloc: Global,
    list: &mut Vec<Func>,
    n: Numbers,
    funcs: Vec<Func>,
) -> Result<(), NoMemory>
    requires { HasRoom n }
    ensures { OnOk result (list.new.items ≡ list.old.items ++ map (spec.redirected n) funcs.items) }
{
    'funcs: for func in funcs {
        list.push(redirected(alloc, n, func)?)?;
    }
    Ok(())
}

/// A function with its calls redirected.
fn redirected(alloc: Global, n: Numbers, func: Func) -> Result<Func, NoMemory>
    requires { HasRoom n }
    ensures { IfOk result (λ made. made ≡ spec.redirected n func) }
{
    let Func { ty, locals, body } = func;
    let body = redirected_body(alloc, n, body)?;
    Ok(Func { ty, locals, body })
}

/// A body with its calls redirected.
fn redirected_body(alloc: Global, n: Numbers, body: Body) -> Result<Body, NoMemory>
    requires { HasRoom n }
    ensures { IfOk result (λ made. made ≡ map (spec.redirected_instr n) body) }
{
    let mut code = Vec::with_capacity(alloc, body.as_slice().len())?;
    'instrs: for instr in body.into_vec() {
        code.push(redirected_instr(n, instr))?;
    }
    Ok(List::from_vec(code))
}

/// An instruction, redirected if it is a call.
fn redirected_instr(n: Numbers, instr: Instr) -> Instr
    requires { HasRoom n }
    ensures { result ≡ spec.redirected_instr n instr }
{
    match instr {
        Instr::Call(func) => Instr::Call(behind(n, func)),
        other => other,
    }
}
