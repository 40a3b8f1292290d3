// The functions that bodies refer to.

ghost use Rattle.std.specs.Prelude.{◌≡◌, ◌∷◌, [], ◌++◌, ◌<◌, ◌^◌, IfOk, OnOk, cond, false, filter, filter_map, flat_map, get_or, length};
ghost use Rattle.std.specs.List.{cons_option, range_with_len};
ghost use Rattle.module_index.specs.Marks.{AreMarks, MarksMore};
ghost use Rattle.replay_module_spec.specs.Fragments.{referred_func, referred_funcs, referred_once};

use base::NoMemory;
use std::alloc::Global;
use wasm_syntax::{Func, Indices, Instr, List};

/// The functions below a number that the bodies of these functions refer to, each once, by ascending index.
pub(crate) fn referred_once(
    alloc: Global,
    below: u32,
    bodies: &[Func],
    own: &[Func],
    helpers: &[Func],
) -> Result<Indices, NoMemory>
    ensures { IfOk result (λ funcs. funcs ≡ referred_once below (bodies.now ++ (own.now ++ helpers.now))) }
{
    let marks = marks_of(alloc, below, bodies, own, helpers)?;
    marked_funcs(alloc, marks.as_slice())
}

/// Marks for the functions below a number, set for those that the bodies refer to.
fn marks_of(
    alloc: Global,
    below: u32,
    bodies: &[Func],
    own: &[Func],
    helpers: &[Func],
) -> Result<Vec<bool>, NoMemory>
    ensures { IfOk result (λ marks.
        AreMarks marks.items below (referred_funcs (bodies.now ++ (own.now ++ helpers.now)))) }
{
    let mut marks = vec![in alloc; false; below as usize]?;
    mark_funcs(&mut marks, bodies);
    mark_funcs(&mut marks, own);
    mark_funcs(&mut marks, helpers);
    Ok(marks)
}

/// Marks the functions that bodies refer to.
fn mark_funcs(marks: &mut Vec<bool>, funcs: &[Func])
    ensures { MarksMore marks.old.items marks.new.items (referred_funcs funcs.now) }
{
    'funcs: for func in funcs {
        mark_body(marks, func.body.as_slice());
    }
}

/// Marks the functions that a body refers to.
fn mark_body(marks: &mut Vec<bool>, body: &[Instr])
    ensures { MarksMore marks.old.items marks.new.items (filter_map referred_func body.now) }
{
    'instrs: for instr in body {
        mark_instr(marks, instr);
    }
}

/// Marks the function that an instruction refers to, if it refers to one.
fn mark_instr(marks: &mut Vec<bool>, instr: &Instr)
    ensures { MarksMore marks.old.items marks.new.items (cons_option (referred_func instr.now) []) }
{
    if let Instr::RefFunc(func) = instr {
        mark(marks, *func);
    }
}

/// Marks a function, if its index is in the list.
pub fn mark(marks: &mut Vec<bool>, func: u32)
    ensures { MarksMore marks.old.items marks.new.items (func ∷ []) }
{
    let func = func as usize;
    if func < marks.len() {
        marks[func] = true;
    }
}

/// The marked functions.
fn marked_funcs(alloc: Global, marks: &[bool]) -> Result<Indices, NoMemory>
    requires { length marks.now < 2 ^ 32 }
    ensures { IfOk result (λ funcs. funcs
        ≡ filter (λ func. get_or marks.now func false) (range_with_len 0 (length marks.now))) }
{
    let mut funcs = Vec::new(alloc);
    'marks: for func in 0..marks.len() {
        push_marked(&mut funcs, marks, func)?;
    }
    Ok(List::from_vec(funcs))
}

/// Appends a function if it is marked.
fn push_marked(funcs: &mut Vec<u32>, marks: &[bool], func: usize) -> Result<(), NoMemory>
    requires within { func < length marks.now }
    requires few { length marks.now < 2 ^ 32 }
    ensures { OnOk result (funcs.new.items
        ≡ funcs.old.items ++ cond (get_or marks.now func false) (func ∷ []) []) }
{
    if marks[func] {
        funcs.push(func as u32)?;
    }
    Ok(())
}
