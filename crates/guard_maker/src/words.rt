// The functions that give the words, as those of a replay module find what a call of an import does.

ghost use Rattle.std.specs.Prelude.{◌≡◌, ◌++◌, ◌+◌, ◌<◌, ◌^◌, IfOk, OnOk, flat_map, length, map};
ghost use Rattle.replay_module_spec.specs.Functions.{group_count};
ghost use Rattle.replay_module_spec.specs.Dispatch.{body_of};
ghost use Rattle.replay_gen.specs.Pieces.{ended};
ghost use Rattle.guarded_module_spec.specs.Functions as spec;
ghost use Rattle.guarded_module_spec.specs.Numbers.{first_group};
ghost use Rattle.guard_maker.specs.Bounds.{HasRoom};

use crate::fronts::{i64_const, one_local};
use crate::numbers::first_group;
use base::NoMemory;
use base::opcodes::I32_REM_U;
use guarded_module_spec::Numbers;
use replay_gen::{group, group_count, import_body, push_dispatch_end, push_dispatch_start};
use std::alloc::Global;
use wasm_syntax::{Body, Func, Instr, List, ValType};

/// The number of instructions of the arm of a word, with the end of the block before it.
const IN_ARM: usize = 3;

/// The function that gives the next of so many words.
pub(crate) fn next_func(alloc: Global, n: Numbers, count: usize) -> Result<Func, NoMemory>
    requires room { HasRoom n }
    requires few { first_group n + group_count count < 2 ^ 32 }
    ensures { IfOk result (λ func. func ≡ spec.next_func n count) }
{
    let mut locals = Vec::with_capacity(alloc, 1)?;
    locals.push_reserved(one_local(ValType::I32));
    let body = import_body(alloc, n.globals, 0, first_group(n), group_count(count))?;
    Ok(Func {
        ty: n.types + 2,
        locals: List::from_vec(locals),
        body,
    })
}

/// Appends the arm of a word.
fn push_word_arm(code: &mut Vec<Instr>, word: u64) -> Result<(), NoMemory>
    ensures { OnOk result (code.new.items ≡ code.old.items ++ ended (spec.word_arm word)) }
{
    code.reserve(IN_ARM)?;
    code.push_reserved(Instr::End);
    code.push_reserved(i64_const(word));
    code.push_reserved(Instr::Return);
    Ok(())
}

/// Appends an arm for each word.
fn push_word_arms(code: &mut Vec<Instr>, words: &[u64]) -> Result<(), NoMemory>
    ensures { OnOk result (code.new.items
        ≡ code.old.items ++ flat_map ended (map spec.word_arm words.now)) }
{
    'words: for word in words {
        push_word_arm(code, *word)?;
    }
    Ok(())
}

/// The body of the function of a group of words.
fn group_body(alloc: Global, words: &[u64]) -> Result<Body, NoMemory>
    requires { length words.now < 2 ^ 32 }
    ensures { IfOk result (λ body. body ≡ body_of (spec.group_nest words.now)) }
{
    let mut code = Vec::new(alloc);
    push_dispatch_start(alloc, &mut code, 0, I32_REM_U, words.len() as u32)?;
    push_word_arms(&mut code, words)?;
    push_dispatch_end(&mut code)?;
    Ok(List::from_vec(code))
}

/// The function of a group of words.
fn group_func(alloc: Global, n: Numbers, words: &[u64]) -> Result<Func, NoMemory>
    requires room { HasRoom n }
    requires few { length words.now < 2 ^ 32 }
    ensures { IfOk result (λ func. func ≡ spec.group_func n words.now) }
{
    let body = group_body(alloc, words)?;
    Ok(Func {
        ty: n.types + 3,
        locals: List::new(alloc),
        body,
    })
}

/// Appends the functions of all groups.
pub(crate) fn push_groups(
    alloc: Global,
    funcs: &mut Vec<Func>,
    n: Numbers,
    words: &[u64],
) -> Result<(), NoMemory>
    requires room { HasRoom n }
    requires few { group_count (length words.now) < 2 ^ 32 }
    ensures { OnOk result (funcs.new.items ≡ funcs.old.items ++ spec.group_funcs n words.now) }
{
    'groups: for number in 0..group_count(words.len()) {
        funcs.push(group_func(alloc, n, group(words, number))?)?;
    }
    Ok(())
}
