// The bodies of generated functions.

ghost use Rattle.std.specs.Prelude.{◌≡◌, [], ◌∷◌, ◌++◌, ◌+◌, ◌<◌, ◌≤◌, ◌^◌, IfOk, OnOk, flat_map, length, map};
ghost use Rattle.std.specs.List.{range_with_len};
ghost use Rattle.wasm_syntax.specs.Nest.{Empty};
ghost use Rattle.replay_module_spec.specs.Dispatch.{body_of, sequence};
ghost use Rattle.replay_module_spec.specs.Functions.{count_code, group_call, group_nest, import_nest};
ghost use Rattle.replay_module_spec.specs.Segments.{segments_code};
ghost use Rattle.replay_gen.specs.Pieces.{ended};

use crate::dispatch::{push_dispatch_end, push_dispatch_start};
use crate::segments::push_segments;
use crate::stores::i32_const;
use base::NoMemory;
use base::opcodes::{I32_ADD, I32_DIV_U, I32_REM_U};
use module_index::scope::Scope;
use std::alloc::Global;
use trace_model::{Segment, Segments};
use wasm_syntax::{Body, Instr, List};

/// The number of instructions that read and move a counter.
const IN_COUNT: usize = 5;

/// The number of instructions of an arm of the function in an import's place.
const IN_GROUP_CALL: usize = 4;

/// The body of the function for a group of calls.
pub(crate) fn group_body(
    alloc: Global,
    scope: &Scope<'_>,
    calls: &[Segments],
) -> Result<Body, NoMemory>
    requires { length calls.now < 2 ^ 32 }
    ensures { IfOk result (λ body. body ≡ body_of (group_nest scope.now calls.now)) }
{
    let mut code = Vec::new(alloc);
    push_dispatch_start(alloc, &mut code, 0, I32_REM_U, calls.len() as u32)?;
    push_call_arms(&mut code, scope, calls)?;
    push_dispatch_end(&mut code)?;
    Ok(List::from_vec(code))
}

/// Appends an arm for each call.
fn push_call_arms(
    code: &mut Vec<Instr>,
    scope: &Scope<'_>,
    calls: &[Segments],
) -> Result<(), NoMemory>
    ensures { OnOk result (code.new.items
        ≡ code.old.items ++ flat_map ended (map (segments_code scope.now) calls.now)) }
{
    'calls: for call in calls {
        code.push(Instr::End)?;
        push_segments(code, scope, call.as_slice())?;
    }
    Ok(())
}

/// The body of the function in an import's place; the functions of its groups have the indices from `first` on.
///
/// # Errors
///
/// `NoMemory` if memory is out.
pub fn import_body(
    alloc: Global,
    counter: u32,
    local: u32,
    first: u32,
    count: u32,
) -> Result<Body, NoMemory>
    requires { first + count ≤ 2 ^ 32 }
    ensures { IfOk result (λ body. body ≡ body_of (import_nest counter local first count)) }
{
    let mut code = Vec::new(alloc);
    push_count(&mut code, counter, local)?;
    push_dispatch_start(alloc, &mut code, local, I32_DIV_U, count)?;
    push_group_arms(&mut code, local, first, count)?;
    push_dispatch_end(&mut code)?;
    Ok(List::from_vec(code))
}

/// Keeps the number of this call in the local, and increments the counter.
fn push_count(code: &mut Vec<Instr>, counter: u32, local: u32) -> Result<(), NoMemory>
    ensures { OnOk result (code.new.items ≡ code.old.items ++ count_code counter local) }
{
    code.reserve(IN_COUNT)?;
    code.push_reserved(Instr::GlobalGet(counter));
    code.push_reserved(Instr::LocalTee(local));
    code.push_reserved(i32_const(1));
    code.push_reserved(Instr::Numeric(I32_ADD));
    code.push_reserved(Instr::GlobalSet(counter));
    Ok(())
}

/// Appends an arm for each group, which calls the group's function and returns its result.
fn push_group_arms(
    code: &mut Vec<Instr>,
    local: u32,
    first: u32,
    count: u32,
) -> Result<(), NoMemory>
    requires { first + count ≤ 2 ^ 32 }
    ensures { OnOk result (code.new.items
        ≡ code.old.items ++ flat_map ended (map (group_call local) (range_with_len first count))) }
{
    'groups: for group in 0..count {
        push_group_call(code, local, first + group)?;
    }
    Ok(())
}

/// Appends the arm of a group's function.
fn push_group_call(code: &mut Vec<Instr>, local: u32, func: u32) -> Result<(), NoMemory>
    ensures { OnOk result (code.new.items ≡ code.old.items ++ ended (group_call local func)) }
{
    code.reserve(IN_GROUP_CALL)?;
    code.push_reserved(Instr::End);
    code.push_reserved(Instr::LocalGet(local));
    code.push_reserved(Instr::Call(func));
    code.push_reserved(Instr::Return);
    Ok(())
}

/// The body of the function for the host's own work.
pub(crate) fn start_body(
    alloc: Global,
    scope: &Scope<'_>,
    segments: &[Segment],
) -> Result<Body, NoMemory>
    ensures { IfOk result (λ body. body
        ≡ body_of (sequence (segments_code scope.now segments.now) Empty)) }
{
    let mut code = Vec::new(alloc);
    push_segments(&mut code, scope, segments)?;
    code.push(Instr::End)?;
    Ok(List::from_vec(code))
}
