// Generated functions.

ghost use Rattle.std.specs.Prelude.{◌≡◌, [], ◌∷◌, ◌+◌, ◌<◌, ◌≤◌, ◌^◌, IfOk, length};
ghost use Rattle.replay_module_spec.specs.Functions.{group_func, group_type_place, import_func, one_i32, original_type, start_func};

use crate::bodies::{group_body, import_body, start_body};
use base::NoMemory;
use module_index::scope::Scope;
use std::alloc::Global;
use trace_model::{Segment, Segments};
use wasm_syntax::{Func, List, Run, Runs, ValType};

/// The function for a group of calls of an import with this type index.
pub(crate) fn group_func(
    alloc: Global,
    scope: &Scope<'_>,
    ty: u32,
    calls: &[Segments],
) -> Result<Func, NoMemory>
    requires few_types { length scope.now.types + 5 < 2 ^ 32 }
    requires few_calls { length calls.now < 2 ^ 32 }
    ensures { IfOk result (λ func. func ≡ group_func scope.now ty calls.now) }
{
    let body = group_body(alloc, scope, calls)?;
    Ok(Func {
        ty: type_count(scope) + group_type_place(results_of(scope, ty)),
        locals: List::new(alloc),
        body,
    })
}

/// The number of types that the original has.
fn type_count(scope: &Scope<'_>) -> u32
    requires { length scope.now.types < 2 ^ 32 }
    ensures { result ≡ length scope.now.types }
{
    scope.module().types.as_slice().len() as u32
}

/// The results of the original's type of this index.
fn results_of<'a>(scope: &Scope<'a>, ty: u32) -> &'a [ValType]
    ensures { result.now ≡ (original_type scope.now ty).results }
{
    match scope.module().types.as_slice().get(ty as usize) {
        Some(ty) => ty.results.as_slice(),
        None => &[],
    }
}

/// The index among the appended types of the type with these results.
fn group_type_place(results: &[ValType]) -> u32
    ensures place { result ≡ group_type_place results.now }
    ensures few { result ≤ 5 }
{
    match results.first() {
        Some(ValType::I32) => 2,
        Some(ValType::I64) => 3,
        Some(ValType::F32) => 4,
        Some(ValType::F64) => 5,
        _ => 1,
    }
}

/// The function in the place of an import with this type index.
pub(crate) fn import_func(
    alloc: Global,
    scope: &Scope<'_>,
    ty: u32,
    counter: u32,
    first: u32,
    count: u32,
) -> Result<Func, NoMemory>
    requires few_params { length (original_type scope.now ty).params < 2 ^ 32 }
    requires few_funcs { first + count ≤ 2 ^ 32 }
    ensures { IfOk result (λ func. func ≡ import_func scope.now ty counter first count) }
{
    let locals = one_local(alloc)?;
    let body = import_body(alloc, counter, param_count(scope, ty), first, count)?;
    Ok(Func { ty, locals, body })
}

/// The number of parameters of the original's type of this index.
fn param_count(scope: &Scope<'_>, ty: u32) -> u32
    requires { length (original_type scope.now ty).params < 2 ^ 32 }
    ensures { result ≡ length (original_type scope.now ty).params }
{
    match scope.module().types.as_slice().get(ty as usize) {
        Some(ty) => ty.params.as_slice().len() as u32,
        None => 0,
    }
}

/// The local that keeps the number of the call.
fn one_local(alloc: Global) -> Result<Runs, NoMemory>
    ensures { IfOk result (λ locals. locals ≡ one_i32 ∷ []) }
{
    let mut locals = Vec::with_capacity(alloc, 1)?;
    locals.push_reserved(Run {
        count: 1,
        ty: ValType::I32,
    });
    Ok(List::from_vec(locals))
}

/// The function for the host's own work.
pub(crate) fn start_func(
    alloc: Global,
    scope: &Scope<'_>,
    segments: &[Segment],
) -> Result<Func, NoMemory>
    requires { length scope.now.types < 2 ^ 32 }
    ensures { IfOk result (λ func. func ≡ start_func scope.now segments.now) }
{
    let body = start_body(alloc, scope, segments)?;
    Ok(Func {
        ty: type_count(scope),
        locals: List::new(alloc),
        body,
    })
}
