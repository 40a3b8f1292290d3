// The types and the counters that are appended to those of the original.

ghost use Rattle.std.specs.Prelude.{◌≡◌, [], ◌∷◌, IfOk, OnOk, ◌++◌, replicate};
ghost use Rattle.replay_module_spec.specs.Fragments.{counter};
ghost use Rattle.replay_module_spec.specs.Functions.{appended_types, group_type, start_type};

use crate::stores::i32_const;
use base::NoMemory;
use std::alloc::Global;
use wasm_syntax::{
    FuncType, FuncTypes, Global as Counter, GlobalType, Globals, Instr, List, ValType, ValTypes,
};

/// The types of generated functions.
pub(crate) fn appended_types(alloc: Global) -> Result<FuncTypes, NoMemory>
    ensures { IfOk result (λ types. types ≡ appended_types) }
{
    let mut types = Vec::with_capacity(alloc, 6)?;
    types.push(FuncType {
        params: List::new(alloc),
        results: List::new(alloc),
    })?;
    types.push(group_type(alloc, List::new(alloc))?)?;
    push_group_type(alloc, &mut types, ValType::I32)?;
    push_group_type(alloc, &mut types, ValType::I64)?;
    push_group_type(alloc, &mut types, ValType::F32)?;
    push_group_type(alloc, &mut types, ValType::F64)?;
    Ok(List::from_vec(types))
}

/// Appends the type of a function that takes the number of a call and returns a value of this type.
///
/// # Errors
///
/// `NoMemory` if memory is out.
pub fn push_group_type(
    alloc: Global,
    types: &mut Vec<FuncType>,
    value: ValType,
) -> Result<(), NoMemory>
    ensures { OnOk result (types.new.items ≡ types.old.items ++ group_type (value ∷ []) ∷ []) }
{
    let results = one_type(alloc, value)?;
    types.push(group_type(alloc, results)?)?;
    Ok(())
}

/// The type of a function that takes the number of a call.
fn group_type(alloc: Global, results: ValTypes) -> Result<FuncType, NoMemory>
    ensures { IfOk result (λ ty. ty ≡ group_type results) }
{
    Ok(FuncType {
        params: one_type(alloc, ValType::I32)?,
        results,
    })
}

/// A list of one type.
///
/// # Errors
///
/// `NoMemory` if memory is out.
pub fn one_type(alloc: Global, ty: ValType) -> Result<ValTypes, NoMemory>
    ensures { IfOk result (λ types. types ≡ ty ∷ []) }
{
    let mut types = Vec::with_capacity(alloc, 1)?;
    types.push_reserved(ty);
    Ok(List::from_vec(types))
}

/// Counters, in this number.
pub(crate) fn counters(alloc: Global, count: usize) -> Result<Globals, NoMemory>
    ensures { IfOk result (λ globals. globals ≡ replicate count counter) }
{
    let mut counters = Vec::with_capacity(alloc, count)?;
    'counters: for _ in 0..count {
        counters.push(counter(alloc)?)?;
    }
    Ok(List::from_vec(counters))
}

/// A global that begins at 0.
///
/// # Errors
///
/// `NoMemory` if memory is out.
pub fn counter(alloc: Global) -> Result<Counter, NoMemory>
    ensures { IfOk result (λ global. global ≡ counter) }
{
    let mut init = Vec::with_capacity(alloc, 2)?;
    init.push_reserved(i32_const(0));
    init.push_reserved(Instr::End);
    Ok(Counter {
        ty: GlobalType {
            ty: ValType::I32,
            mutable: true,
        },
        init: List::from_vec(init),
    })
}
