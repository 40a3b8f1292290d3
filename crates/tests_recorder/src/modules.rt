//! A module whose hook calls a recorder takes.

ghost use Rattle.std.specs.Prelude.{IfOk};
ghost use Rattle.tests_recorder.specs.Modules.{IsBare};

use sample_inputs::module_without_parts;
use std::alloc::{AllocError, Global};
use wasm_syntax::{Func, FuncType, Instr, Limits, List, Module, Val, ValType};

/// The number of the module's functions: an import of the original, the hooks, and a function of the original.
const FUNCS: usize = 17;

/// A function without parameters that returns a number.
fn number_func(alloc: Global) -> Result<Func, AllocError> {
    let zero = Val {
        ty: ValType::I32,
        bits: 0,
    };
    let body = Vec::from_array(alloc, [Instr::Const(zero), Instr::End])?;
    Ok(Func {
        ty: 0,
        locals: List::new(alloc),
        body: List::from_vec(body),
    })
}

/// All functions.
fn all_funcs(alloc: Global) -> Result<Vec<Func>, AllocError> {
    let mut funcs = Vec::new(alloc);
    'funcs: for _at in 0..FUNCS {
        funcs.push(number_func(alloc)?)?;
    }
    Ok(funcs)
}

/// The type of all functions.
fn number_type(alloc: Global) -> Result<FuncType, AllocError> {
    let results = Vec::from_array(alloc, [ValType::I32])?;
    Ok(FuncType {
        params: List::new(alloc),
        results: List::from_vec(results),
    })
}

/// The module: these functions, a memory of one page and a table of two empty entries.
pub(crate) fn module_of(alloc: Global) -> Result<Module, AllocError>
    ensures { IfOk result IsBare }
{
    let types = Vec::from_array(alloc, [number_type(alloc)?])?;
    let funcs = all_funcs(alloc)?;
    module_with(alloc, types, funcs)
}

/// The module with its types and functions.
fn module_with(alloc: Global, types: Vec<FuncType>, funcs: Vec<Func>) -> Result<Module, AllocError>
    ensures { IfOk result IsBare }
{
    let table = Limits { min: 2, max: None };
    let memory = Limits { min: 1, max: None };
    let tables = Vec::from_array(alloc, [table])?;
    let memories = Vec::from_array(alloc, [memory])?;
    Ok(Module {
        types: List::from_vec(types),
        funcs: List::from_vec(funcs),
        tables: List::from_vec(tables),
        memories: List::from_vec(memories),
        ..module_without_parts(alloc)
    })
}
