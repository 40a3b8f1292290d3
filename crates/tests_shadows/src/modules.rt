//! A module with a memory and a table, and its supply.

ghost use Rattle.std.specs.Prelude.{◌≡◌, [], ◌∷◌, IfOk};
ghost use Rattle.tests_shadows.specs.Modules.{module_with, nothing};

use host_script::Supply;
use sample_inputs::module_without_parts;
use std::alloc::{AllocError, Global};
use std::test::Fail;
use wasm_syntax::{DataSeg, Instr, Limits, List, Module, Val, ValType};
use wasm_validate::{Checked, validate};

/// A memory of one page with bytes from an offset on, and a table of two empty entries.
fn module_of(alloc: Global, offset: u32, bytes: &[u8]) -> Result<Module, AllocError>
    ensures { IfOk result (λ m. m ≡ module_with 1 2 offset bytes.now) }
{
    let bits = offset as u64;
    let ty = ValType::I32;
    let start = Vec::from_array(alloc, [Instr::Const(Val { ty, bits }), Instr::End])?;
    let bytes = Vec::from_slice(alloc, bytes)?;
    let segment = DataSeg {
        memory: 0,
        offset: List::from_vec(start),
        bytes: List::from_vec(bytes),
    };
    module_of_segment(alloc, segment)
}

/// The same memory and table, with this data segment.
fn module_of_segment(alloc: Global, segment: DataSeg) -> Result<Module, AllocError>
    ensures { IfOk result (λ m. m ≡ record (module_with 1 2 0 []) { datas = segment ∷ [] }) }
{
    let table = Limits { min: 2, max: None };
    let memory = Limits { min: 1, max: None };
    let tables = Vec::from_array(alloc, [table])?;
    let memories = Vec::from_array(alloc, [memory])?;
    let datas = Vec::from_array(alloc, [segment])?;
    Ok(Module {
        tables: List::from_vec(tables),
        memories: List::from_vec(memories),
        datas: List::from_vec(datas),
        ..module_without_parts(alloc)
    })
}

/// The module with these bytes, which is valid.
pub(crate) fn checked_module(alloc: Global, offset: u32, bytes: &[u8]) -> Result<Checked, Fail>
    ensures { IfOk result (λ checked. checked ≡ module_with 1 2 offset bytes.now) }
{
    match validate(alloc, module_of(alloc, offset, bytes)?) {
        Ok(checked) => Ok(checked),
        Err(_) => Err(Fail::from("an invalid module")),
    }
}

/// A supply without parts.
pub(crate) fn no_supply(alloc: Global) -> Supply
    ensures { result ≡ nothing }
{
    Supply {
        memory: None,
        table: None,
        globals: List::new(alloc),
    }
}
