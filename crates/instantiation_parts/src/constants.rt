// Constant expressions (Core 1.0, 3.3.7).

ghost use Rattle.std.specs.Prelude.{◌≡◌, ◌++◌, map, IfOk};
ghost use Rattle.history_spec.specs.Code.{zero_of};
ghost use Rattle.history_spec.specs.Instantiation as history;

use base::NoMemory;
use std::alloc::Global;
use wasm_syntax::{Global as GlobalDef, Instr, Val, ValType};

/// The value of a constant expression, given those of the imported globals.
fn constant(imported: &[Val], other: Val, body: &[Instr]) -> Val
    ensures { result ≡ history.constant imported.now other body.now }
{
    match body {
        [Instr::Const(value), Instr::End] => *value,
        [Instr::GlobalGet(global), Instr::End] => match imported.get(*global as usize) {
            Some(value) => *value,
            None => other,
        },
        _ => other,
    }
}

fn zero_of(ty: ValType) -> Val
    ensures { result ≡ zero_of ty }
{
    Val { ty, bits: 0 }
}

/// The unsigned number of an offset.
pub fn offset_of(imported: &[Val], body: &[Instr]) -> u64
    ensures { result ≡ history.offset_of imported.now body.now }
{
    constant(imported, zero_of(ValType::I32), body).bits
}

/// The values of all globals: the imported ones, and the initial values of the others (Core 1.0, 4.5.4).
///
/// # Errors
///
/// If an allocation fails.
pub fn all_globals(
    alloc: Global,
    imported: &[Val],
    globals: &[GlobalDef],
) -> Result<Vec<Val>, NoMemory>
    ensures { IfOk result (λ values.
        values.items ≡ imported.now ++ map (history.global_value imported.now) globals.now) }
{
    let mut values = Vec::from_slice(alloc, imported)?;
    'globals: for global in globals {
        values.push(constant(imported, zero_of(global.ty.ty), global.init.as_slice()))?;
    }
    Ok(values)
}
