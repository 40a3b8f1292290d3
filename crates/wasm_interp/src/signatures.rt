// Types of functions that are equal in structure.

ghost use Rattle.std.specs.Prelude.{◌≡◌, ◌<◌, length, slice_get};
ghost use Rattle.wasm_syntax.specs.Alike as alike;
ghost use Rattle.wasm_flat.specs.Slots.{type_in};
ghost use Rattle.wasm_store.specs.Calls.{entry_at};
ghost use Rattle.flat_steps.specs.FlatStep.{same_types_there, calls_entry};
ghost use Rattle.wasm_interp.specs.Controls.{control_of};

use crate::control::Control;
use crate::table::entry;
use history_spec::TrapKind;
use wasm_flat::Flat;
use wasm_store::Store;
use wasm_syntax::FuncType;

/// Whether function types are equal in structure.
fn same_signature(a: &FuncType, b: &FuncType) -> bool
    ensures { result ≡ alike.same_signature a.now b.now }
{
    *a == *b
}

/// Whether a function has a type that is equal to a given one in structure.
fn has_type(flat: &Flat, ty: u32, func: u32) -> bool
    requires { ty < length flat.now.types }
    ensures { result ≡ same_types_there (slice_get flat.now.types ty) (type_in flat.now.types flat.now.indices func) }
{
    let types = flat.types.as_slice();
    let Some(index) = flat.indices.as_slice().get(func as usize) else {
        return false;
    };
    match types.get(*index as usize) {
        Some(other) => same_signature(&types[ty as usize], other),
        None => false,
    }
}

/// A call of the function in an entry of the table, which has this type.
pub(crate) fn call_entry(flat: &Flat, store: &Store, ty: u32, index: u64) -> Control
    requires { ty < length flat.now.types }
    ensures { result ≡ control_of (calls_entry flat.now store.now ty (entry_at store.now index)) }
{
    match entry(store, index) {
        None => Control::Traps {
            kind: TrapKind::Table,
            found: Some(store.table_size()),
        },
        Some(None) => Control::traps(TrapKind::Empty),
        Some(Some(func)) => {
            if has_type(flat, ty, func) {
                Control::Calls {
                    func,
                    found: Some(func),
                }
            } else {
                Control::Traps {
                    kind: TrapKind::Signature,
                    found: Some(func),
                }
            }
        }
    }
}
