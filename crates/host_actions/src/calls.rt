// Which function an entry of the table holds, and whether it can be called.

ghost use Rattle.std.specs.Prelude.{◌≡◌, List, Some, IfOk, IfErr};
ghost use Rattle.wasm_syntax.specs.declared.signatures.FuncType.{FuncType};
ghost use Rattle.wasm_syntax.specs.declared.values.Val.{Val};
ghost use Rattle.wasm_syntax.specs.Alike as alike;
ghost use Rattle.host_script.specs.declared.scripts.Action.TheVariants.{CallTable};
ghost use Rattle.history_spec.specs.Action.{perform, Enters, Fails};
ghost use Rattle.history_spec.specs.Code.{Code, types_of};
ghost use Rattle.host_actions.specs.Ready.{AreOf, IsReady, type_of};

use history_spec::FaultKind;
use host_script::is_type;
use wasm_store::Store;
use wasm_syntax::{FuncTypes, Indices, Val, ValType};

/// The functions of a module: its function types, the type index of each function, imported ones
/// first, and how many are imported.
#[derive(Debug, Drop)]
pub struct Functions {
    pub types: FuncTypes,
    pub indices: Indices,
    pub imported: u32,
}

/// The function in an entry of the table, or why the host cannot call it with these arguments (Core
/// 1.0, 7.1.3).
///
/// # Errors
/// `TableOutside` if there is no such entry, `EmptyEntry` if it is empty, `CallsOwn` if it
/// holds an import, `EntryType` if the function takes other arguments.
pub(crate) fn call_table(
    store: &Store,
    functions: &Functions,
    index: u32,
    args: &[Val],
) -> Result<u32, FaultKind>
    requires { IsReady functions.now store.now (CallTable index args.now) }
    ensures ok { (code : Code) (given : List Val) → AreOf code functions.now → IfOk result
        (λ func. perform code store.now given (CallTable index args.now) ≡ Enters func args.now) }
    ensures err { (code : Code) (given : List Val) → AreOf code functions.now → IfErr result
        (λ kind. perform code store.now given (CallTable index args.now) ≡ Fails kind) }
{
    let Ok(entry) = store.entry(index) else {
        return Err(FaultKind::TableOutside);
    };
    let Some(func) = entry else {
        return Err(FaultKind::EmptyEntry);
    };
    if func < functions.imported {
        return Err(FaultKind::CallsOwn);
    }
    if takes(functions, func, args) {
        Ok(func)
    } else {
        Err(FaultKind::EntryType)
    }
}

/// Whether arguments have the types of a function's parameters.
fn takes(functions: &Functions, func: u32, args: &[Val]) -> bool
    ensures { (ty : FuncType) → type_of functions.now func ≡ Some ty
        → result ≡ alike.same_types ty.params (types_of args.now) }
{
    let Some(index) = functions.indices.as_slice().get(func as usize) else {
        return false;
    };
    match functions.types.as_slice().get(*index as usize) {
        Some(ty) => are_of(args, ty.params.as_slice()),
        None => false,
    }
}

/// Whether values have these types, each its own.
fn are_of(values: &[Val], types: &[ValType]) -> bool
    ensures { result ≡ alike.same_types types.now (types_of values.now) }
{
    if types.len() != values.len() {
        return false;
    }
    'types: for at in 0..types.len() {
        if !is_type(types[at], values[at].ty) {
            return false;
        }
    }
    true
}
