// One action of the host.

ghost use Rattle.std.specs.Prelude.{◌≡◌, List, Some, IsSome, ◌<◌, length};
ghost use Rattle.wasm_syntax.specs.declared.values.Val.{Val};
ghost use Rattle.host_script.specs.declared.scripts.Address.{Address};
ghost use Rattle.host_script.specs.declared.scripts.Action.TheVariants.{Copy, Grow, GrowTable, SetGlobal, SetTable, Write};
ghost use Rattle.history_spec.specs.Action.{address_of};
ghost use Rattle.history_spec.specs.Code.{Code};
ghost use Rattle.host_actions.specs.Ready.{AreAddresses, AreOf, IsReady};
ghost use Rattle.host_actions.specs.Does.{Does, growth_result};

use crate::addresses::Addresses;
use crate::calls::{Functions, call_table};
use base::NoMemory;
use history_spec::FaultKind;
use host_script::Action;
use thiserror::Error;
use wasm_store::Store;
use wasm_syntax::Val;

/// What an action did.
#[derive(Clone, Copy, PartialEq, Eq, Debug)]
pub enum ActionEnd {
    /// The store is changed.
    Changed,
    /// The host calls this function, with the arguments that the action has.
    Enters { func: u32 },
}

/// Why an action cannot be done.
#[derive(Clone, Copy, PartialEq, Eq, Debug, Error)]
pub enum ActionFault {
    /// The host cannot do it.
    #[error("{kind}")]
    Fault { kind: FaultKind },
    /// No memory was left for the memory or the table to grow.
    #[error("out of memory")]
    Memory,
}

/// Performs one action of the host, whose ranges begin at `addresses`. The store has what the action
/// needs. For a call the store is as it was: the caller makes the call.
///
/// # Errors
/// `Fault` if the host cannot do it, `Memory` if an allocation failed, which a growth alone
/// makes; the store is then as it was.
pub fn perform(
    store: &mut Store,
    functions: &Functions,
    addresses: Addresses,
    action: &Action,
) -> Result<ActionEnd, ActionFault>
    requires { IsReady functions.now store.old action.now }
    ensures { (code : Code) (args : List Val) → AreOf code functions.now
        → AreAddresses args action.now addresses
        → Does code args action.now result store.old store.new }
{
    match action {
        Action::Write { bytes, .. } => write(store, addresses.to, bytes.as_slice()),
        Action::Copy { count, .. } => copy(store, addresses.to, addresses.source, *count),
        Action::SetTable { index, func } => set_table(store, *index, *func),
        Action::SetGlobal { global, value } => set_global(store, *global, *value),
        Action::Grow { pages } => grow(store, *pages),
        Action::GrowTable { entries } => grow_table(store, *entries),
        Action::Call { func, .. } => Ok(ActionEnd::Enters { func: *func }),
        Action::CallTable { index, args } => {
            match call_table(store, functions, *index, args.as_slice()) {
                Ok(func) => Ok(ActionEnd::Enters { func }),
                Err(kind) => Err(ActionFault::Fault { kind }),
            }
        }
    }
}

/// Writes bytes.
fn write(store: &mut Store, at: u64, bytes: &[u8]) -> Result<ActionEnd, ActionFault>
    requires { IsSome store.old.memory }
    ensures { (code : Code) (args : List Val) (to : Address) → address_of args to ≡ Some at
        → Does code args (Write to bytes.now) result store.old store.new }
{
    match store.put_bytes(at, bytes) {
        Ok(()) => Ok(ActionEnd::Changed),
        Err(_) => Err(ActionFault::Fault {
            kind: FaultKind::Outside,
        }),
    }
}

/// Copies bytes, as if all were read first.
fn copy(store: &mut Store, at: u64, from: u64, count: u32) -> Result<ActionEnd, ActionFault>
    requires { IsSome store.old.memory }
    ensures { (code : Code) (args : List Val) (to source : Address) → address_of args to ≡ Some at
        → address_of args source ≡ Some from
        → Does code args (Copy to source count) result store.old store.new }
{
    match store.move_bytes(at, from, u64::from(count)) {
        Ok(()) => Ok(ActionEnd::Changed),
        Err(_) => Err(ActionFault::Fault {
            kind: FaultKind::Outside,
        }),
    }
}

/// Sets or empties an entry of the table.
fn set_table(store: &mut Store, index: u32, func: Option<u32>) -> Result<ActionEnd, ActionFault>
    requires { IsSome store.old.table }
    ensures { (code : Code) (args : List Val)
        → Does code args (SetTable index func) result store.old store.new }
{
    match store.set_entry(index, func) {
        Ok(()) => Ok(ActionEnd::Changed),
        Err(_) => Err(ActionFault::Fault {
            kind: FaultKind::TableOutside,
        }),
    }
}

/// Gives a value to a global.
fn set_global(store: &mut Store, global: u32, value: Val) -> Result<ActionEnd, ActionFault>
    requires { global < length store.old.globals }
    ensures { (code : Code) (args : List Val)
        → Does code args (SetGlobal global value) result store.old store.new }
{
    store.set_global(global, value);
    Ok(ActionEnd::Changed)
}

/// Adds pages to the memory.
fn grow(store: &mut Store, pages: u32) -> Result<ActionEnd, ActionFault>
    requires { IsSome store.old.memory }
    ensures { (code : Code) (args : List Val)
        → Does code args (Grow pages) result store.old store.new }
{
    growth_result(store.grow(pages))
}

/// Adds empty entries to the table.
fn grow_table(store: &mut Store, entries: u32) -> Result<ActionEnd, ActionFault>
    requires { IsSome store.old.table }
    ensures { (code : Code) (args : List Val)
        → Does code args (GrowTable entries) result store.old store.new }
{
    growth_result(store.grow_table(entries))
}

/// The result of an action that grows a memory or a table.
fn growth_result(answer: Result<Option<u32>, NoMemory>) -> Result<ActionEnd, ActionFault>
    ensures { result ≡ growth_result answer }
{
    match answer {
        Ok(Some(_)) => Ok(ActionEnd::Changed),
        Ok(None) => Err(ActionFault::Fault {
            kind: FaultKind::GrowRefused,
        }),
        Err(_) => Err(ActionFault::Memory),
    }
}
