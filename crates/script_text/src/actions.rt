// Actions of the host, by their lead keys.

ghost use Rattle.std.specs.Prelude.{◌≤◌, option_map, OnOk};
ghost use Rattle.serde_json.specs.View.{view};
ghost use Rattle.wasm_syntax.specs.Index.{imported_funcs};
ghost use Rattle.script_text.specs.Walk.{Gives};
ghost use Rattle.script_text.specs.Actions.{access_to as access_where, memory_access as memory_reached, table_access as table_reached, write_of, copy_of, func_named as func_under, entry_named as entry_under, set_table_of, grow_of, grow_table_of, is_defined as defined_func, fits_params as fitting_params, call_of, call_table_of};
ghost use Rattle.script_text.specs.Places.{place_of};

use crate::faults::{NameFault, ScriptFault, fault_of_name};
use crate::objects::{bytes_under, only, text_or_null_under, text_under};
use crate::places::{Place, address_under, fits_address};
use crate::types::are_of_types;
use crate::values::{u32_under, values_under};
use host_script::Action;
use module_names::ModuleNames;
use serde_json::Value;
use std::alloc::Global;
use wasm_syntax::Vals;

/// Tests that the host reaches the memory or the table of this name.
fn access_to(alloc: Global, reached: bool, name: &str) -> Result<(), ScriptFault>
    ensures { Gives (λ u. u) result (access_where reached name.now) }
{
    if reached {
        Ok(())
    } else {
        Err(fault_of_name(alloc, NameFault::NoAccess, name))
    }
}

#[tactic(auto, unfolding(crate::specs::Actions::memory_access))]
fn memory_access(alloc: Global, names: &ModuleNames<'_>) -> Result<(), ScriptFault>
    ensures { Gives (λ u. u) result (memory_reached names.now) }
{
    access_to(alloc, names.reaches_memory(), "memory")
}

#[tactic(auto, unfolding(crate::specs::Actions::table_access))]
fn table_access(alloc: Global, names: &ModuleNames<'_>) -> Result<(), ScriptFault>
    ensures { Gives (λ u. u) result (table_reached names.now) }
{
    access_to(alloc, names.reaches_table(), "table")
}

#[tactic(auto, unfolding(crate::specs::Actions::write_of))]
pub(crate) fn read_write(
    alloc: Global,
    names: &ModuleNames<'_>,
    place: &Place<'_, '_, '_, '_>,
    value: &Value,
) -> Result<Action, ScriptFault>
    ensures { Gives (λ a. a) result (write_of names.now (place_of place.now) (view value.now)) }
{
    only(alloc, value, &["write", "bytes"])?;
    let to = address_under(alloc, place, value, "write")?;
    let bytes = bytes_under(alloc, value, "bytes")?;
    memory_access(alloc, names)?;
    fits_address(alloc, place, to)?;
    Ok(Action::Write { to, bytes })
}

#[tactic(auto, unfolding(crate::specs::Actions::copy_of))]
pub(crate) fn read_copy(
    alloc: Global,
    names: &ModuleNames<'_>,
    place: &Place<'_, '_, '_, '_>,
    value: &Value,
) -> Result<Action, ScriptFault>
    ensures { Gives (λ a. a) result (copy_of names.now (place_of place.now) (view value.now)) }
{
    only(alloc, value, &["copy", "from", "count"])?;
    let to = address_under(alloc, place, value, "copy")?;
    let source = address_under(alloc, place, value, "from")?;
    let count = u32_under(alloc, value, "count")?;
    memory_access(alloc, names)?;
    fits_address(alloc, place, to)?;
    fits_address(alloc, place, source)?;
    Ok(Action::Copy { to, source, count })
}

/// The exported function of a name.
#[tactic(auto, unfolding(crate::specs::Actions::func_named))]
fn func_named(alloc: Global, names: &ModuleNames<'_>, name: &str) -> Result<u32, ScriptFault>
    ensures { Gives (λ f. f) result (func_under names.now name.now) }
{
    match names.exported_func(name) {
        Some(func) => Ok(func),
        None => Err(fault_of_name(alloc, NameFault::Unknown, name)),
    }
}

/// The exported function of a name, or `None` if there is no name.
#[tactic(auto, unfolding(crate::specs::Actions::entry_named))]
fn entry_named(
    alloc: Global,
    names: &ModuleNames<'_>,
    name: Option<&str>,
) -> Result<Option<u32>, ScriptFault>
    ensures { Gives (λ f. f) result (entry_under names.now (option_map (λ n. n.now) name.entry)) }
{
    match name {
        Some(name) => Ok(Some(func_named(alloc, names, name)?)),
        None => Ok(None),
    }
}

#[tactic(auto, unfolding(crate::specs::Actions::set_table_of))]
pub(crate) fn read_set_table(
    alloc: Global,
    names: &ModuleNames<'_>,
    value: &Value,
) -> Result<Action, ScriptFault>
    ensures { Gives (λ a. a) result (set_table_of names.now (view value.now)) }
{
    only(alloc, value, &["set_table", "func"])?;
    let index = u32_under(alloc, value, "set_table")?;
    let name = text_or_null_under(alloc, value, "func")?;
    table_access(alloc, names)?;
    let func = entry_named(alloc, names, name)?;
    Ok(Action::SetTable { index, func })
}

#[tactic(auto, unfolding(crate::specs::Actions::grow_of))]
pub(crate) fn read_grow(
    alloc: Global,
    names: &ModuleNames<'_>,
    value: &Value,
) -> Result<Action, ScriptFault>
    ensures { Gives (λ a. a) result (grow_of names.now (view value.now)) }
{
    only(alloc, value, &["grow"])?;
    let pages = u32_under(alloc, value, "grow")?;
    memory_access(alloc, names)?;
    Ok(Action::Grow { pages })
}

#[tactic(auto, unfolding(crate::specs::Actions::grow_table_of))]
pub(crate) fn read_grow_table(
    alloc: Global,
    names: &ModuleNames<'_>,
    value: &Value,
) -> Result<Action, ScriptFault>
    ensures { Gives (λ a. a) result (grow_table_of names.now (view value.now)) }
{
    only(alloc, value, &["grow_table"])?;
    let entries = u32_under(alloc, value, "grow_table")?;
    table_access(alloc, names)?;
    Ok(Action::GrowTable { entries })
}

/// Tests that the module defines a function.
#[tactic(auto, unfolding(crate::specs::Actions::is_defined))]
fn is_defined(
    alloc: Global,
    names: &ModuleNames<'_>,
    func: u32,
    name: &str,
) -> Result<(), ScriptFault>
    ensures value { Gives (λ u. u) result (defined_func names.now func name.now) }
    ensures defined { OnOk result (imported_funcs names.now ≤ func) }
{
    if names.is_import(func) {
        Err(fault_of_name(alloc, NameFault::CallsOwn, name))
    } else {
        Ok(())
    }
}

/// Tests that values are arguments of a defined function.
#[tactic(auto, unfolding(crate::specs::Actions::fits_params))]
fn fits_params(
    alloc: Global,
    names: &ModuleNames<'_>,
    func: u32,
    name: &str,
    args: &Vals,
) -> Result<(), ScriptFault>
    requires { imported_funcs names.now ≤ func }
    ensures { Gives (λ u. u) result (fitting_params names.now func name.now args.now) }
{
    match names.defined_type(func) {
        Some(ty) if are_of_types(args.as_slice(), ty.params.as_slice()) => Ok(()),
        _ => Err(fault_of_name(alloc, NameFault::WrongType, name)),
    }
}

#[tactic(auto, unfolding(crate::specs::Actions::call_of))]
pub(crate) fn read_call(
    alloc: Global,
    names: &ModuleNames<'_>,
    value: &Value,
) -> Result<Action, ScriptFault>
    ensures { Gives (λ a. a) result (call_of names.now (view value.now)) }
{
    only(alloc, value, &["call", "args"])?;
    let name = text_under(alloc, value, "call")?;
    let args = values_under(alloc, value, "args")?;
    let func = func_named(alloc, names, name)?;
    is_defined(alloc, names, func, name)?;
    fits_params(alloc, names, func, name, &args)?;
    Ok(Action::Call { func, args })
}

#[tactic(auto, unfolding(crate::specs::Actions::call_table_of))]
pub(crate) fn read_call_table(
    alloc: Global,
    names: &ModuleNames<'_>,
    value: &Value,
) -> Result<Action, ScriptFault>
    ensures { Gives (λ a. a) result (call_table_of names.now (view value.now)) }
{
    only(alloc, value, &["call_table", "args"])?;
    let index = u32_under(alloc, value, "call_table")?;
    let args = values_under(alloc, value, "args")?;
    table_access(alloc, names)?;
    Ok(Action::CallTable { index, args })
}
