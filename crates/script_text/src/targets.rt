// The globals that the host sets, and their values.

ghost use Rattle.serde_json.specs.View.{view};
ghost use Rattle.script_text.specs.Walk.{Gives, under};
ghost use Rattle.script_text.specs.Actions.{target_of, import_target, import_names, global_at, fits_global as fitting_global, set_global_of};
ghost use Rattle.script_text.specs.Places.{target_from};

use crate::faults::{NameFault, ScriptFault, fault_of_name};
use crate::objects::{only, read_text};
use crate::paths::{below, shape};
use crate::values::value_under;
use host_script::{Action, is_type};
use module_names::ModuleNames;
use serde_json::Value;
use std::alloc::Global;
use wasm_syntax::Val;

/// The names of a global: the name of an export, or the module name and the name of an import.
#[derive(Clone, Copy)]
pub(crate) struct Target<'v> {
    pub(crate) from: Option<&'v str>,
    pub(crate) name: &'v str,
}

/// The names of an import, from a list of two texts.
fn read_names(alloc: Global, value: &Value) -> Result<Target<'_>, ScriptFault>
    ensures { Gives target_from result (import_names (view value.now)) }
{
    match value.as_array() {
        Some(items) => match items.as_slice() {
            [from, name] => {
                let from = below(alloc, "0", read_text(alloc, from))?;
                let name = below(alloc, "1", read_text(alloc, name))?;
                Ok(Target {
                    from: Some(from),
                    name,
                })
            }
            [] => Err(shape(alloc)),
            [_] => Err(shape(alloc)),
            [_, _, _, ..] => Err(shape(alloc)),
        },
        None => Err(shape(alloc)),
    }
}

/// The names of an import, from an object.
fn read_import_target(alloc: Global, value: &Value) -> Result<Target<'_>, ScriptFault>
    ensures { Gives target_from result (import_target (view value.now)) }
{
    only(alloc, value, &["import"])?;
    match value.get("import") {
        Some(names) => below(alloc, "import", read_names(alloc, names)),
        None => Err(shape(alloc)),
    }
}

#[tactic(auto, unfolding(crate::specs::Actions::target_of))]
fn read_target(alloc: Global, value: &Value) -> Result<Target<'_>, ScriptFault>
    ensures { Gives target_from result (target_of (view value.now)) }
{
    if value.is_object() {
        return read_import_target(alloc, value);
    }
    let name = read_text(alloc, value)?;
    Ok(Target { from: None, name })
}

fn target_under<'v>(alloc: Global, object: &'v Value, key: &str) -> Result<Target<'v>, ScriptFault>
    ensures { Gives target_from result (under key.now target_of (view object.now)) }
{
    match object.get(key) {
        Some(value) => below(alloc, key, read_target(alloc, value)),
        None => Err(shape(alloc)),
    }
}

/// The index of a global.
#[tactic(auto, unfolding(crate::specs::Actions::global_at))]
fn global_of<'a>(
    alloc: Global,
    names: &ModuleNames<'a>,
    target: Target<'a>,
) -> Result<u32, ScriptFault>
    ensures { Gives (λ g. g) result (global_at names.now (target_from target.entry)) }
{
    match target.from {
        None => match names.exported_global(target.name) {
            Some(global) => Ok(global),
            None => Err(fault_of_name(alloc, NameFault::Unknown, target.name)),
        },
        Some(from) => {
            if !names.has_globals_from(from) {
                return Err(fault_of_name(alloc, NameFault::Unknown, from));
            }
            match names.imported_global(from, target.name) {
                Some(place) => match u32::try_from(place) {
                    Ok(global) => Ok(global),
                    // More than 2^32 imports do not fit into memory.
                    Err(_) => Err(ScriptFault::Memory),
                },
                None => Err(fault_of_name(alloc, NameFault::Unknown, target.name)),
            }
        }
    }
}

/// Tests that a global can be changed to a value.
#[tactic(auto, unfolding(crate::specs::Actions::fits_global))]
fn fits_global(
    alloc: Global,
    names: &ModuleNames<'_>,
    global: u32,
    name: &str,
    value: Val,
) -> Result<(), ScriptFault>
    ensures { Gives (λ u. u) result (fitting_global names.now global name.now value) }
{
    let Some(ty) = names.global_type(global) else {
        return Err(fault_of_name(alloc, NameFault::Unknown, name));
    };
    if !ty.mutable {
        Err(fault_of_name(alloc, NameFault::NoAccess, name))
    } else if is_type(value.ty, ty.ty) {
        Ok(())
    } else {
        Err(fault_of_name(alloc, NameFault::WrongType, name))
    }
}

#[tactic(auto, unfolding(crate::specs::Actions::set_global_of))]
pub(crate) fn read_set_global<'a>(
    alloc: Global,
    names: &ModuleNames<'a>,
    value: &'a Value,
) -> Result<Action, ScriptFault>
    ensures { Gives (λ a. a) result (set_global_of names.now (view value.now)) }
{
    only(alloc, value, &["set_global", "value"])?;
    let target = target_under(alloc, value, "set_global")?;
    let given = value_under(alloc, value, "value")?;
    let global = global_of(alloc, names, target)?;
    fits_global(alloc, names, global, target.name, given)?;
    Ok(Action::SetGlobal {
        global,
        value: given,
    })
}
