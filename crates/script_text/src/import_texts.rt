// The walk over a script's texts under the names of imports, in the order of the names' bytes.

ghost use Rattle.std.specs.Prelude.{◌≡◌};
ghost use Rattle.serde_json.specs.Find.{as_object};
ghost use Rattle.serde_json.specs.View.{view, members_view};
ghost use Rattle.script_text.specs.Walk.{Gives};
ghost use Rattle.script_text.specs.Values.{value_of};
ghost use Rattle.script_text.specs.Texts.{each_name, in_order, look_answer};
ghost use Rattle.script_text.specs.ImportTexts.{has_module as is_module, has_names as are_names, look, look_in_module, look_under_name, look_under_module, look_at_all};

use crate::faults::{NameFault, ScriptFault, fault_of_name};
use crate::paths::{below, shape};
use crate::responses::answer_under;
use crate::values::read_value;
use module_names::ModuleNames;
use serde_json::{Map, Value};
use std::alloc::Global;

/// The kind of the texts under the names of imports: values of globals, or answers to calls of functions.
#[derive(Clone, Copy)]
pub(crate) enum ImportTexts {
    Values,
    Answers,
}

/// Whether some import of this kind has this module name.
fn has_module(names: &ModuleNames<'_>, texts: ImportTexts, from: &str) -> bool
    ensures { result ≡ is_module texts names.now from.now }
{
    match texts {
        ImportTexts::Values => names.has_globals_from(from),
        ImportTexts::Answers => names.has_funcs_from(from),
    }
}

/// Whether some import of this kind has these two names.
fn has_names<'a>(names: &ModuleNames<'a>, texts: ImportTexts, from: &'a str, name: &'a str) -> bool
    ensures { result ≡ are_names texts names.now from.now name.now }
{
    match texts {
        ImportTexts::Values => names.has_global(from, name),
        ImportTexts::Answers => names.has_func(from, name),
    }
}

fn look_at_value(alloc: Global, value: &Value) -> Result<(), ScriptFault>
    ensures { Gives (λ u. u) result (in_order (value_of (view value.now))) }
{
    read_value(alloc, value)?;
    Ok(())
}

fn look_at_answer<'a>(
    alloc: Global,
    names: &ModuleNames<'a>,
    from: &'a str,
    name: &'a str,
    value: &'a Value,
) -> Result<(), ScriptFault>
    ensures { Gives (λ u. u) result (look_answer names.now from.now name.now (view value.now)) }
{
    drop(answer_under(alloc, names, from, name, value)?);
    Ok(())
}

/// Walks over one value, or over the answers of one function.
fn look_at_text<'a>(
    alloc: Global,
    names: &ModuleNames<'a>,
    texts: ImportTexts,
    from: &'a str,
    name: &'a str,
    value: &'a Value,
) -> Result<(), ScriptFault>
    ensures { Gives (λ u. u) result (look texts names.now from.now name.now (view value.now)) }
{
    match texts {
        ImportTexts::Values => look_at_value(alloc, value),
        ImportTexts::Answers => look_at_answer(alloc, names, from, name, value),
    }
}

/// Walks over the text under the name of an import.
fn look_at_name<'a>(
    alloc: Global,
    names: &ModuleNames<'a>,
    texts: ImportTexts,
    from: &'a str,
    name: &'a str,
    value: &'a Value,
) -> Result<(), ScriptFault>
    ensures { Gives (λ u. u) result
        (look_under_name texts names.now from.now name.now (view value.now)) }
{
    if !has_names(names, texts, from, name) {
        return Err(fault_of_name(alloc, NameFault::Unknown, name));
    }
    below(
        alloc,
        name,
        look_at_text(alloc, names, texts, from, name, value),
    )
}

#[tactic(auto, unfolding(crate::specs::Texts::each_name))]
fn look_at_names<'a>(
    alloc: Global,
    names: &ModuleNames<'a>,
    texts: ImportTexts,
    from: &'a str,
    object: &'a Map<String, Value>,
) -> Result<(), ScriptFault>
    ensures { Gives (λ u. u) result (each_name (are_names texts names.now from.now)
        (look texts names.now from.now) (members_view object.now.entries)) }
{
    'names: for (name, value) in object.iter() {
        look_at_name(alloc, names, texts, from, name.as_str(), value)?;
    }
    Ok(())
}

fn look_at_names_in<'a>(
    alloc: Global,
    names: &ModuleNames<'a>,
    texts: ImportTexts,
    from: &'a str,
    value: &'a Value,
) -> Result<(), ScriptFault>
    ensures { Gives (λ u. u) result (look_in_module texts names.now from.now (view value.now)) }
{
    match value.as_object() {
        Some(object) => look_at_names(alloc, names, texts, from, object),
        None => Err(shape(alloc)),
    }
}

/// Walks over the texts under the name of a module.
fn look_at_module<'a>(
    alloc: Global,
    names: &ModuleNames<'a>,
    texts: ImportTexts,
    from: &'a str,
    value: &'a Value,
) -> Result<(), ScriptFault>
    ensures { Gives (λ u. u) result (look_under_module texts names.now from.now (view value.now)) }
{
    if !has_module(names, texts, from) {
        return Err(fault_of_name(alloc, NameFault::Unknown, from));
    }
    below(
        alloc,
        from,
        look_at_names_in(alloc, names, texts, from, value),
    )
}

#[tactic(auto, unfolding(crate::specs::Texts::each_name))]
fn look_at_modules<'a>(
    alloc: Global,
    names: &ModuleNames<'a>,
    texts: ImportTexts,
    object: &'a Map<String, Value>,
) -> Result<(), ScriptFault>
    ensures { Gives (λ u. u) result (each_name (is_module texts names.now)
        (look_in_module texts names.now) (members_view object.now.entries)) }
{
    'names: for (from, value) in object.iter() {
        look_at_module(alloc, names, texts, from.as_str(), value)?;
    }
    Ok(())
}

/// Walks over all texts under the names of imports of one kind.
pub(crate) fn look_at_imports<'a>(
    alloc: Global,
    names: &ModuleNames<'a>,
    texts: ImportTexts,
    value: &'a Value,
) -> Result<(), ScriptFault>
    ensures { Gives (λ u. u) result (look_at_all texts names.now (view value.now)) }
{
    match value.as_object() {
        Some(object) => look_at_modules(alloc, names, texts, object),
        None => Err(shape(alloc)),
    }
}
