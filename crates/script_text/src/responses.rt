// Actions by their lead keys, responses to calls, and the answers to the calls of an import.

ghost use Rattle.std.specs.Prelude.{◌≡◌, [], map, is_some, codes};
ghost use Rattle.serde_json.specs.Find.{get};
ghost use Rattle.serde_json.specs.View.{view, items_view};
ghost use Rattle.script_text.specs.Walk.{Gives, under_or, under_if_there, list_of, items_from, at_index};
ghost use Rattle.script_text.specs.Actions.{key_of, leads_in, action_with, action_of, actions_under as actions_below};
ghost use Rattle.script_text.specs.Places.{place_of};
ghost use Rattle.module_names.specs.Names.{func_types_named};
ghost use Rattle.script_text.specs.Texts.{fits_results as fitting_results, trap_of, return_of, end_of, response_of, answer_of};

use crate::action_keys::Lead;
use crate::actions::{
    read_call, read_call_table, read_copy, read_grow, read_grow_table, read_set_table, read_write,
};
use crate::common_types::CommonTypes;
use crate::faults::{NameFault, ScriptFault, fault_of_name, push_item};
use crate::objects::only;
use crate::paths::{below, below_index, shape};
use crate::places::Place;
use crate::targets::read_set_global;
use crate::values::value_if_there;
use host_script::{Action, Actions, Answer, Response, ResponseEnd, Responses};
use module_names::ModuleNames;
use serde_json::Value;
use std::alloc::Global;
use wasm_syntax::{FuncType, List, Val};

/// Reads an action that has this lead key.
fn read_with<'a>(
    alloc: Global,
    names: &ModuleNames<'a>,
    place: &Place<'_, '_, '_, '_>,
    lead: Lead,
    value: &'a Value,
) -> Result<Action, ScriptFault>
    ensures { Gives (λ a. a) result (action_with names.now (place_of place.now) lead (view value.now)) }
{
    match lead {
        Lead::Write => read_write(alloc, names, place, value),
        Lead::Copy => read_copy(alloc, names, place, value),
        Lead::SetTable => read_set_table(alloc, names, value),
        Lead::SetGlobal => read_set_global(alloc, names, value),
        Lead::Grow => read_grow(alloc, names, value),
        Lead::GrowTable => read_grow_table(alloc, names, value),
        Lead::Call => read_call(alloc, names, value),
        Lead::CallTable => read_call_table(alloc, names, value),
    }
}

/// The text of a lead key.
fn key_text(lead: Lead) -> &'static str
    ensures { result.now ≡ key_of lead }
{
    match lead {
        Lead::Write => "write",
        Lead::Copy => "copy",
        Lead::SetTable => "set_table",
        Lead::SetGlobal => "set_global",
        Lead::Grow => "grow",
        Lead::GrowTable => "grow_table",
        Lead::Call => "call",
        Lead::CallTable => "call_table",
    }
}

/// Every lead key.
const LEADS: [Lead; 8] = [
    Lead::Write,
    Lead::Copy,
    Lead::SetTable,
    Lead::SetGlobal,
    Lead::Grow,
    Lead::GrowTable,
    Lead::Call,
    Lead::CallTable,
];

fn has_lead(value: &Value, lead: Lead) -> bool
    ensures { result ≡ is_some (get (key_of lead) (view value.now)) }
{
    value.get(key_text(lead)).is_some()
}

/// The lead keys of an object.
fn leads_of(alloc: Global, value: &Value) -> Result<Vec<Lead>, ScriptFault>
    ensures { Gives (λ leads. leads.items) result (Ok (leads_in (view value.now))) }
{
    let leads = LEADS;
    let mut found = Vec::new(alloc);
    'leads: for lead in leads.as_slice() {
        if has_lead(value, *lead) {
            push_item(&mut found, *lead)?;
        }
    }
    Ok(found)
}

/// An action: an object with exactly one lead key.
#[tactic(auto, unfolding(crate::specs::Actions::action_of))]
fn read_action<'a>(
    alloc: Global,
    names: &ModuleNames<'a>,
    place: &Place<'_, '_, '_, '_>,
    value: &'a Value,
) -> Result<Action, ScriptFault>
    ensures { Gives (λ a. a) result (action_of names.now (place_of place.now) (view value.now)) }
{
    let leads = leads_of(alloc, value)?;
    match leads.as_slice() {
        [lead] => read_with(alloc, names, place, *lead, value),
        _ => Err(shape(alloc)),
    }
}

fn action_at<'a>(
    alloc: Global,
    names: &ModuleNames<'a>,
    place: &Place<'_, '_, '_, '_>,
    index: usize,
    value: &'a Value,
) -> Result<Action, ScriptFault>
    ensures { Gives (λ a. a) result
        (at_index index (action_of names.now (place_of place.now)) (view value.now)) }
{
    below_index(alloc, index, read_action(alloc, names, place, value))
}

fn read_actions<'a>(
    alloc: Global,
    names: &ModuleNames<'a>,
    place: &Place<'_, '_, '_, '_>,
    values: &'a [Value],
) -> Result<Actions, ScriptFault>
    ensures { Gives (λ a. a) result
        (items_from (action_of names.now (place_of place.now)) 0 (items_view values.now)) }
{
    let mut found = Vec::new(alloc);
    'items: for (index, value) in values.iter().enumerate() {
        let item = action_at(alloc, names, place, index, value)?;
        push_item(&mut found, item)?;
    }
    Ok(List::from_vec(found))
}

/// The actions under a key, or an empty list if the key is missing.
pub(crate) fn actions_under<'a>(
    alloc: Global,
    names: &ModuleNames<'a>,
    place: &Place<'_, '_, '_, '_>,
    object: &'a Value,
    key: &str,
) -> Result<Actions, ScriptFault>
    ensures { Gives (λ a. a) result
        (actions_below names.now (place_of place.now) key.now (view object.now)) }
{
    match object.get(key) {
        Some(value) => match value.as_array() {
            Some(values) => below(
                alloc,
                key,
                read_actions(alloc, names, place, values.as_slice()),
            ),
            None => below(alloc, key, Err(shape(alloc))),
        },
        None => Ok(List::new(alloc)),
    }
}

/// Tests that each of the functions that are answered returns a value of this type, or nothing without a value.
#[tactic(auto, unfolding(crate::specs::Texts::fits_results))]
fn fits_results(
    alloc: Global,
    name: &str,
    types: &CommonTypes<'_, '_>,
    value: Option<Val>,
) -> Result<(), ScriptFault>
    ensures { Gives (λ u. u) result (fitting_results name.now types.now value) }
{
    if types.return_value(value) {
        Ok(())
    } else {
        Err(fault_of_name(alloc, NameFault::WrongType, name))
    }
}

#[tactic(auto, unfolding(crate::specs::Texts::trap_of))]
fn read_trap(alloc: Global, value: &Value) -> Result<ResponseEnd, ScriptFault>
    ensures { Gives (λ e. e) result (trap_of (view value.now)) }
{
    match value {
        Value::Bool(true) => Ok(ResponseEnd::Trap),
        _ => Err(shape(alloc)),
    }
}

#[tactic(auto, unfolding(crate::specs::Texts::return_of))]
fn read_return(
    alloc: Global,
    name: &str,
    types: &CommonTypes<'_, '_>,
    object: &Value,
) -> Result<ResponseEnd, ScriptFault>
    ensures { Gives (λ e. e) result (return_of name.now types.now (view object.now)) }
{
    let value = value_if_there(alloc, object, "return")?;
    fits_results(alloc, name, types, value)?;
    Ok(ResponseEnd::Return(value))
}

/// How a response ends: with a value, without one, or with a trap.
#[tactic(auto, unfolding(crate::specs::Texts::end_of))]
fn read_end(
    alloc: Global,
    name: &str,
    types: &CommonTypes<'_, '_>,
    object: &Value,
) -> Result<ResponseEnd, ScriptFault>
    ensures { Gives (λ e. e) result (end_of name.now types.now (view object.now)) }
{
    match object.get("trap") {
        Some(trap) => {
            if object.get("return").is_some() {
                return Err(shape(alloc));
            }
            below(alloc, "trap", read_trap(alloc, trap))
        }
        None => read_return(alloc, name, types, object),
    }
}

/// A response to calls of the functions imported under two names; `name` is the second.
#[tactic(auto, unfolding(crate::specs::Texts::response_of))]
fn read_response<'a>(
    alloc: Global,
    names: &ModuleNames<'a>,
    name: &str,
    types: &CommonTypes<'_, '_>,
    value: &'a Value,
) -> Result<Response, ScriptFault>
    ensures { Gives (λ r. r) result (response_of names.now name.now types.now (view value.now)) }
{
    only(alloc, value, &["do", "return", "trap"])?;
    let place = Place {
        name,
        types: Some(types),
    };
    let actions = actions_under(alloc, names, &place, value, "do")?;
    let end = read_end(alloc, name, types, value)?;
    Ok(Response { actions, end })
}

fn response_at<'a>(
    alloc: Global,
    names: &ModuleNames<'a>,
    name: &str,
    types: &CommonTypes<'_, '_>,
    index: usize,
    value: &'a Value,
) -> Result<Response, ScriptFault>
    ensures { Gives (λ r. r) result
        (at_index index (response_of names.now name.now types.now)
        (view value.now)) }
{
    below_index(
        alloc,
        index,
        read_response(alloc, names, name, types, value),
    )
}

fn read_responses<'a>(
    alloc: Global,
    names: &ModuleNames<'a>,
    name: &str,
    types: &CommonTypes<'_, '_>,
    values: &'a [Value],
) -> Result<Responses, ScriptFault>
    ensures { Gives (λ r. r) result
        (items_from (response_of names.now name.now types.now) 0
        (items_view values.now)) }
{
    let mut found = Vec::new(alloc);
    'items: for (index, value) in values.iter().enumerate() {
        let item = response_at(alloc, names, name, types, index, value)?;
        push_item(&mut found, item)?;
    }
    Ok(List::from_vec(found))
}

/// The responses under `calls`, or an empty list if the key is missing.
fn read_calls<'a>(
    alloc: Global,
    names: &ModuleNames<'a>,
    name: &str,
    types: &CommonTypes<'_, '_>,
    object: &'a Value,
) -> Result<Responses, ScriptFault>
    ensures { Gives (λ r. r) result
        (under_or (codes "calls") [] (list_of (response_of names.now name.now types.now))
        (view object.now)) }
{
    match object.get("calls") {
        Some(value) => match value.as_array() {
            Some(values) => below(
                alloc,
                "calls",
                read_responses(alloc, names, name, types, values.as_slice()),
            ),
            None => below(alloc, "calls", Err(shape(alloc))),
        },
        None => Ok(List::new(alloc)),
    }
}

/// The response under `rest`, or `None` if the key is missing.
fn read_rest<'a>(
    alloc: Global,
    names: &ModuleNames<'a>,
    name: &str,
    types: &CommonTypes<'_, '_>,
    object: &'a Value,
) -> Result<Option<Response>, ScriptFault>
    ensures { Gives (λ r. r) result
        (under_if_there (codes "rest") (response_of names.now name.now types.now)
        (view object.now)) }
{
    match object.get("rest") {
        Some(value) => Ok(Some(below(
            alloc,
            "rest",
            read_response(alloc, names, name, types, value),
        )?)),
        None => Ok(None),
    }
}

/// The answers to the calls of the functions imported under two names; `name` is the second.
#[tactic(auto, unfolding(crate::specs::Texts::answer_of))]
fn read_answer<'a>(
    alloc: Global,
    names: &ModuleNames<'a>,
    name: &str,
    types: &[&FuncType],
    value: &'a Value,
) -> Result<Answer, ScriptFault>
    ensures { Gives (λ a. a) result
        (answer_of names.now name.now (map (λ ty. ty.now) types.now) (view value.now)) }
{
    only(alloc, value, &["calls", "rest"])?;
    let types = CommonTypes::of(alloc, types).map_err(|_| ScriptFault::Memory)?;
    let calls = read_calls(alloc, names, name, &types, value)?;
    let rest = read_rest(alloc, names, name, &types, value)?;
    Ok(Answer { calls, rest })
}

/// The answers to the calls of the functions imported under two names.
pub(crate) fn answer_under<'a>(
    alloc: Global,
    names: &ModuleNames<'a>,
    from: &'a str,
    name: &'a str,
    value: &'a Value,
) -> Result<Answer, ScriptFault>
    ensures { Gives (λ a. a) result
        (answer_of names.now name.now (func_types_named names.now from.now name.now) (view value.now)) }
{
    match names.func_types(from, name) {
        Some(types) => read_answer(alloc, names, name, types.as_slice(), value),
        None => read_answer(alloc, names, name, &[], value),
    }
}
