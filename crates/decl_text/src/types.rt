// The types of parameters and results.

ghost use Rattle.std.specs.Prelude.{◌≡◌, nat_lt};
ghost use Rattle.serde_json.specs.View.{view, items_view};
ghost use Rattle.decl_text.specs.Walk.{Gives, under, items_from, at_index};
ghost use Rattle.decl_text.specs.Texts.{type_named as type_of_name, type_of, count_of, types_of};

use crate::faults::{DeclFault, push_item};
use crate::paths::{below, below_index, shape};
use serde_json::Value;
use std::alloc::Global;
use wasm_syntax::{List, ValType, ValTypes};

/// The value type that has this name.
fn type_named(name: &str) -> Option<ValType>
    ensures { result ≡ type_of_name name.now }
{
    if name == "i32" {
        Some(ValType::I32)
    } else if name == "i64" {
        Some(ValType::I64)
    } else if name == "f32" {
        Some(ValType::F32)
    } else if name == "f64" {
        Some(ValType::F64)
    } else {
        None
    }
}

/// The value type that a text names.
fn read_type(alloc: Global, value: &Value) -> Result<ValType, DeclFault>
    ensures { Gives result (type_of (view value.now)) }
{
    match value.as_str() {
        Some(name) => match type_named(name) {
            Some(ty) => Ok(ty),
            None => Err(shape(alloc)),
        },
        None => Err(shape(alloc)),
    }
}

fn type_at(alloc: Global, index: usize, value: &Value) -> Result<ValType, DeclFault>
    ensures { Gives result (at_index index type_of (view value.now)) }
{
    below_index(alloc, index, read_type(alloc, value))
}

/// Types in a list.
fn read_types(alloc: Global, values: &[Value]) -> Result<ValTypes, DeclFault>
    ensures { Gives result (items_from type_of 0 (items_view values.now)) }
{
    let mut found = Vec::new(alloc);
    'items: for (index, value) in values.iter().enumerate() {
        let item = type_at(alloc, index, value)?;
        push_item(&mut found, item)?;
    }
    Ok(List::from_vec(found))
}

/// Whether a list has more than a number of items.
fn is_longer(values: &[Value], most: usize) -> bool
    ensures { result ≡ nat_lt most (count_of (items_view values.now)) }
{
    values.len() > most
}

/// A list of at most a number of types.
fn types_up_to(alloc: Global, value: &Value, most: usize) -> Result<ValTypes, DeclFault>
    ensures { Gives result (types_of most (view value.now)) }
{
    let Some(values) = value.as_array() else {
        return Err(shape(alloc));
    };
    let values = values.as_slice();
    if is_longer(values, most) {
        Err(shape(alloc))
    } else {
        read_types(alloc, values)
    }
}

/// A list of at most a number of types under a required key.
pub(crate) fn types_under(
    alloc: Global,
    object: &Value,
    key: &str,
    most: usize,
) -> Result<ValTypes, DeclFault>
    ensures { Gives result (under key.now (types_of most) (view object.now)) }
{
    match object.get(key) {
        Some(value) => below(alloc, key, types_up_to(alloc, value, most)),
        None => Err(shape(alloc)),
    }
}
