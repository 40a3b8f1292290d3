// The values of scripts: numbers, values of WebAssembly, texts, bytes.

ghost use Rattle.std.specs.Prelude.{◌≡◌, ◌≤◌, ◌<◌, ◌^◌, ◌-◌, ◌==◌, length, negsuc, ◌≤ℤ◌, IfSome, IfOk};
ghost use Rattle.serde_json.specs.View.{view, items_view, members_view};
ghost use Rattle.serde_json.specs.Find.{as_object};
ghost use Rattle.script_text.specs.Walk.{Gives, under, under_if_there, items_from, at_index, keys_of};
ghost use Rattle.script_text.specs.Values.{integer_of, bits_from, bits_of, u32_of, value_of, val_of_type, has_one_key as one_key, values_under as values_below};

use crate::faults::{ScriptFault, push_item};
use crate::paths::{below, below_index, shape};
use serde_json::{Map, Value};
use std::alloc::Global;
use wasm_syntax::{List, Val, ValType, Vals};

/// The bits of an integer that is at least `least` and below 2^width; a negative integer is in two's complement.
fn bits_of_integer(number: i128, least: i128, width: u32) -> Option<u64>
    requires width { width ≤ 64 }
    requires least { negsuc (2 ^ width - 1) ≤ℤ least }
    ensures value { result ≡ bits_from least width number }
    ensures bound { IfSome result (λ bits. bits < 2 ^ width) }
{
    let limit: i128 = 1 << width;
    if number < 0 {
        return if number < least {
            None
        } else {
            Some((number + limit) as u64)
        };
    }
    if number < limit {
        Some(number as u64)
    } else {
        None
    }
}

fn read_integer(value: &Value) -> Option<i128>
    ensures { result ≡ integer_of (view value.now) }
{
    match value.as_number() {
        Some(number) => number.as_i128(),
        None => None,
    }
}

/// The bits of an integer of a type.
fn read_bits(alloc: Global, value: &Value, least: i128, width: u32) -> Result<u64, ScriptFault>
    requires width { width ≤ 64 }
    requires least { negsuc (2 ^ width - 1) ≤ℤ least }
    ensures value { Gives (λ n. n) result (bits_of least width (view value.now)) }
    ensures bound { IfOk result (λ bits. bits < 2 ^ width) }
{
    match read_integer(value) {
        Some(number) => match bits_of_integer(number, least, width) {
            Some(bits) => Ok(bits),
            None => Err(shape(alloc)),
        },
        None => Err(shape(alloc)),
    }
}

/// A number below 2^32.
pub(crate) fn read_u32(alloc: Global, value: &Value) -> Result<u32, ScriptFault>
    ensures { Gives (λ n. n) result (u32_of (view value.now)) }
{
    let bits = read_bits(alloc, value, 0, 32)?;
    Ok(bits as u32)
}

/// The number below 2^32 under a required key.
pub(crate) fn u32_under(alloc: Global, object: &Value, key: &str) -> Result<u32, ScriptFault>
    ensures { Gives (λ n. n) result (under key.now u32_of (view object.now)) }
{
    match object.get(key) {
        Some(value) => below(alloc, key, read_u32(alloc, value)),
        None => Err(shape(alloc)),
    }
}

/// The number below 2^32 under a key, or `None` if the key is missing.
pub(crate) fn u32_if_there(
    alloc: Global,
    object: &Value,
    key: &str,
) -> Result<Option<u32>, ScriptFault>
    ensures { Gives (λ n. n) result (under_if_there key.now u32_of (view object.now)) }
{
    match object.get(key) {
        Some(value) => Ok(Some(below(alloc, key, read_u32(alloc, value))?)),
        None => Ok(None),
    }
}

/// A value of the type whose name is the key.
fn read_typed(
    alloc: Global,
    value: &Value,
    key: &str,
    ty: ValType,
    least: i128,
    width: u32,
) -> Result<Val, ScriptFault>
    requires width { width ≤ 64 }
    requires least { negsuc (2 ^ width - 1) ≤ℤ least }
    ensures { Gives (λ v. v) result (val_of_type key.now ty least width (view value.now)) }
{
    let bits = below(alloc, key, read_bits(alloc, value, least, width))?;
    Ok(Val { ty, bits })
}

/// Whether an object has one key.
fn is_single(object: &Map<String, Value>) -> bool
    ensures { result ≡ (length (keys_of (members_view object.now.entries)) == 1) }
{
    object.len() == 1
}

/// Whether a value is an object with one key.
fn has_one_key(value: &Value) -> bool
    ensures { result ≡ one_key (as_object (view value.now)) }
{
    match value.as_object() {
        Some(object) => is_single(object),
        None => false,
    }
}

/// A value: an object whose one key is the name of the value's type.
#[tactic(auto, unfolding(crate::specs::Values::value_of))]
pub(crate) fn read_value(alloc: Global, value: &Value) -> Result<Val, ScriptFault>
    ensures { Gives (λ v. v) result (value_of (view value.now)) }
{
    if !has_one_key(value) {
        return Err(shape(alloc));
    }
    if let Some(number) = value.get("i32") {
        return read_typed(alloc, number, "i32", ValType::I32, -0x8000_0000, 32);
    }
    if let Some(number) = value.get("i64") {
        return read_typed(
            alloc,
            number,
            "i64",
            ValType::I64,
            -0x8000_0000_0000_0000,
            64,
        );
    }
    if let Some(number) = value.get("f32") {
        return read_typed(alloc, number, "f32", ValType::F32, 0, 32);
    }
    match value.get("f64") {
        Some(number) => read_typed(alloc, number, "f64", ValType::F64, 0, 64),
        None => Err(shape(alloc)),
    }
}

fn value_at(alloc: Global, index: usize, value: &Value) -> Result<Val, ScriptFault>
    ensures { Gives (λ v. v) result (at_index index value_of (view value.now)) }
{
    below_index(alloc, index, read_value(alloc, value))
}

/// Values in a list.
fn read_values(alloc: Global, values: &[Value]) -> Result<Vals, ScriptFault>
    ensures { Gives (λ v. v) result (items_from value_of 0 (items_view values.now)) }
{
    let mut found = Vec::new(alloc);
    'items: for (index, value) in values.iter().enumerate() {
        let item = value_at(alloc, index, value)?;
        push_item(&mut found, item)?;
    }
    Ok(List::from_vec(found))
}

/// The values under a key, or an empty list if the key is missing.
pub(crate) fn values_under(alloc: Global, object: &Value, key: &str) -> Result<Vals, ScriptFault>
    ensures { Gives (λ v. v) result (values_below key.now (view object.now)) }
{
    match object.get(key) {
        Some(value) => match value.as_array() {
            Some(values) => below(alloc, key, read_values(alloc, values.as_slice())),
            None => below(alloc, key, Err(shape(alloc))),
        },
        None => Ok(List::new(alloc)),
    }
}

/// The value under a required key.
pub(crate) fn value_under(alloc: Global, object: &Value, key: &str) -> Result<Val, ScriptFault>
    ensures { Gives (λ v. v) result (under key.now value_of (view object.now)) }
{
    match object.get(key) {
        Some(value) => below(alloc, key, read_value(alloc, value)),
        None => Err(shape(alloc)),
    }
}

/// The value under a key, or `None` if the key is missing.
pub(crate) fn value_if_there(
    alloc: Global,
    object: &Value,
    key: &str,
) -> Result<Option<Val>, ScriptFault>
    ensures { Gives (λ v. v) result (under_if_there key.now value_of (view object.now)) }
{
    match object.get(key) {
        Some(value) => Ok(Some(below(alloc, key, read_value(alloc, value))?)),
        None => Ok(None),
    }
}
