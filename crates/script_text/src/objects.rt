// Objects with listed keys, and the texts, bytes and limits under their keys.

ghost use Rattle.std.specs.Prelude.{◌≡◌, map, option_map, List};
ghost use Rattle.std.specs.List.{list_any, list_all};
ghost use Rattle.std.specs.Str.{bytes_eq};
ghost use Rattle.serde_json.specs.Find.{as_object};
ghost use Rattle.serde_json.specs.View.{view, members_view};
ghost use Rattle.script_text.specs.Walk.{Gives, keys_of, are_listed as keys_listed, only as only_listed, under, under_if_there};
ghost use Rattle.script_text.specs.Values.{text_of, text_or_null as text_or_none, bytes_of, limits_of};

use crate::faults::ScriptFault;
use crate::paths::{below, shape};
use crate::values::{u32_if_there, u32_under};
use hex::FromHexError;
use serde_json::{Map, Value};
use std::alloc::Global;
use wasm_syntax::{Bytes, Limits, List};

fn is_listed(listed: &[&str], key: &str) -> bool
    ensures { result ≡ list_any (bytes_eq key.now) (map (λ name. name.now) listed.now) }
{
    'names: for name in listed {
        if key == *name {
            return true;
        }
    }
    false
}

fn are_listed(listed: &[&str], object: &Map<String, Value>) -> bool
    ensures { result ≡ list_all (λ key. list_any (bytes_eq key) (map (λ name. name.now) listed.now))
        (keys_of (members_view object.now.entries)) }
{
    'keys: for (key, _) in object.iter() {
        if !is_listed(listed, key.as_str()) {
            return false;
        }
    }
    true
}

/// Tests that a value is an object with no other keys than these.
pub(crate) fn only(alloc: Global, value: &Value, listed: &[&str]) -> Result<(), ScriptFault>
    ensures { Gives (λ u. u) result (only_listed (map (λ name. name.now) listed.now) (view value.now)) }
{
    match value.as_object() {
        Some(object) if are_listed(listed, object) => Ok(()),
        _ => Err(shape(alloc)),
    }
}

pub(crate) fn read_text(alloc: Global, value: &Value) -> Result<&str, ScriptFault>
    ensures { Gives (λ text. text.now) result (text_of (view value.now)) }
{
    match value.as_str() {
        Some(text) => Ok(text),
        None => Err(shape(alloc)),
    }
}

/// The text under a required key.
pub(crate) fn text_under<'v>(
    alloc: Global,
    object: &'v Value,
    key: &str,
) -> Result<&'v str, ScriptFault>
    ensures { Gives (λ text. text.now) result (under key.now text_of (view object.now)) }
{
    match object.get(key) {
        Some(value) => below(alloc, key, read_text(alloc, value)),
        None => Err(shape(alloc)),
    }
}

fn read_text_or_null(alloc: Global, value: &Value) -> Result<Option<&str>, ScriptFault>
    ensures { Gives (option_map (λ text. text.now)) result (text_or_none (view value.now)) }
{
    match value {
        Value::Null => Ok(None),
        Value::String(text) => Ok(Some(text.as_str())),
        _ => Err(shape(alloc)),
    }
}

/// The text, or null, under a required key.
pub(crate) fn text_or_null_under<'v>(
    alloc: Global,
    object: &'v Value,
    key: &str,
) -> Result<Option<&'v str>, ScriptFault>
    ensures { Gives (option_map (λ text. text.now)) result
        (under key.now text_or_none (view object.now)) }
{
    match object.get(key) {
        Some(value) => below(alloc, key, read_text_or_null(alloc, value)),
        None => Err(shape(alloc)),
    }
}

/// The bytes of a hexadecimal text.
fn read_bytes(alloc: Global, value: &Value) -> Result<Bytes, ScriptFault>
    ensures { Gives (λ bytes. bytes) result (bytes_of (view value.now)) }
{
    match value.as_str() {
        Some(text) => match hex::decode(alloc, text) {
            Ok(bytes) => Ok(List::from_vec(bytes)),
            Err(FromHexError::OutOfMemory) => Err(ScriptFault::Memory),
            Err(_) => Err(shape(alloc)),
        },
        None => Err(shape(alloc)),
    }
}

/// The bytes of a hexadecimal text under a required key.
pub(crate) fn bytes_under(alloc: Global, object: &Value, key: &str) -> Result<Bytes, ScriptFault>
    ensures { Gives (λ bytes. bytes) result (under key.now bytes_of (view object.now)) }
{
    match object.get(key) {
        Some(value) => below(alloc, key, read_bytes(alloc, value)),
        None => Err(shape(alloc)),
    }
}

/// The limits of a memory or a table, with the key of the minimum.
fn read_limits(alloc: Global, value: &Value, least: &str) -> Result<Limits, ScriptFault>
    ensures { Gives (λ limits. limits) result (limits_of least.now (view value.now)) }
{
    only(alloc, value, &[least, "max"])?;
    let min = u32_under(alloc, value, least)?;
    let max = u32_if_there(alloc, value, "max")?;
    Ok(Limits { min, max })
}

/// The limits under a key, or `None` if the key is missing.
pub(crate) fn limits_if_there(
    alloc: Global,
    object: &Value,
    key: &str,
    least: &str,
) -> Result<Option<Limits>, ScriptFault>
    ensures { Gives (λ limits. limits) result
        (under_if_there key.now (limits_of least.now) (view object.now)) }
{
    match object.get(key) {
        Some(value) => Ok(Some(below(alloc, key, read_limits(alloc, value, least))?)),
        None => Ok(None),
    }
}
