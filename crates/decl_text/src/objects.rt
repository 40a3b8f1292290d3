// Objects with listed keys, and the texts under their keys.

ghost use Rattle.std.specs.Prelude.{◌≡◌, map};
ghost use Rattle.std.specs.List.{list_any, list_all};
ghost use Rattle.std.specs.Str.{bytes_eq};
ghost use Rattle.serde_json.specs.View.{view, members_view};
ghost use Rattle.script_text.specs.Walk.{keys_of};
ghost use Rattle.decl_text.specs.Walk.{Gives, only as only_listed, under};
ghost use Rattle.decl_text.specs.Texts.{text_of};

use crate::faults::DeclFault;
use crate::paths::{below, shape};
use serde_json::{Map, Value};
use std::alloc::Global;
use wasm_syntax::Name;

fn is_listed(listed: &[&str], key: &str) -> bool
    ensures { result ≡ list_any (bytes_eq key.now) (map (λ name. name.now) listed.now) }
{
    'names: for name in listed {
        if key == *name {
            return true;
        }
    }
    false
}

fn are_listed(listed: &[&str], object: &Map<String, Value>) -> bool
    ensures { result ≡ list_all (λ key. list_any (bytes_eq key) (map (λ name. name.now) listed.now))
        (keys_of (members_view object.now.entries)) }
{
    'keys: for (key, _) in object.iter() {
        if !is_listed(listed, key.as_str()) {
            return false;
        }
    }
    true
}

/// Tests that a value is an object with no other keys than these.
pub(crate) fn only(alloc: Global, value: &Value, listed: &[&str]) -> Result<(), DeclFault>
    ensures { Gives result (only_listed (map (λ name. name.now) listed.now) (view value.now)) }
{
    match value.as_object() {
        Some(object) if are_listed(listed, object) => Ok(()),
        _ => Err(shape(alloc)),
    }
}

/// A copy of a text.
fn read_text(alloc: Global, value: &Value) -> Result<Name, DeclFault>
    ensures { Gives result (text_of (view value.now)) }
{
    let Some(text) = value.as_str() else {
        return Err(shape(alloc));
    };
    match String::from_str(alloc, text) {
        Ok(text) => Ok(Name::from_string(text)),
        Err(_) => Err(DeclFault::Memory),
    }
}

/// The text under a required key.
pub(crate) fn text_under(alloc: Global, object: &Value, key: &str) -> Result<Name, DeclFault>
    ensures { Gives result (under key.now text_of (view object.now)) }
{
    match object.get(key) {
        Some(value) => below(alloc, key, read_text(alloc, value)),
        None => Err(shape(alloc)),
    }
}
