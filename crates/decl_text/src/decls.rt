// Declarations: one, the list, and the whole text.

ghost use Rattle.std.specs.Prelude.{IfOk};
ghost use Rattle.serde_json.specs.View.{view, items_view};
ghost use Rattle.decl_text.specs.Walk.{Gives, items_from, at_index};
ghost use Rattle.decl_text.specs.Texts.{decl_of, list_of_decls, decls_of, decls_of_text};
ghost use Rattle.decl_text.specs.Names.{NamesAreText};

use crate::faults::{DeclFault, push_item};
use crate::names::{refuse_reserved, refuse_taken};
use crate::objects::{only, text_under};
use crate::paths::{below_index, shape};
use crate::types::types_under;
use instance_spec::{Decl, Decls};
use serde_json::Value;
use std::alloc::Global;
use wasm_syntax::limits::MAX_PARAMETERS;
use wasm_syntax::{FuncType, List, Module};

/// One declaration.
#[tactic(auto, unfolding(crate::specs::Texts::decl_of))]
fn read_decl(alloc: Global, value: &Value) -> Result<Decl, DeclFault>
    ensures { Gives result (decl_of (view value.now)) }
{
    only(alloc, value, &["name", "params", "results"])?;
    let name = text_under(alloc, value, "name")?;
    let params = types_under(alloc, value, "params", MAX_PARAMETERS as usize)?;
    let results = types_under(alloc, value, "results", 1)?;
    Ok(Decl {
        name,
        ty: FuncType { params, results },
    })
}

fn decl_at(alloc: Global, index: usize, value: &Value) -> Result<Decl, DeclFault>
    ensures { Gives result (at_index index decl_of (view value.now)) }
{
    below_index(alloc, index, read_decl(alloc, value))
}

/// Declarations in a list.
fn read_list(alloc: Global, values: &[Value]) -> Result<Decls, DeclFault>
    ensures { Gives result (items_from decl_of 0 (items_view values.now)) }
{
    let mut found = Vec::new(alloc);
    'items: for (index, value) in values.iter().enumerate() {
        let item = decl_at(alloc, index, value)?;
        push_item(&mut found, item)?;
    }
    Ok(List::from_vec(found))
}

/// The declarations that have the right form.
fn list_in(alloc: Global, value: &Value) -> Result<Decls, DeclFault>
    ensures { Gives result (list_of_decls (view value.now)) }
{
    match value.as_array() {
        Some(values) => read_list(alloc, values.as_slice()),
        None => Err(shape(alloc)),
    }
}

/// The declarations that a JSON value means for a module.
#[tactic(auto, unfolding(crate::specs::Texts::decls_of))]
fn read_for_module(alloc: Global, module: &Module, value: &Value) -> Result<Decls, DeclFault>
    ensures { Gives result (decls_of «module».now (view value.now)) }
{
    let decls = list_in(alloc, value)?;
    refuse_reserved(module)?;
    refuse_taken(alloc, module, decls.as_slice())?;
    Ok(decls)
}

/// The functions of the host that a JSON text declares for a module. Their names are text.
///
/// # Errors
///
/// The first fault of the text, or `Memory` if an allocation failed. A value of the wrong form comes before an import
/// from `foreign`, and this before a name that is taken.
pub fn read_decls(alloc: Global, bytes: &[u8], module: &Module) -> Result<Decls, DeclFault>
    ensures gives { Gives result (decls_of_text «module».now bytes.now) }
    ensures names { IfOk result NamesAreText }
{
    match Value::from_slice(alloc, bytes) {
        Ok(value) => read_for_module(alloc, module, &value),
        Err(fault) if fault.is_memory() => Err(DeclFault::Memory),
        Err(_) => Err(DeclFault::NotJson),
    }
}
