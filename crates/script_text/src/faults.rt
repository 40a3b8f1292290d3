// Why a text is not a script for a module.

ghost use Rattle.std.specs.Prelude.{◌≡◌, ◌++◌, ◌∷◌, [], OnOk, IfErr, IfOk};
ghost use Rattle.script_text.specs.declared.faults.ScriptFault.TheVariants.{Memory};
ghost use Rattle.script_text.specs.Places.{fault_of_name};

use std::alloc::{AllocError, Global};
use thiserror::Error;
use wasm_syntax::Name;

/// The first fault of a script's text.
#[derive(Debug, Drop, Error)]
pub enum ScriptFault {
    /// The bytes are not a JSON text.
    #[error("not json")]
    NotJson,
    /// A value does not have a form that is allowed at its place. The path is the JSON Pointer (RFC 6901) of the
    /// innermost such value.
    #[error("a value of the wrong form")]
    Shape { path: Name },
    /// The name is not known.
    #[error("an unknown name")]
    UnknownName { name: Name },
    /// A value for this name has the wrong type.
    #[error("a value of the wrong type")]
    WrongType { name: Name },
    /// What has this name can't be reached or can't be changed.
    #[error("no access")]
    NoAccess { name: Name },
    /// The function of this name is an import, which the host can't call.
    #[error("a call of an import")]
    CallsOwn { name: Name },
    #[error("out of memory")]
    Memory,
}

/// The kind of a fault that has a name.
#[derive(Clone, Copy)]
pub(crate) enum NameFault {
    Unknown,
    WrongType,
    NoAccess,
    CallsOwn,
}

fn name_from(alloc: Global, name: &str) -> Result<Name, AllocError>
    ensures { IfOk result (λ copy. copy ≡ name.now) }
{
    Ok(Name::from_string(String::from_str(alloc, name)?))
}

/// The fault of this kind that has the name.
pub(crate) fn fault_of_name(alloc: Global, kind: NameFault, name: &str) -> ScriptFault
    ensures { (result ≡ Memory → ⊥) → result ≡ fault_of_name kind name.now }
{
    let Ok(name) = name_from(alloc, name) else {
        return ScriptFault::Memory;
    };
    match kind {
        NameFault::Unknown => ScriptFault::UnknownName { name },
        NameFault::WrongType => ScriptFault::WrongType { name },
        NameFault::NoAccess => ScriptFault::NoAccess { name },
        NameFault::CallsOwn => ScriptFault::CallsOwn { name },
    }
}

/// Appends an item to a list.
pub(crate) fn push_item<T: Drop>(items: &mut Vec<T>, item: T) -> Result<(), ScriptFault>
    ensures ok { OnOk result (items.new.items ≡ items.old.items ++ item ∷ []) }
    ensures err { IfErr result (λ fault. fault ≡ Memory) }
{
    match items.push(item) {
        Ok(()) => Ok(()),
        Err(_) => Err(ScriptFault::Memory),
    }
}
