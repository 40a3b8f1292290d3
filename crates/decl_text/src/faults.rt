// Why a text is not a list of declarations for a module.

ghost use Rattle.std.specs.Prelude.{◌≡◌, ◌++◌, ◌∷◌, [], OnOk, IfErr};
ghost use Rattle.decl_text.specs.declared.faults.DeclFault.TheVariants.{Memory};

use thiserror::Error;
use wasm_syntax::Name;

/// The first fault of declarations.
#[derive(Debug, Drop, Error)]
pub enum DeclFault {
    /// The bytes are not a JSON text.
    #[error("not json")]
    NotJson,
    /// A value does not have the form that is needed at its place. The path is the JSON Pointer (RFC 6901) of the
    /// innermost such value.
    #[error("a value of the wrong form")]
    Shape { path: Name },
    /// The module imports from `foreign`, where the declared functions have their place. The import has this index
    /// among all imports.
    #[error("an import from foreign")]
    Reserved { import: u32 },
    /// A declared name is that of an export or of an earlier declaration.
    #[error("a name that is taken")]
    Taken { name: Name },
    #[error("out of memory")]
    Memory,
}

/// Appends an item to a list.
pub(crate) fn push_item<T: Drop>(items: &mut Vec<T>, item: T) -> Result<(), DeclFault>
    ensures ok { OnOk result (items.new.items ≡ items.old.items ++ item ∷ []) }
    ensures err { IfErr result (λ fault. fault ≡ Memory) }
{
    match items.push(item) {
        Ok(()) => Ok(()),
        Err(_) => Err(DeclFault::Memory),
    }
}
