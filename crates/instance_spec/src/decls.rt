// Functions of the host that a module does not import.

use wasm_syntax::{FuncType, List, Name};

/// A function of the host that a module does not import, and may find in its table: the name under which a script
/// answers it, and its type.
#[derive(Debug, Drop)]
pub struct Decl {
    pub name: Name,
    pub ty: FuncType,
}

/// The declared functions of a host, one after another.
pub type Decls = List<Decl>;
