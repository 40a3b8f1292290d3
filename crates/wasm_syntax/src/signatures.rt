// Types of functions, globals, memories and tables.

use crate::lists::List;
use crate::values::{ValType, ValTypes};

/// The type of a function (Core 1.0, 2.3.3).
#[derive(PartialEq, Eq, Hash, Debug, Drop)]
pub struct FuncType {
    pub params: ValTypes,
    pub results: ValTypes,
}

/// Limits of a memory in pages of 65,536 bytes, or of a table in entries (Core 1.0, 2.3.4).
#[derive(Clone, Copy, PartialEq, Eq, Debug)]
pub struct Limits {
    pub min: u32,
    pub max: Option<u32>,
}

/// The type of a global (Core 1.0, 2.3.7).
#[derive(Clone, Copy, PartialEq, Eq, Debug)]
pub struct GlobalType {
    pub ty: ValType,
    pub mutable: bool,
}

/// Function types, by their indices.
pub type FuncTypes = List<FuncType>;
