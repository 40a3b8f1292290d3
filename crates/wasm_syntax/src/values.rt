// Value types and values.

ghost use Rattle.std.specs.Prelude.{◌≡◌};
ghost use Rattle.wasm_syntax.specs.Alike.{type_byte};

use crate::lists::List;
use base::marks::{TYPE_F32, TYPE_F64, TYPE_FUNCREF, TYPE_I32, TYPE_I64};

/// A value type (Core 1.0, 2.3.1). `FuncRef` (Core 2.0, 2.3.3) is on operand stacks of the
/// replay form alone.
#[derive(Clone, Copy, PartialEq, Eq, Hash, Debug)]
pub enum ValType {
    I32,
    I64,
    F32,
    F64,
    FuncRef,
}

impl ValType {
    /// The byte that encodes the type (Core 1.0, 5.3.1; for references Core 2.0, 5.3.3).
    #[inline]
    pub fn byte(self) -> u8
        ensures { result ≡ type_byte self }
    {
        match self {
            ValType::I32 => TYPE_I32,
            ValType::I64 => TYPE_I64,
            ValType::F32 => TYPE_F32,
            ValType::F64 => TYPE_F64,
            ValType::FuncRef => TYPE_FUNCREF,
        }
    }
}

/// A value: its type and its bits. The upper 32 bits of a 32-bit value are 0 (Core 1.0, 4.2.1).
#[derive(Clone, Copy, PartialEq, Eq, Debug)]
pub struct Val {
    pub ty: ValType,
    pub bits: u64,
}

/// Value types, such as those of parameters or results.
pub type ValTypes = List<ValType>;

/// Values, such as arguments or results.
pub type Vals = List<Val>;
