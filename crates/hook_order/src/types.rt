// The types of values.

ghost use Rattle.std.specs.Prelude.{◌≡◌};
ghost use Rattle.wasm_syntax.specs.Alike.{same_types};
ghost use Rattle.history_spec.specs.Code.{types_of};

use module_index::same_type;
use wasm_syntax::{Val, ValType};

/// Whether the values have these types.
pub(crate) fn are_of_types(types: &[ValType], values: &[Val]) -> bool
    ensures { result ≡ same_types types.now (types_of values.now) }
{
    if types.len() != values.len() {
        return false;
    }
    'types: for at in 0..types.len() {
        if !same_type(types[at], values[at].ty) {
            return false;
        }
    }
    true
}
