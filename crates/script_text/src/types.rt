// Tests of value types.

ghost use Rattle.std.specs.Prelude.{◌≡◌, map};
ghost use Rattle.wasm_syntax.specs.Alike.{same_types};

use host_script::is_type;
use wasm_syntax::{Val, ValType};

/// Whether values are of these types.
pub(crate) fn are_of_types(values: &[Val], types: &[ValType]) -> bool
    ensures { result ≡ same_types (map (λ value. value.ty) values.now) types.now }
{
    if values.len() != types.len() {
        return false;
    }
    'values: for (index, value) in values.iter().enumerate() {
        if !is_type(value.ty, types[index]) {
            return false;
        }
    }
    true
}
