// Lists one after the other.

ghost use Rattle.std.specs.Prelude.{◌≡◌, ◌++◌, IfOk};

use base::NoMemory;
use wasm_syntax::List;

/// A list and another after it.
pub(crate) fn concat<T: Drop>(first: List<T>, second: List<T>) -> Result<List<T>, NoMemory>
    ensures { IfOk result (λ list. list ≡ first ++ second) }
{
    let mut items = first.into_vec();
    let mut more = second.into_vec();
    items.append(&mut more)?;
    Ok(List::from_vec(items))
}
