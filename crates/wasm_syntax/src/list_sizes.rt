// Laws, each the contract of a function that does nothing.

ghost use Rattle.wasm_syntax.specs.ListsWithin.{ListsAreWithinEncoding};

use crate::shortest_encoding;

/// The list lengths of a module (those of `HasListsWithin`) are at most the number of bytes that encode it.
pub fn lists_of_encoding()
    ensures within { ListsAreWithinEncoding }
{
    shortest_encoding();
}
