// Laws of the definitions, each the contract of a function with an empty body.

ghost use Rattle.replay_form.specs.Laws.{LayoutBytesAreOne, LayoutsAreOne};

use leb_bytes::u32_encoding;

/// Bytes are at most one layout, and a module declares at most one.
pub fn layouts_are_one()
    ensures bytes { LayoutBytesAreOne }
    ensures modules { LayoutsAreOne }
{
    u32_encoding();
}
