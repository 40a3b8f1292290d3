// The laws of sizes, each the contract of a function; the statements are in `specs/SizeLaws.antt`.

ghost use Rattle.instrumented_module_laws.specs.SizeLaws.{EncodedHaveWords, GlobalsAreWithinEncoding, InstrumentedAreShort, InstrumentedHaveStores, InstrumentedImportHooks};

use crate::{encodable_have_words, instrumented_are_accepted};
use record_replay_spec::{instrumented_are_hooked, instrumented_keep_indices};
use wasm_syntax::{lists_of_encoding, shortest_encoding};

/// A module that at most `MAX_ORIGINAL_BYTES` bytes encode in the form Core is of that form, and the values that hooks
/// report of it are words: offsets, and indices of functions and of globals.
pub fn encoded_have_words()
    ensures { EncodedHaveWords }
{
    encodable_have_words();
    lists_of_encoding();
    shortest_encoding();
}

/// A module has at most as many globals as there are bytes that encode it in the form Core.
pub fn globals_within_encoding()
    ensures { GlobalsAreWithinEncoding }
{
    shortest_encoding();
}

/// Flat code can be made of the instrumented module of an accepted module of the form Core, if no list of the
/// original has more than `MAX_ORIGINAL_BYTES` items: each list of the instrumented one has fewer than 2^31.
pub fn instrumented_are_short()
    ensures { InstrumentedAreShort }
{
    instrumented_keep_indices();
    instrumented_are_accepted();
}

/// In the instrumented module of an accepted module the last imports of functions are the hooks, no other import is
/// from their module, and before them are as many as the original has.
pub fn instrumented_import_hooks()
    ensures { InstrumentedImportHooks }
{
    instrumented_keep_indices();
    instrumented_are_hooked();
}

/// A store that is well typed for a module is well typed for its instrumented module, with functions renumbered (Core
/// 1.0, 7.5, "Store Validity").
pub fn instrumented_have_stores()
    ensures { InstrumentedHaveStores }
{
    instrumented_keep_indices();
}
