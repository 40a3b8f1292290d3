// The lists of what is generated of a tape are short: laws about the definitions, whose statements are in
// `specs/ShortLists.antt`; each function does nothing.

ghost use Rattle.replay_encoding_laws.specs.ShortLists.{FragmentsAreShort, ShortListsFitIndices};

use replay_module_laws::replay_modules_of_tapes_are_valid;

/// With the generated parts of a tape all indices have 32 bits, if each list of the module has at most 2^27 items and
/// the tape has at most the allowed weight.
pub fn short_lists_fit_indices()
    ensures { ShortListsFitIndices }
{}

/// Each list of the generated parts of a tape has at most 2^27 items, if each list of the module has, that of its
/// imported and defined functions among them, and the tape fits the module, has constants alone and at most the allowed
/// weight.
pub fn fragments_are_short()
    ensures { FragmentsAreShort }
{
    replay_modules_of_tapes_are_valid();
}
