//! The sizes of replay modules: laws about the definitions, whose statements are in `specs/Laws.antt`; each function
//! does nothing.
#![tactic(auto)]

pub mod constants;
pub mod fragments;
pub mod short_lists;

ghost use Rattle.replay_encoding_laws.specs.Laws.{BoundsAreShort, PlansFitIndices, ReplayModulesAreEncodable, ReplayModulesAreShort};

pub use constants::read_tapes_are_constant;
pub use fragments::fragments_fit;
use replay_module_laws::replay_modules_of_tapes_are_valid;
pub use short_lists::{fragments_are_short, short_lists_fit_indices};
use wasm_syntax::{encoding_forms, lists_of_encoding, shortest_encoding};

/// With the generated parts of a tape all indices have 32 bits, if at most `MAX_ORIGINAL_BYTES` bytes encode the module
/// and the tape has at most the allowed weight.
pub fn plans_fit_indices()
    ensures { PlansFitIndices }
{
    lists_of_encoding();
    shortest_encoding();
}

/// The replay module of such a tape has an encoding in the form of replay binaries, if counts and sizes may be any
/// numbers.
pub fn replay_modules_are_encodable()
    ensures { ReplayModulesAreEncodable }
{
    plans_fit_indices();
    shortest_encoding();
    encoding_forms();
    replay_modules_of_tapes_are_valid();
}

/// The shortest encoding of a replay module is within the bound, which is below 2^32 for a module that at most
/// `MAX_ORIGINAL_BYTES` bytes encode and a tape with at most the allowed weight.
pub fn replay_modules_are_short()
    ensures short { ReplayModulesAreShort }
    ensures bounds { BoundsAreShort }
{
    shortest_encoding();
}
