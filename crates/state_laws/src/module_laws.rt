// The laws of state modules as modules, each the contract of a function; the statements are in `specs/`.

ghost use Rattle.state_laws.specs.Code.{StateModulesHaveCode};
ghost use Rattle.state_laws.specs.Sizes.{StateModulesAreShort, StateModulesCanBeReplayed};
ghost use Rattle.state_laws.specs.Valid.{KnownStoresHaveStates, StateModulesAreValid, StoresHaveStates};

use replay_encoding_laws::plans_fit_indices;
use replay_module_laws::replay_modules_of_tapes_are_valid;
use wasm_syntax::{encoding_forms, shortest_encoding};

/// The state of a well-typed store that has the maxima of the store in which a module begins is one in which the module
/// may be, and so is the state of what is known before a call.
pub fn stores_have_states()
    ensures stores { StoresHaveStates }
    ensures known { KnownStoresHaveStates }
{}

/// The module that begins in a state in which the original may be is valid, can be run, and links with its supply.
pub fn state_modules_are_valid()
    ensures { StateModulesAreValid }
{}

/// The module that begins in a state has the code of the original, takes the tapes that the original takes, and gets
/// the same generated parts.
pub fn state_modules_have_code()
    ensures { StateModulesHaveCode }
{}

/// The replay module of the module that begins in a state has indices of 32 bits and an encoding of less than 2^32
/// bytes, if at most `MAX_ORIGINAL_BYTES` bytes encode the original.
pub fn state_modules_can_be_replayed()
    ensures { StateModulesCanBeReplayed }
{
    plans_fit_indices();
    replay_modules_of_tapes_are_valid();
    encoding_forms();
    shortest_encoding();
}

/// A bound on the list lengths of a module also holds for the module that begins in a state, and that one is short
/// enough to be made flat, if the original is and can be in the state.
pub fn state_modules_are_short()
    ensures { StateModulesAreShort }
{}
