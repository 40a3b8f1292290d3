// The laws of instrumented modules, each the contract of a function; the statements are in `specs/`.

ghost use Rattle.instrumented_module_laws.specs.Laws.{EncodableHaveWords, InstrumentedAreAccepted, InstrumentedAreValid};
ghost use Rattle.instrumented_module_laws.specs.Links.{InstrumentedAreFitted, InstrumentedAreInstantiated, InstrumentedAreRunnable, InstrumentedAreSupplied};

use record_replay_spec::{bodies_are_instrumented, instrumented_keep_indices};
use wasm_syntax::encoding_forms;

/// A module that is encoded in the form Core, and has at most 2^32 functions and globals, is one to whose instrumented
/// module the other laws apply.
pub fn encodable_have_words()
    ensures { EncodableHaveWords }
{
    encoding_forms();
}

/// The instrumented module of a valid module of the form Core, whose offsets and indices of functions and globals are
/// words, is valid (Core 1.0, 3.4.10).
pub fn instrumented_are_valid()
    ensures { InstrumentedAreValid }
{
    bodies_are_instrumented();
    instrumented_keep_indices();
}

/// If such a module is accepted, its instrumented module is accepted as an instrumented one: no instruction of it is
/// refused, and its quantities are within their limits.
pub fn instrumented_are_accepted()
    ensures { InstrumentedAreAccepted }
{
    instrumented_are_valid();
    instrumented_keep_indices();
}

/// The instrumented module of an accepted one, whose data segments hold bytes, can be run.
pub fn instrumented_are_runnable()
    ensures { InstrumentedAreRunnable }
{
    instrumented_are_accepted();
}

/// A script that fits the original fits the instrumented module, with its functions renumbered and hooks answered.
pub fn instrumented_are_fitted()
    ensures { InstrumentedAreFitted }
{
    instrumented_keep_indices();
}

/// A script supplies for the instrumented module what it supplies for the original, or fails at the same import.
pub fn instrumented_are_supplied()
    ensures { InstrumentedAreSupplied }
{
    instrumented_keep_indices();
}

/// With one supply the instrumented module begins with the original's store but for renumbered functions in its table,
/// or both fail at the same segment (Core 1.0, 4.5.4).
pub fn instrumented_are_instantiated()
    ensures { InstrumentedAreInstantiated }
{
    instrumented_keep_indices();
}
