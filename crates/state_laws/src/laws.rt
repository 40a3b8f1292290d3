// The laws of opened state modules, each the contract of a function; the statements are in `specs/`.

ghost use Rattle.state_laws.specs.Opens.{KnownStatesAreOfStores, KnownStatesOpen, StateModulesOpen};

use rest_laws::known_stores_are_typed;
use type_safety::typed_store;

/// The state module of a store, with its supply, begins in this store, if it is well typed and has the maxima and the
/// immutable globals of the store in which the module begins.
pub fn state_modules_open()
    ensures { StateModulesOpen }
{}

/// What is known before a top-level call, as finite lists, is the state of the store that holds just this.
pub fn known_states_are_of_stores()
    ensures { KnownStatesAreOfStores }
{}

/// The state module of what is known before a top-level call, with its supply, begins in the store that holds just what
/// is known.
pub fn known_states_open()
    ensures { KnownStatesOpen }
{
    typed_store();
    known_stores_are_typed();
}
