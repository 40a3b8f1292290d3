// What an action that fits a module needs exists; the statements are in `specs/Ready.antt`.

ghost use Rattle.host_actions.specs.Ready.{FittingActionsAreReady, FittingArgumentIsThere, FittingArgumentsAreThere};

use type_safety::rules_hold;

/// A well-typed store of a module has what an action needs that fits the module; and each argument
/// that such an action names exists and has 32 bits.
pub fn fitting_actions()
    ensures ready { FittingActionsAreReady }
    ensures arguments { FittingArgumentsAreThere }
    ensures argument { FittingArgumentIsThere }
{
    rules_hold();
}
