// The laws of a script's text for a module and for its instrumented module, each the contract of a function; the
// statements are in `specs/`.

ghost use Rattle.hooked_texts.specs.Laws.{AcceptedImportNoHooks, HooksAreUnanswered, TextsAreRenumbered};

use record_replay_spec::instrumented_keep_indices;

/// An accepted module imports nothing from the module of the hooks.
pub fn accepted_import_no_hooks()
    ensures { AcceptedImportNoHooks }
{}

/// A text that is a script for a module is the same script for its instrumented module, with functions renumbered; a
/// fault of it for the module is its fault for the instrumented module, unless the fault is that the module imports
/// nothing from the module of the hooks.
pub fn texts_are_renumbered()
    ensures { TextsAreRenumbered }
{
    instrumented_keep_indices();
}

/// With the answers of the hooks, the script of a text is the one for the instrumented module.
pub fn texts_leave_hooks_unanswered()
    ensures { HooksAreUnanswered }
{}
