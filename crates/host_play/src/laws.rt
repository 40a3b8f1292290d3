// What holds of modules in the hooked form, for the crates above.

ghost use Rattle.host_play.specs.HookedResults.{FormsHaveHooks};

/// In a module that has the hooked form the hooks are after the imports that the form counts.
pub fn forms_have_hooks()
    ensures { FormsHaveHooks }
{}
