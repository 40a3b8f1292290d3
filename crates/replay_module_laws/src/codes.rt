// The code of the replay module of a plan, and the store in which its run begins: laws about the definitions, whose
// statements are in `specs/`.

ghost use Rattle.replay_module_laws.specs.CodeLaws.{ReplayModulesBegin, ReplayModulesHaveCode};

/// The replay module of a plan has the original's functions at their indices, and the generated ones; and it is
/// instantiated with the original's store and counters of its own.
pub fn replay_modules_have_code()
    ensures code { ReplayModulesHaveCode }
    ensures store { ReplayModulesBegin }
{}
