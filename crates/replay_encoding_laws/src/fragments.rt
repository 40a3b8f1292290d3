// The generated parts of a tape fit the module: a law about the definitions, whose statement is in
// `specs/FragmentLaws.antt`; the function does nothing.

ghost use Rattle.replay_encoding_laws.specs.FragmentLaws.{FragmentsFit, FragmentsFitRunnable};

use replay_module_laws::replay_modules_of_tapes_are_valid;

/// The generated parts of a tape that fits the module, and whose values are constants, fit the module: each generated
/// function is valid beside the original's, and exactly the functions to which bodies refer are declared. This holds if
/// some supply matches the module's imports, and also if the module can be run.
pub fn fragments_fit()
    ensures linked { FragmentsFit }
    ensures runnable { FragmentsFitRunnable }
{
    replay_modules_of_tapes_are_valid();
}
