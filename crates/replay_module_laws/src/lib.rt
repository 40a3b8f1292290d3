//! The replay module of a plan as a module: it keeps the original's functions, has no imports, declares its layout and
//! is valid. These are laws about the definitions, whose statements are in `specs/`.
#![tactic(auto)]

pub mod codes;
pub mod plans;

ghost use Rattle.replay_module_laws.specs.Laws.{OriginalsAreTyped, PlansFit, ReplayModulesAreValid, ReplayModulesOfFragmentsAreValid, ReplayModulesOfFragmentsKeepOriginals, ReplayModulesOfTapesAreValid, ReplayModulesAreReplayable, ReplayModulesAreValidOutside, ReplayModulesKeepOriginals, ReplayModulesStandAlone};

pub use codes::replay_modules_have_code;
pub use plans::plans_have_segments;

/// The replay module of a plan keeps the original's types and functions at their indices, imports nothing, and
/// declares its layout and the one function that it exports.
pub fn replay_modules_stand()
    ensures originals { ReplayModulesKeepOriginals }
    ensures alone { ReplayModulesStandAlone }
    ensures replayable { ReplayModulesAreReplayable }
{
    replay_modules_have_code();
}

/// The replay module is valid but for the bodies of its functions: its types, limits, globals, segments and exports,
/// and what its functions declare.
pub fn replay_modules_are_valid_outside()
    ensures outside { ReplayModulesAreValidOutside }
{
    replay_modules_have_code();
}

/// The original's functions have typings in the replay module: their calls, their globals and the functions to which
/// they refer exist.
pub fn originals_are_typed()
    ensures typed { OriginalsAreTyped }
{
    replay_modules_have_code();
}

/// The replay module of a plan that fits the module is valid: the indices of effects and calls exist, and each
/// activation of the host returns results of its types.
pub fn replay_modules_are_valid()
    ensures valid { ReplayModulesAreValid }
{
    replay_modules_have_code();
}

/// The plan of a tape that fits the module, and whose values are constants, fits it; so the replay module of such a
/// tape is valid.
pub fn replay_modules_of_tapes_are_valid()
    ensures plans { PlansFit }
    ensures valid { ReplayModulesOfTapesAreValid }
{
    replay_modules_are_valid();
}

/// The replay module of any generated part that fits the module is valid, and keeps the original's types and functions
/// at their indices. The part need not be that of a plan.
pub fn replay_modules_of_fragments_are_valid()
    ensures originals { ReplayModulesOfFragmentsKeepOriginals }
    ensures valid { ReplayModulesOfFragmentsAreValid }
{}
