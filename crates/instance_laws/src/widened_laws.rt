// The laws that carry what is required of a module over to its widened module, each the contract of a function; the
// statements are in `instance_spec`, and those of sizes in `specs/SizeLaws.antt`.

ghost use Rattle.instance_laws.specs.SizeLaws.{WidenedAreShort, WidenedAreWithin};
ghost use Rattle.instance_spec.specs.Outcomes.{OutcomesFollow, WidenedOutcomesFollow};
ghost use Rattle.instance_spec.specs.WidenedLaws.{WidenedAreAccepted, WidenedAreCore, WidenedAreEncodable, WidenedAreSupported, WidenedHaveListsWithin};

use crate::laws::{runs_follow, widened_are_valid, widened_runs_follow};
use wasm_syntax::encoding_forms;

/// The widened module of a module of the form Core is one: no instruction and no segment that the form of replay
/// binaries alone has comes in.
pub fn widened_are_core()
    ensures { WidenedAreCore }
{}

/// The widened module of a module that has an encoding has an encoding in the same form, if the declared names are text
/// and each type has an index. It has one in the form of replay binaries if the original is valid and has one in the
/// form Core.
pub fn widened_are_encodable()
    ensures { WidenedAreEncodable }
{
    encoding_forms();
}

/// The widened module of an accepted module is accepted, if the declared types have no more parameters than those of an
/// accepted module.
pub fn widened_are_accepted()
    ensures { WidenedAreAccepted }
{
    widened_are_valid();
}

/// The widened module of a module that can be run can be run: no instruction is refused, and the quantities are within
/// their limits.
pub fn widened_are_supported()
    ensures { WidenedAreSupported }
{}

/// A program that realises a world has the outcomes, the faults and the spent turns of the world, or does not link for
/// the same fault.
pub fn outcomes_follow()
    ensures { OutcomesFollow }
{
    runs_follow();
}

/// A widened module has the outcomes, the faults and the spent turns of the module as it is with foreign functions, or
/// does not link for the same fault.
pub fn widened_outcomes_follow()
    ensures { WidenedOutcomesFollow }
{
    outcomes_follow();
    widened_runs_follow();
}

/// The list lengths of a widened module are at most the sum of a bound on those of the original, of 2 for each declared
/// function, and of `MAX_PARAMETERS`.
pub fn widened_have_lists_within()
    ensures { WidenedHaveListsWithin }
{}

/// A widened module is short enough to be made flat, if the original is and there are not too many declared functions.
pub fn widened_are_short()
    ensures { WidenedAreShort }
{}

/// The shortest encoding of a widened module has at most `MAX_ORIGINAL_BYTES`, if that of the original has no more
/// bytes than a file may have, and the declarations have no greater size.
pub fn widened_are_within()
    ensures { WidenedAreWithin }
{}
