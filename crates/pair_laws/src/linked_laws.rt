// The laws that carry what is required of both modules of a pair over to their linked module, each the contract of a
// function; the statements are in `specs/LinkedLaws.antt`, and those of sizes in `specs/SizeLaws.antt`.

ghost use Rattle.pair_laws.specs.LinkedLaws.{LinkedAreAccepted, LinkedAreCore, LinkedAreEncodable, LinkedAreSupported, LinkedAreValid};
ghost use Rattle.pair_laws.specs.SizeLaws.{CountsAreWithin, LinkedAreShort, LinkedAreWithin, LinkedHaveListsWithin};

use instance_laws::typings_are_kept;
use wasm_syntax::encoding_forms;

/// The linked module of two modules of the form Core is one: no instruction and no segment that the form of replay
/// binaries alone has comes in.
pub fn linked_are_core()
    ensures { LinkedAreCore }
{}

/// The linked module of two valid modules whose pair has no fault is valid, if each type of both has an index.
pub fn linked_are_valid()
    ensures { LinkedAreValid }
{
    typings_are_kept();
}

/// The linked module of two valid modules that have an encoding and whose pair has no fault has an encoding in the same
/// form, if each function and each global of both has an index. It has one in the form of replay binaries if both have
/// one in the form Core.
pub fn linked_are_encodable()
    ensures { LinkedAreEncodable }
{
    encoding_forms();
}

/// The linked module of two accepted modules whose pair has no fault is accepted, if each type of both has an index.
pub fn linked_are_accepted()
    ensures { LinkedAreAccepted }
{
    linked_are_valid();
}

/// The linked module of two modules that can be run can be run: no instruction is refused, and the quantities are
/// within their limits.
pub fn linked_are_supported()
    ensures { LinkedAreSupported }
{}

/// The run of a pair has no more functions, tables, memories or globals than both modules import and define.
pub fn counts_are_within()
    ensures { CountsAreWithin }
{}

/// The list lengths of a linked module are at most the sum of bounds on those of the left and of the right module.
pub fn linked_have_lists_within()
    ensures { LinkedHaveListsWithin }
{}

/// A linked module is short enough to be made flat, if both modules are and their types and functions are not too many
/// together.
pub fn linked_are_short()
    ensures { LinkedAreShort }
{}

/// The shortest encoding of the linked module of two valid modules whose pair has no fault has at most
/// `MAX_ORIGINAL_BYTES`, if those of both modules have at most `MAX_FILE_BYTES`.
pub fn linked_are_within()
    ensures { LinkedAreWithin }
{}
