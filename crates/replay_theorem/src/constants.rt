// The tape that a run needs has constants alone: a law about the definitions, whose statement is in
// `specs/ConstantLaws.antt`; the function does nothing.

ghost use Rattle.replay_theorem.specs.ConstantLaws.{NeededTapesAreConstant};

use crate::needed_tapes_write_bytes;
use tape_laws::{laws_of_runs, laws_of_steps};

/// The values of a needed tape can be written as constants: what a run reads of its globals, and what the host passes
/// and returns, are values of number types, and what it reads of its table has an index of 32 bits.
pub fn needed_tapes_are_constant()
    ensures { NeededTapesAreConstant }
{
    laws_of_steps();
    laws_of_runs();
    needed_tapes_write_bytes();
}
