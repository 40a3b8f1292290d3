// Laws of the definitions, each the contract of a function that does nothing.

ghost use Rattle.wasm_syntax.specs.Laws.{BodiesAreRead, TypedIsKnown, KnownIsTyped, ValidityIsDecided, InvalidPlaceIsFound, FuncTypingIsDecided};

/// A body is nested if and only if reading it from its end gives a tree, which is its only one.
pub fn bodies_are_read()
    ensures { BodiesAreRead }
{}

/// What the plain program knows after a sequence holds of exactly the stacks to which the
/// sequence is typed from a stack for which the program's earlier knowledge held.
pub fn typing_is_checked()
    ensures known { TypedIsKnown }
    ensures reached { KnownIsTyped }
{}

/// A module is valid, or it is invalid at exactly one place, which the plain tests find.
pub fn validity_is_decided()
    ensures valid { ValidityIsDecided }
    ensures invalid { InvalidPlaceIsFound }
    ensures bodies { FuncTypingIsDecided }
{}
