// Tapes whose values can be written as constants: laws about the definitions, whose statements are in
// `specs/ConstantLaws.antt`; each function does nothing.

ghost use Rattle.replay_encoding_laws.specs.ConstantLaws.{ReadTapesAreConstant};

/// A tape that bytes encode has constants alone: values of number types with bits of their width, and bytes.
pub fn read_tapes_are_constant()
    ensures { ReadTapesAreConstant }
{}
