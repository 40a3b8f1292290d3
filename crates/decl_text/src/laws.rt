// Laws, each the contract of a function that does nothing.

ghost use Rattle.decl_text.specs.Laws.{DeclarationsAreWithinTexts, DeclarationsFit};

use crate::json_laws::values_are_within_texts;

/// A text that declares functions has at least as many bytes as its declarations have size.
pub fn declarations_are_within_texts()
    ensures { DeclarationsAreWithinTexts }
{
    values_are_within_texts();
}

/// Declarations that are read for a valid module have valid types with at most 1,000 parameters, and no name is that of
/// an export or of an earlier declaration.
pub fn declarations_that_are_read_fit()
    ensures { DeclarationsFit }
{}
