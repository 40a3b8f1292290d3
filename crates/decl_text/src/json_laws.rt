// Laws, each the contract of a function that does nothing.

ghost use Rattle.decl_text.specs.DataSizes.{ValuesAreWithinTexts};

/// A JSON text has at least as many bytes as its value has size: a byte for each value, and for each key and each
/// string one more than its own bytes.
pub fn values_are_within_texts()
    ensures { ValuesAreWithinTexts }
{}
