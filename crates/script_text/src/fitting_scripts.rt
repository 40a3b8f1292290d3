// Laws, each the contract of a function with an empty body.

ghost use Rattle.script_text.specs.FittingScripts.{ValuesFit, TextsFit};

/// A script that is read for a valid module fits the module, from a JSON value and from a text.
pub fn scripts_that_are_read_fit()
    ensures values { ValuesFit }
    ensures texts { TextsFit }
{}
