// The laws, each the contract of a function; the statements are in `specs/` here and in `instance_spec`.

ghost use Rattle.instance_laws.specs.Typings.{BodiesAreRenamed, TypingsAreKept};
ghost use Rattle.instance_spec.specs.Laws.{FunctionsHaveTheirNumbers, RunsFollow, WidenedAreValid, WidenedRunsFollow};

/// A run whose indices are resolved when an instruction is executed is the run of the program in whose bodies they are
/// resolved beforehand: it has the same history, the same turns, and the same outcome or fault. This holds under every
/// meter and for every program, even of a module that is not valid.
pub fn runs_follow()
    ensures { RunsFollow }
{}

/// A renamed body has the type of the body, wherever the functions, types and globals have under their numbers the
/// types that they have under the indices in the body.
pub fn typings_are_kept()
    ensures { TypingsAreKept }
{}

/// The tree of a flat body whose instructions are renamed is the renamed tree of the body.
pub fn bodies_are_renamed()
    ensures { BodiesAreRenamed }
{}

/// In a run with foreign functions the imports have the numbers from 0 on, then come the declared functions, then those
/// that the module defines. Under its number each function has its type, and a defined function has its body.
pub fn functions_have_their_numbers()
    ensures { FunctionsHaveTheirNumbers }
{}

/// The run of a widened module under a script is the run of the module as it is, with the declared functions as foreign
/// functions, or does not link for the same fault. This holds for every module, declarations and script.
pub fn widened_runs_follow()
    ensures { WidenedRunsFollow }
{}

/// The widened module of a valid module is valid, if the declared types are valid, if no declared name is that of an
/// export or of an earlier declaration, and if there are fewer than 2^32 functions.
pub fn widened_are_valid()
    ensures { WidenedAreValid }
{}
