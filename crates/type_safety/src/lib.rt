//! Type safety: a valid module under a script that fits it never gets stuck (Core 1.0, appendix 7.5). Each function is
//! a law about the definitions, whose statement is in `specs/Laws.antt`; it does nothing.
#![tactic(auto)]

ghost use Rattle.type_safety.specs.Laws.{CallsAreSafe, FittingActionsHaveResults, HeightsAtCalls, HeightsAtSteps, InstructionsHaveRules, NewStoresAreTyped, NothingMatchesNoImports, ResultsAreSafe, RunsAloneAreNeverStuck, RunsAloneAreSafe, RunsAreNeverStuck, RunsAreSafe, StartsAreSafe, StepsAreSafe, SuppliesMatch, ValidCodeHasHeights, ValidCodeIsTyped};

use wasm_numeric::values_fit;

/// The typings of a valid module's functions give heights, and with any such heights its code is
/// typed.
pub fn typed_code()
    ensures heights { ValidCodeHasHeights }
    ensures code { ValidCodeIsTyped }
{}

/// The supply of a script that fits, if it links, matches the imports; and the store of a newly instantiated
/// module is well typed (Core 1.0, 4.5.4).
pub fn typed_store()
    ensures supplied { SuppliesMatch }
    ensures alone { NothingMatchesNoImports }
    ensures store { NewStoresAreTyped }
{}

/// The next instruction of a well-typed activation has a rule, and an action of the host that fits succeeds or fails
/// for a named cause; their results are well typed.
pub fn rules_hold()
    ensures instructions { InstructionsHaveRules }
    ensures actions { FittingActionsHaveResults }
{
    values_fit();
}

/// The start of a run, a call of a defined function with arguments of its types, a delivery of results to activations
/// that await them, and a step lead to a well-typed configuration, or the run is over by an outcome or by a fault of
/// the script.
pub fn safe_steps()
    ensures starts { StartsAreSafe }
    ensures calls { CallsAreSafe }
    ensures results { ResultsAreSafe }
    ensures steps { StepsAreSafe }
{
    values_fit();
}

/// Each configuration that a run reaches is well typed, under any meter: in a run of a module under a script
/// that fits it, and of a module without imports whose function without parameters is called.
pub fn safe_runs()
    ensures scripted { RunsAreSafe }
    ensures alone { RunsAloneAreSafe }
{
    values_fit();
}

/// No run of a module under a script that fits it, and no run of a module alone, is ever stuck.
pub fn never_stuck()
    ensures scripted { RunsAreNeverStuck }
    ensures alone { RunsAloneAreNeverStuck }
{
    values_fit();
}

/// Before each instruction that control reaches, the number of values above the activation's base is the height by the
/// typing; in an activation that waits for the results of a call, with these results.
pub fn static_heights()
    ensures standing { HeightsAtSteps }
    ensures waiting { HeightsAtCalls }
{}
