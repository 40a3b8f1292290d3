// Laws of a machine, each the contract of a function that does nothing: what its calls require, what the host's
// part of the stack requires, and that instructions of weight 0 come to an end.

ghost use Rattle.wasm_interp.specs.Laws.{AdvancesLessen, AnswersAddNone, ArgumentsAreThere, FunctionsAreCallable, HostsAreTopmost, HostsBegin, HostsGoOn, ImportsWait, MetersFit, ModulesAreTopmost, ResponsesGoOn, ResultsAreValues, ReturnsAddNone, StepsLessen, StoresChange, StoresFitCode, TurnsLessen};

use flat_steps::{stores_fit, weights_agree};
use wasm_flat::weightless_items_go_ahead;

/// What the calls of a machine require holds if it represents a stack whose topmost activation is
/// the module's, or the host's.
pub fn calls_are_ready()
    ensures module { ModulesAreTopmost }
    ensures fits { StoresFitCode }
    ensures host { HostsAreTopmost }
    ensures waits { ImportsWait }
    ensures callable { FunctionsAreCallable }
    ensures arguments { ArgumentsAreThere }
{
    stores_fit();
}

/// The weights of a meter that fits a module also fit its flat code.
pub fn meters_fit()
    ensures { MetersFit }
{
    weightless_items_go_ahead();
}

/// A machine without activations represents the host at its own work. What the host has left to do
/// changes nothing in the machine, and another well-typed store changes nothing but its store.
pub fn hosts_go_on()
    ensures begins { HostsBegin }
    ensures main { HostsGoOn }
    ensures responses { ResponsesGoOn }
    ensures stores { StoresChange }
    ensures results { ResultsAreValues }
{}

/// Only finitely many instructions of weight 0 come in a row, also across calls of imports that the host just
/// answers: each leaves the activations less code ahead of them, unless it traps, and neither a return
/// nor an answer gives them more. So an advance that takes no turn and comes to a call of an import
/// leaves less ahead than it found.
pub fn weightless_turns_end()
    ensures turns { TurnsLessen }
    ensures returns { ReturnsAddNone }
    ensures answers { AnswersAddNone }
    ensures advances { AdvancesLessen }
    ensures steps { StepsLessen }
{
    weights_agree();
    meters_fit();
}
