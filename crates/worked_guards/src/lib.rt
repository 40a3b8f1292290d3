//! Guarded modules of small replay modules, which the checker computes from the definitions.
#![tactic(auto)]

ghost use Rattle.worked_guards.specs.WorkedGuards.{WorkedGuards};

use wasm_syntax::validity_is_decided;

/// The guarded modules of the worked replay modules are valid and show what the replay modules show; words, bodies,
/// lengths and the counts of checks are as stated; and with other functions in the originals' places the first check
/// that differs fails.
pub fn worked_guards_hold()
    ensures { WorkedGuards }
{
    validity_is_decided();
}
