//! Worked histories of small modules, which the checker computes from the definitions.
#![tactic(auto)]

ghost use Rattle.worked_histories.specs.Histories.{WorkedHistories};

/// The example modules have the histories that are stated for them.
pub fn examples_have_their_histories()
    ensures { WorkedHistories }
{}
