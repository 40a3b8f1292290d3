// The lines of what the run of an accepted replay module shows.

ghost use Rattle.std.specs.Prelude.{◌≡◌};
ghost use Rattle.wasm_syntax.specs.Profile.{IsSupported};
ghost use Rattle.wasm_flat.specs.Sizes.{IsShort};
ghost use Rattle.type_safety.specs.Supplies.{HasBytes};
ghost use Rattle.r3_faults.specs.Answers.{IsCaused, IsExact};
ghost use Rattle.r3_replay.specs.ReplayTexts.{HasNoReplayText, HasReplayText, replay_fault};

use history_spec::runs_have_one_result_at_most;
use r3_faults::Fault;
use replay_form::layouts_are_one;
use replay_run::{ReplayFault, replay};
use std::alloc::Global;
use wasm_validate::Checked;

/// The lines of the run of a module.
pub(crate) fn text_of(alloc: Global, checked: &Checked, turns: u64) -> Result<Vec<u8>, Fault>
    requires supported { IsSupported checked.now }
    requires short { IsShort checked.now }
    requires bytes { HasBytes checked.now }
    ensures { IsExact (HasReplayText checked.now turns) (HasNoReplayText checked.now turns) result }
{
    layouts_are_one();
    runs_have_one_result_at_most();
    replay_text(alloc, checked, turns)
}

/// The lines of the run of a module, or a fault with its cause.
fn replay_text(alloc: Global, checked: &Checked, turns: u64) -> Result<Vec<u8>, Fault>
    requires supported { IsSupported checked.now }
    requires short { IsShort checked.now }
    requires bytes { HasBytes checked.now }
    ensures { IsCaused (HasReplayText checked.now turns) (HasNoReplayText checked.now turns) result }
{
    match replay(alloc, checked, turns) {
        Ok(printed) => Ok(printed.text.into_vec()),
        Err(found) => Err(fault_of(found, turns)),
    }
}

/// The call's fault for a run within a number of turns that shows nothing.
fn fault_of(found: ReplayFault, turns: u64) -> Fault
    ensures { result ≡ replay_fault turns found }
{
    match found {
        ReplayFault::NoLayout => Fault::NoLayout,
        ReplayFault::Imports => Fault::NoImports,
        ReplayFault::NoEntry => Fault::NoEntry,
        ReplayFault::Link { segment } => Fault::Segment {
            number: u64::from(segment),
        },
        ReplayFault::Spent => Fault::Spent { turns },
        ReplayFault::Memory => Fault::Memory,
    }
}
