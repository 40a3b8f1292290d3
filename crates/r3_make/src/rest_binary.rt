// The replay module of a run from a top-level call on, in its binary format.

ghost use Rattle.accepted_runs.specs.Runnable.{CanRun};
ghost use Rattle.r3_faults.specs.Answers.{IsCaused, IsReplayAnswer};
ghost use Rattle.r3_make.specs.Records.{IsOriginalModule};
ghost use Rattle.r3_make.specs.RestRefusals.{HasCall, HasNoRest};
ghost use Rattle.r3_make.specs.RestReplays.{IsRestFor};

use crate::states_and_cuts::{StateAndCut, state_and_cut};
use history_spec::runs_have_one_result_at_most;
use host_script::Script;
use instrumented_module_laws::encoded_have_words;
use r3_faults::Fault;
use replay_laws::encoded_replay;
use replay_theorem::{needed_tapes_are_constant, needed_tapes_are_playable};
use rest_laws::{cuts_are_light, cuts_fit, rests_are_there};
use rest_theorem::{cuts_are_constant, rests_are_replayed_from_states};
use state_laws::state_modules_can_be_replayed;
use std::alloc::Global;
use wasm_validate::Checked;

/// The replay module of the run of an accepted module under a script that fits it, within a number of turns, from the
/// top-level call of a number on, in its binary format; some bytes encode the module, at most `MAX_ORIGINAL_BYTES`.
///
/// # Errors
///
/// The fault names the cause: the module does not link, the host cannot do what the script says, the run needs more
/// turns, it has too few top-level calls, or it needs a tape that weighs more than `MAX_TAPE_WEIGHT`. Each is reported
/// if and only if it is the first cause that applies. `Memory` if memory is out.
pub(crate) fn rest_replay_of(
    alloc: Global,
    checked: Checked,
    script: Script,
    turns: u64,
    number: u32,
) -> Result<Vec<u8>, Fault>
    requires original { IsOriginalModule checked }
    requires runnable { CanRun checked script }
    ensures { IsReplayAnswer (IsRestFor checked script turns number) (HasNoRest checked script turns number)
        (HasCall checked script turns number) result }
{
    runs_have_one_result_at_most();
    rests_are_there();
    made_rest(alloc, checked, script, turns, number)
}

/// The bytes of the replay module of a run from a call on, or a fault with its cause.
fn made_rest(
    alloc: Global,
    checked: Checked,
    script: Script,
    turns: u64,
    number: u32,
) -> Result<Vec<u8>, Fault>
    requires original { IsOriginalModule checked }
    requires runnable { CanRun checked script }
    ensures { IsCaused (IsRestFor checked script turns number) (HasNoRest checked script turns number) result }
{
    cuts_are_constant();
    cuts_are_light();
    cuts_fit();
    encoded_have_words();
    needed_tapes_are_constant();
    needed_tapes_are_playable();
    rests_are_replayed_from_states();
    state_modules_can_be_replayed();
    let parts = state_and_cut(alloc, &checked, script, turns, number)?;
    let StateAndCut {
        module,
        supply,
        cut,
    } = parts;
    let printed = encoded_replay(alloc, module, &supply, cut)?;
    Ok(printed)
}
