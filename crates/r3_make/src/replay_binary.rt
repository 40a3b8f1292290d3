// The replay module of a run, in its binary format.

ghost use Rattle.accepted_runs.specs.Runnable.{CanRun};
ghost use Rattle.r3_faults.specs.Answers.{IsCaused, IsReplayAnswer};
ghost use Rattle.r3_make.specs.Printed.{IsReplayFor};
ghost use Rattle.r3_make.specs.Records.{IsOriginalModule};
ghost use Rattle.r3_make.specs.Refusals.{IsUnmade};
ghost use Rattle.r3_make.specs.Tapes.{NeedsLightTape};

use crate::tapes::{SuppliedTape, needed_tape};
use history_spec::runs_have_one_result_at_most;
use host_script::Script;
use instrumented_module_laws::encoded_have_words;
use r3_faults::Fault;
use replay_laws::replay_bytes;
use replay_theorem::{needed_tapes_are_constant, runs_are_replayed};
use std::alloc::Global;
use tape_laws::nothing_can_be_dropped;
use type_safety::typed_store;
use wasm_validate::Checked;

/// The replay module of the run of an accepted module under a script that fits it, within a number of turns, in its
/// binary format; some bytes encode the module, at most `MAX_ORIGINAL_BYTES`.
///
/// # Errors
///
/// The fault names the cause: the module does not link, the host cannot do what the script says, the run needs more
/// turns, or it needs a tape that weighs more than `MAX_TAPE_WEIGHT`. Each is reported if and only if it is the first
/// cause that applies. `Memory` if memory is out.
pub fn replay_of(
    alloc: Global,
    checked: Checked,
    script: Script,
    turns: u64,
) -> Result<Vec<u8>, Fault>
    requires original { IsOriginalModule checked }
    requires runnable { CanRun checked script }
    ensures { IsReplayAnswer (IsReplayFor checked script turns) (IsUnmade checked script turns)
        (NeedsLightTape checked script turns) result }
{
    runs_have_one_result_at_most();
    made_replay(alloc, checked, script, turns)
}

/// The bytes of the replay module of a run, or a fault with its cause.
fn made_replay(
    alloc: Global,
    checked: Checked,
    script: Script,
    turns: u64,
) -> Result<Vec<u8>, Fault>
    requires original { IsOriginalModule checked }
    requires runnable { CanRun checked script }
    ensures { IsCaused (IsReplayFor checked script turns) (IsUnmade checked script turns) result }
{
    typed_store();
    encoded_have_words();
    needed_tapes_are_constant();
    nothing_can_be_dropped();
    runs_are_replayed();
    let found = needed_tape(alloc, &checked, script, turns)?;
    let SuppliedTape { supply, tape } = found;
    let printed = replay_bytes(alloc, checked, &supply, tape)?;
    Ok(printed)
}
