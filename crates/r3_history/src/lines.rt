// The lines of the run of an accepted module under a script.

ghost use Rattle.type_safety.specs.Supplies.{HasBytes};
ghost use Rattle.accepted_runs.specs.Runnable.{CanRun};
ghost use Rattle.r3_faults.specs.Answers.{IsCaused, IsExact};
ghost use Rattle.r3_history.specs.Histories.{IsHistoryOf, IsUnprinted};

use accepted_runs::{printed_run, start_store};
use history_spec::runs_have_one_result_at_most;
use host_script::Script;
use r3_faults::Fault;
use std::alloc::Global;
use wasm_validate::Checked;

/// The lines of the run of a module under a script that fits it, within a number of turns.
///
/// # Errors
///
/// The fault names the cause: the module does not link, the host cannot do what the script says, or the run needs more
/// turns. Each is reported if and only if it is the first cause that applies. `Memory` if memory is out.
pub fn history_of(
    alloc: Global,
    checked: &Checked,
    script: &Script,
    turns: u64,
) -> Result<Vec<u8>, Fault>
    requires runnable { CanRun checked.now script.now }
    requires bytes { HasBytes checked.now }
    ensures { IsExact (IsHistoryOf checked.now script.now turns) (IsUnprinted checked.now script.now turns) result }
{
    runs_have_one_result_at_most();
    lines_of(alloc, checked, script, turns)
}

/// The lines of a run, or a fault with its cause.
fn lines_of(alloc: Global, checked: &Checked, script: &Script, turns: u64) -> Result<Vec<u8>, Fault>
    requires runnable { CanRun checked.now script.now }
    requires bytes { HasBytes checked.now }
    ensures { IsCaused (IsHistoryOf checked.now script.now turns) (IsUnprinted checked.now script.now turns) result }
{
    let store = start_store(alloc, checked, script)?;
    let printed = printed_run(alloc, checked, script, store, turns)?;
    Ok(printed.text.into_vec())
}
