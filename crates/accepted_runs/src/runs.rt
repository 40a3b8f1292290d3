// The run of the instantiation of an accepted module.

ghost use Rattle.std.specs.Prelude.{◌≡◌, ◌⊎◌, IfErr, IfOk};
ghost use Rattle.history_spec.specs.Run.{program_of, start_in_store};
ghost use Rattle.host_play.specs.Results.{PrintsRun};
ghost use Rattle.r3_faults.specs.declared.faults.Fault.TheVariants.{Memory};
ghost use Rattle.accepted_runs.specs.Runnable.{CanRun, StartsWith};
ghost use Rattle.accepted_runs.specs.Runs.{HasNoOutcome, run_fault};

use host_play::{Play, PlayFault, PrintedRun, print};
use host_script::Script;
use r3_faults::Fault;
use std::alloc::Global;
use wasm_flatten::flatten;
use wasm_store::Store;
use wasm_validate::Checked;

/// The run of a module under a script that fits it, from the store that it starts with, within a number
/// of turns, with every entry of its history printed.
///
/// # Errors
///
/// `Script` if the host cannot do what the script says, `Spent` if the run needs more turns,
/// `Memory` if memory is exhausted.
pub fn printed_run(
    alloc: Global,
    checked: &Checked,
    script: &Script,
    store: Store,
    turns: u64,
) -> Result<PrintedRun, Fault>
    requires runnable { CanRun checked.now script.now }
    requires start { StartsWith checked.now script.now store }
    ensures printed { IfOk result (λ printed.
        PrintsRun (program_of checked.now script.now) (start_in_store checked.now script.now store) turns printed) }
    ensures cause { IfErr result (λ fault. (fault ≡ Memory) ⊎ HasNoOutcome checked.now script.now turns fault) }
{
    let play = Play {
        code: checked.module(),
        flat: flatten(alloc, checked)?,
        script,
        store,
    };
    match print(alloc, play, turns) {
        Ok(printed) => Ok(printed),
        Err(fault) => Err(run_fault(fault, turns)),
    }
}

/// The fault of a call for a run within a number of turns that has no outcome, or no log.
pub fn run_fault(fault: PlayFault, turns: u64) -> Fault
    ensures { result ≡ run_fault turns fault }
{
    match fault {
        PlayFault::Fault { turn, kind } => Fault::Script { turn, kind },
        PlayFault::Spent => Fault::Spent { turns },
        PlayFault::Hook { number } => Fault::HookOrder { number },
        PlayFault::Memory => Fault::Memory,
    }
}
