// The run of the instantiation of a module.

ghost use Rattle.std.specs.Prelude.{◌≡◌, Ok};
ghost use Rattle.history_spec.specs.Run.{run_start, program_of, start_in_store};
ghost use Rattle.history_spec.specs.Step.{StepResult};
ghost use Rattle.host_play.specs.Results.{IsPrinted};
ghost use Rattle.host_play.specs.Starts.{CanBegin};

use crate::printed_runs::print_from;
use crate::results::{PlayFault, PrintedRun};
use crate::scripted_host::ScriptedHost;
use host_script::Script;
use std::alloc::Global;
use wasm_flat::Flat;
use wasm_store::Store;
use wasm_syntax::Module;

/// The instantiation of a module under a script: its flat code, and the store that its run starts with.
#[derive(Drop)]
pub struct Play<'a> {
    pub code: &'a Module,
    pub flat: Flat,
    pub script: &'a Script,
    pub store: Store,
}

/// The run of a module under a script within a number of turns, with every entry of its history printed.
/// The script fits the module, which has no refused instruction and links with the script.
///
/// # Errors
///
/// `Fault` if the host cannot do what the script says: the turn is that of the action that cannot be
/// done, or of the call that has no response. `Spent` if the run needs more turns. `Memory` if
/// memory is exhausted.
pub fn print(alloc: Global, play: Play, turns: u64) -> Result<PrintedRun, PlayFault>
    requires begins { CanBegin play play.script.now }
    requires opened { run_start play.code.now play.script.now
        ≡ Ok (start_in_store play.code.now play.script.now play.store) }
    ensures { (initial : StepResult) → run_start play.entry.code.now play.entry.script.now ≡ Ok initial
        → IsPrinted (program_of play.entry.code.now play.entry.script.now) initial turns result }
{
    let host = ScriptedHost::of(play.script);
    print_from(alloc, play, &host, turns)
}
