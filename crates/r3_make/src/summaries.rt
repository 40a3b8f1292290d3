// `load`: the summary of a load.

ghost use Rattle.std.specs.Prelude.{◌≤◌, length};
ghost use Rattle.wasm_syntax.specs.declared.limits.TheConstants.{LOAD_TURNS, MAX_LOAD_CALLS, MAX_FILE_BYTES};
ghost use Rattle.load_maker.specs.Loads.{load_script};
ghost use Rattle.load_maker.specs.declared.load_module.TheConstants.{LOAD_MODULE};
ghost use Rattle.r3_faults.specs.Answers.{IsReplayAnswer};
ghost use Rattle.r3_make.specs.Refusals.{AreReplayable, IsMakeRefusal};
ghost use Rattle.r3_make.specs.Summaries.{IsSummary, IsSummaryFor};

use crate::lines::lines_of;
use accepted_runs::inputs_of;
use load_maker::make_load;
use r3_faults::Fault;
use std::alloc::Global;
use wasm_syntax::limits::LOAD_TURNS;

/// Four lines on the load of a number of calls, at most `MAX_LOAD_CALLS`: the turns of its run, the entries of the
/// run's history, the segments of the tape that the run needs, and the tape's weight.
///
/// # Errors
///
/// The faults of `make` with the module and the script of the load and `LOAD_TURNS`. `Memory` if memory is out.
pub fn load_summary(alloc: Global, number: u32) -> Result<Vec<u8>, Fault>
    requires { number ≤ MAX_LOAD_CALLS }
    ensures { IsReplayAnswer (IsSummary number) (IsMakeRefusal LOAD_MODULE (load_script number) LOAD_TURNS)
        (AreReplayable LOAD_MODULE (load_script number) LOAD_TURNS) result }
{
    let (module, script) = make_load(alloc, number)?;
    summary_of(alloc, &module, &script, LOAD_TURNS)
}

/// The summary of the run of a module under a script, from the bytes of both.
fn summary_of(alloc: Global, module: &[u8], script: &[u8], turns: u64) -> Result<Vec<u8>, Fault>
    requires { length «module».now ≤ MAX_FILE_BYTES }
    ensures { IsReplayAnswer (IsSummaryFor «module».now script.now turns)
        (IsMakeRefusal «module».now script.now turns) (AreReplayable «module».now script.now turns) result }
{
    let (original, script) = inputs_of(alloc, module, script)?;
    lines_of(alloc, &original, script, turns)
}
