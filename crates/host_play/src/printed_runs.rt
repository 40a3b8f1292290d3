// A run whose history is printed.

ghost use Rattle.std.specs.Prelude.{◌≡◌, ◌+◌, ◌*◌, ◌<◌, ◌≤◌, ◌++◌, IfOk, IfErr};
ghost use Rattle.wasm_syntax.specs.declared.modules.Module as syntax;
ghost use Rattle.history_spec.specs.Line.{line, outcome_text};
ghost use Rattle.history_spec.specs.Run.{program_of, start_in_store};
ghost use Rattle.history_spec.specs.Step.{StepResult};
ghost use Rattle.host_play.specs.declared.results.PlayFault.TheVariants.{Memory};
ghost use Rattle.host_play.specs.HostSteps.{entries_of, stand_after};
ghost use Rattle.host_play.specs.Starts.{CanBegin};
ghost use Rattle.host_play.specs.Stands.{IsPlayed, Leads, rest};
ghost use Rattle.host_play.specs.RunsSoFar.{BeginsPart, IsOn, PrintsOn, PrintsSoFar, UpToEnd};
ghost use Rattle.host_play.specs.Results.{IsPrinted};
ghost use Rattle.host_play.specs.PrintedLines.{Prints};

use crate::history_text::HistoryText;
use crate::host_steps::HostStep;
use crate::play_state::{PlayState, Stand};
use crate::results::{PlayFault, PrintedRun, RunEnd};
use crate::script_runs::Play;
use crate::scripted_host::ScriptedHost;
use crate::starts::start;
use crate::steps::{go, go_instruction};
use base::NoMemory;
use history_lines::print_outcome;
use std::alloc::Global;
use wasm_interp::TurnEntries;
use wasm_syntax::List;

/// What prints a history: its lines so far, and room for the entries of a turn.
#[derive(Drop)]
pub(crate) struct HistoryPrinter {
    lines: HistoryText,
    turn: TurnEntries,
}

/// The run of a module's instantiation under a script, within a number of turns.
pub(crate) fn print_from(
    alloc: Global,
    play: Play,
    script: &ScriptedHost<'_>,
    turns: u64,
) -> Result<PrintedRun, PlayFault>
    requires { CanBegin play script.now }
    ensures { IsPrinted (program_of play.entry.code.now script.now)
        (start_in_store play.entry.code.now script.now play.entry.store) turns result }
{
    let (mut playing, host_step) = start(alloc, play, script)?;
    print_start(alloc, script, &mut playing, host_step, turns)
}

/// The run from its start, with what the host did first, printed.
fn print_start(
    alloc: Global,
    script: &ScriptedHost<'_>,
    playing: &mut PlayState,
    host_step: HostStep,
    turns: u64,
) -> Result<PrintedRun, PlayFault>
    requires leads { (m : syntax.Module) × (initial : StepResult)
        × Leads m script.now initial (entries_of host_step) (stand_after host_step) playing.old }
    ensures { (m : syntax.Module) (initial : StepResult)
        → Leads m script.now initial (entries_of host_step) (stand_after host_step) playing.old
        → IsPrinted (program_of m script.now) initial turns result }
{
    let mut printed = HistoryPrinter {
        lines: HistoryText::new(alloc),
        turn: TurnEntries::new(alloc),
    };
    let stand = print_first(alloc, &mut printed.lines, host_step)?;
    let end = print_steps(alloc, script, playing, &mut printed, stand, turns)?;
    printed_run(printed, end)
}

/// Prints what the host did first, and returns the place of control after it.
fn print_first(
    alloc: Global,
    lines: &mut HistoryText,
    host_step: HostStep,
) -> Result<Stand, NoMemory>
    ensures stands { IfOk result (λ stand. stand ≡ stand_after host_step) }
    ensures prints { IfOk result (λ stand. Prints lines.old lines.new (entries_of host_step)) }
{
    let step = host_step.play_step(alloc)?;
    lines.print_all(step.entries.as_slice())?;
    Ok(step.stand)
}

/// Goes on until the run is over, and prints the entries.
fn print_steps(
    alloc: Global,
    script: &ScriptedHost<'_>,
    playing: &mut PlayState,
    printed: &mut HistoryPrinter,
    first: Stand,
    turns: u64,
) -> Result<RunEnd, PlayFault>
    requires so_far { (m : syntax.Module) × (initial : StepResult)
        × PrintsSoFar m script.now initial turns printed.old.lines first playing.old turns }
    ensures { (m : syntax.Module) (initial : StepResult)
        → PrintsSoFar m script.now initial turns printed.old.lines first playing.old turns
        → UpToEnd (program_of m script.now) initial turns
        (λ stand left. PrintsSoFar m script.now initial turns printed.new.lines stand playing.new left) result }
{
    let mut stand = first;
    let mut left = turns;
    'steps: loop {
        if let Stand::Over { outcome } = stand {
            return Ok(RunEnd {
                outcome,
                turns: turns - left,
            });
        }
        stand = print_on(alloc, script, playing, printed, stand, turns, &mut left)?;
    }
}

/// Goes on to the next place of control, and prints the entries.
fn print_on(
    alloc: Global,
    script: &ScriptedHost<'_>,
    playing: &mut PlayState,
    printed: &mut HistoryPrinter,
    stand: Stand,
    turns: u64,
    left: &mut u64,
) -> Result<Stand, PlayFault>
    requires played { IsPlayed script.now stand playing.old }
    requires on { IsOn stand }
    requires left { left.old ≤ turns }
    ensures goes { (m : syntax.Module) (initial : StepResult)
        → PrintsSoFar m script.now initial turns printed.old.lines stand playing.old left.old
        → PrintsOn m script.now initial turns result printed.new.lines playing.new left.new }
    ensures less { IfOk result (λ next.
        4 * left.new + rest next playing.new < 4 * left.old + rest stand playing.old) }
    ensures left { left.new ≤ turns }
{
    match stand {
        Stand::Instruction => print_instruction(script, playing, printed, turns, left),
        Stand::Module | Stand::Host => print_part(
            alloc,
            script,
            playing,
            &mut printed.lines,
            stand,
            turns,
            left,
        ),
        Stand::Over { .. } => unreachable!(),
    }
}

/// Executes the next instruction, and prints its entry and the entries after it.
fn print_instruction(
    script: &ScriptedHost<'_>,
    playing: &mut PlayState,
    printed: &mut HistoryPrinter,
    turns: u64,
    left: &mut u64,
) -> Result<Stand, PlayFault>
    requires played { IsPlayed script.now Stand.Instruction playing.old }
    requires left { left.old ≤ turns }
    ensures goes { (m : syntax.Module) (initial : StepResult)
        → PrintsSoFar m script.now initial turns printed.old.lines Stand.Instruction playing.old left.old
        → PrintsOn m script.now initial turns result printed.new.lines playing.new left.new }
    ensures less { IfOk result (λ next.
        4 * left.new + rest next playing.new < 4 * left.old + rest Stand.Instruction playing.old) }
    ensures left { left.new ≤ turns }
{
    let next = go_instruction(script, playing, &mut printed.turn, turns, left)?;
    printed.lines.print_turn(&printed.turn)?;
    Ok(next)
}

/// Goes on from the beginning of the module's or the host's part, and prints the entries.
fn print_part(
    alloc: Global,
    script: &ScriptedHost<'_>,
    playing: &mut PlayState,
    lines: &mut HistoryText,
    stand: Stand,
    turns: u64,
    left: &mut u64,
) -> Result<Stand, PlayFault>
    requires played { IsPlayed script.now stand playing.old }
    requires on { IsOn stand }
    requires begins { BeginsPart stand }
    requires left { left.old ≤ turns }
    ensures goes { (m : syntax.Module) (initial : StepResult)
        → PrintsSoFar m script.now initial turns lines.old stand playing.old left.old
        → PrintsOn m script.now initial turns result lines.new playing.new left.new }
    ensures less { IfOk result (λ next.
        4 * left.new + rest next playing.new < 4 * left.old + rest stand playing.old) }
    ensures left { left.new ≤ turns }
{
    let moved = go(alloc, script, playing, stand, turns, left)?;
    lines.print_all(moved.entries.as_slice())?;
    Ok(moved.stand)
}

/// The printed run, with the line of its outcome.
fn printed_run(printed: HistoryPrinter, end: RunEnd) -> Result<PrintedRun, PlayFault>
    ensures text { IfOk result (λ run. run.text ≡ printed.lines.text ++ line (outcome_text end.outcome)) }
    ensures rest { IfOk result (λ run.
        (run.entries ≡ printed.lines.entries) × (run.turns ≡ end.turns) × (run.outcome ≡ end.outcome)) }
    ensures err { IfErr result (λ fault. fault ≡ Memory) }
{
    let HistoryPrinter { lines, .. } = printed;
    let HistoryText { text, entries } = lines;
    let mut text = text;
    print_outcome(&mut text, end.outcome)?;
    Ok(PrintedRun {
        text: List::from_vec(text),
        entries,
        turns: end.turns,
        outcome: end.outcome,
    })
}
