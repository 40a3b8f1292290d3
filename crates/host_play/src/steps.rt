// Steps of a run within a budget of turns.

ghost use Rattle.std.specs.Prelude.{◌≡◌, ◌+◌, ◌-◌, ◌*◌, ◌<◌, ◌≤◌, IfOk};
ghost use Rattle.wasm_syntax.specs.declared.modules.Module.{Module};
ghost use Rattle.history_spec.specs.Step.{StepResult};
ghost use Rattle.wasm_interp.specs.InstrEntries.{entries_of};
ghost use Rattle.host_play.specs.HostParts.{HostGoes};
ghost use Rattle.host_play.specs.HooksSoFar.{IsLess};
ghost use Rattle.host_play.specs.HostSteps.{result_with, stand_after};
ghost use Rattle.host_play.specs.Stands.{IsPlayed, StandsAt, rest};
ghost use Rattle.host_play.specs.RunsSoFar.{BeginsPart, GoesFrom, IsOn};
ghost use Rattle.host_play.specs.Results.{play_fault};

use crate::actions::{end, perform};
use crate::host_steps::{HostStep, PlayStep};
use crate::modules::{settle, turn};
use crate::play_state::{PlayState, Refusal, Stand};
use crate::responses::next_action;
use crate::results::PlayFault;
use crate::scripted_host::ScriptedHost;
use std::alloc::Global;
use wasm_interp::TurnEntries;

/// The fault of a step that is refused, with its turn: `left` of the turns are left.
pub(crate) fn play_fault(refusal: Refusal, turns: u64, left: u64) -> PlayFault
    requires { left ≤ turns }
    ensures { result ≡ play_fault refusal (turns - left) }
{
    match refusal {
        Refusal::Fault { kind } => PlayFault::Fault {
            turn: turns - left,
            kind,
        },
        Refusal::Memory => PlayFault::Memory,
    }
}

/// The host's next action, if a turn is left for it, or the end of what it has to do.
pub(crate) fn go_host(
    alloc: Global,
    script: &ScriptedHost<'_>,
    playing: &mut PlayState,
    turns: u64,
    left: &mut u64,
) -> Result<HostStep, PlayFault>
    requires played { IsPlayed script.now Stand.Host playing.old }
    requires left { left.old ≤ turns }
    ensures goes { (m : Module) (s : StepResult) → StandsAt m script.now Stand.Host playing.old s
        → HostGoes m script.now s turns left.old result playing.new left.new }
    ensures less { IfOk result (λ host_step.
        4 * left.new + rest (stand_after host_step) playing.new < 4 * left.old + rest Stand.Host playing.old) }
    ensures lower { IfOk result (λ host_step.
        IsLess left.old Stand.Host playing.old left.new (stand_after host_step) playing.new) }
    ensures left { left.new ≤ turns }
{
    let Some(top) = playing.hosts.top() else {
        unreachable!();
    };
    let Some(action) = next_action(script, top) else {
        return Ok(end(script, playing, top));
    };
    if *left == 0 {
        return Err(PlayFault::Spent);
    }
    *left -= 1;
    match perform(alloc, script, playing, top, action) {
        Ok(host_step) => Ok(host_step),
        Err(refusal) => Err(play_fault(refusal, turns, *left)),
    }
}

/// The next instruction, if a turn is left for it, and the place of control after it.
pub(crate) fn go_instruction(
    script: &ScriptedHost<'_>,
    playing: &mut PlayState,
    entries: &mut TurnEntries,
    turns: u64,
    left: &mut u64,
) -> Result<Stand, PlayFault>
    requires played { IsPlayed script.now Stand.Instruction playing.old }
    requires left { left.old ≤ turns }
    ensures goes { GoesFrom script.now turns Stand.Instruction playing.old left.old
        (result_with (entries_of entries.new) result) playing.new left.new }
    ensures less { IfOk result (λ next.
        4 * left.new + rest next playing.new < 4 * left.old + rest Stand.Instruction playing.old) }
    ensures left { left.new ≤ turns }
{
    if *left == 0 {
        return Err(PlayFault::Spent);
    }
    *left -= 1;
    match turn(script, playing, entries) {
        Ok(next) => Ok(next),
        Err(refusal) => Err(play_fault(refusal, turns, *left)),
    }
}

/// The beginning of the module's or the host's part: what follows without a turn, or the host's next action, if a
/// turn is left for it, with the entries.
pub(crate) fn go(
    alloc: Global,
    script: &ScriptedHost<'_>,
    playing: &mut PlayState,
    stand: Stand,
    turns: u64,
    left: &mut u64,
) -> Result<PlayStep, PlayFault>
    requires played { IsPlayed script.now stand playing.old }
    requires on { IsOn stand }
    requires begins { BeginsPart stand }
    requires left { left.old ≤ turns }
    ensures goes { GoesFrom script.now turns stand playing.old left.old result playing.new left.new }
    ensures less { IfOk result (λ moved.
        4 * left.new + rest moved.stand playing.new < 4 * left.old + rest stand playing.old) }
    ensures left { left.new ≤ turns }
{
    match stand {
        Stand::Module => match settle(script, playing) {
            Ok(moved) => Ok(moved),
            Err(refusal) => Err(play_fault(refusal, turns, *left)),
        },
        Stand::Host => {
            let host_step = go_host(alloc, script, playing, turns, left)?;
            Ok(host_step.play_step(alloc)?)
        }
        Stand::Instruction | Stand::Over { .. } => unreachable!(),
    }
}
