// The parts of a run with hooks.

ghost use Rattle.std.specs.Prelude.{◌<◌, ◌≤◌, ◌⊎◌, IfOk, OnOk};
ghost use Rattle.wasm_syntax.specs.declared.modules.Module.{Module};
ghost use Rattle.history_spec.specs.Step.{StepResult};
ghost use Rattle.host_play.specs.RunsSoFar.{BeginsPart, IsOn, IsOver};
ghost use Rattle.host_play.specs.HookedResults.{IsPlayedWithHooks};
ghost use Rattle.host_play.specs.HooksSoFar.{HooksOn, HooksSoFar, IsHooked, IsLess, run_in};

use crate::hook_answers::answer_hook;
use crate::hook_calls::take_call;
use crate::hooked_plays::RunSettings;
use crate::modules::begin_answer;
use crate::play_state::{PlayState, Stand};
use crate::results::PlayFault;
use crate::scripted_host::ScriptedHost;
use crate::steps::{go_host, play_fault};
use history_spec::Outcome;
use hook_names::Hooks;
use std::alloc::Global;
use wasm_interp::{Pause, calls_are_ready, hosts_go_on, meters_fit, weightless_turns_end};

/// The module's part, by many turns at once: up to the host's next part, the call of a hook, or an outcome. The call of
/// a hook goes to the hooks and is answered at once.
fn advance_module<H: Hooks>(
    script: &ScriptedHost<'_>,
    hooks: &mut H,
    settings: &RunSettings<'_>,
    playing: &mut PlayState,
    left: &mut u64,
) -> Result<Stand, PlayFault>
    requires hooked { IsHooked script.now settings.now Stand.Module playing.old }
    requires left { left.old ≤ settings.now.turns }
    ensures goes { (m : Module) (initial : StepResult) (begun : H)
        → HooksSoFar H.is_step m script.now settings.now initial begun hooks.old Stand.Module playing.old
        left.old
        → HooksOn H.is_step m script.now settings.now initial begun hooks.new result playing.new left.new }
    ensures less { IfOk result (λ next. IsLess left.old Stand.Module playing.old left.new next playing.new) }
    ensures part { IfOk result (λ next. BeginsPart next) }
    ensures left { OnOk result (left.new ≤ settings.now.turns) }
{
    calls_are_ready();
    hosts_go_on();
    meters_fit();
    weightless_turns_end();
    let pause = playing.machine.advance(settings.meter, left)?;
    match pause {
        Pause::Import { index } => {
            take_call(hooks, &playing.machine, settings.imports, index)?;
            if index >= settings.imports {
                answer_hook(playing, index);
                return Ok(Stand::Module);
            }
            match begin_answer(script, &mut playing.hosts, &mut playing.counts, index) {
                Ok(()) => Ok(Stand::Host),
                Err(refusal) => Err(play_fault(refusal, settings.turns, *left)),
            }
        }
        Pause::Returned => Ok(Stand::Host),
        Pause::Trapped => Ok(Stand::Over {
            outcome: Outcome::Trapped,
        }),
        Pause::Spent => Err(PlayFault::Spent),
    }
}

/// The module's part, or the host's next action or its end.
fn go_on<H: Hooks>(
    alloc: Global,
    script: &ScriptedHost<'_>,
    hooks: &mut H,
    settings: &RunSettings<'_>,
    playing: &mut PlayState,
    stand: Stand,
    left: &mut u64,
) -> Result<Stand, PlayFault>
    requires hooked { IsHooked script.now settings.now stand playing.old }
    requires on { IsOn stand }
    requires part { BeginsPart stand }
    requires left { left.old ≤ settings.now.turns }
    ensures goes { (m : Module) (initial : StepResult) (begun : H)
        → HooksSoFar H.is_step m script.now settings.now initial begun hooks.old stand playing.old left.old
        → HooksOn H.is_step m script.now settings.now initial begun hooks.new result playing.new left.new }
    ensures less { IfOk result (λ next. IsLess left.old stand playing.old left.new next playing.new) }
    ensures part { IfOk result (λ next. BeginsPart next) }
    ensures left { OnOk result (left.new ≤ settings.now.turns) }
{
    match stand {
        Stand::Module => advance_module(script, hooks, settings, playing, left),
        Stand::Host => {
            let host_step = go_host(alloc, script, playing, settings.turns, left)?;
            Ok(host_step.stand())
        }
        Stand::Instruction | Stand::Over { .. } => unreachable!(),
    }
}

/// Goes on until a turn is taken or the run is over.
fn go_until_turn<H: Hooks>(
    alloc: Global,
    script: &ScriptedHost<'_>,
    hooks: &mut H,
    settings: &RunSettings<'_>,
    playing: &mut PlayState,
    first: Stand,
    left: &mut u64,
) -> Result<Stand, PlayFault>
    requires so_far { (m : Module) × (initial : StepResult) × (begun : H)
        × HooksSoFar H.is_step m script.now settings.now initial begun hooks.old first playing.old left.old }
    requires on { IsOn first }
    requires part { BeginsPart first }
    requires left { left.old ≤ settings.now.turns }
    ensures goes { (m : Module) (initial : StepResult) (begun : H)
        → HooksSoFar H.is_step m script.now settings.now initial begun hooks.old first playing.old left.old
        → HooksOn H.is_step m script.now settings.now initial begun hooks.new result playing.new left.new }
    ensures less { IfOk result (λ next. (left.new < left.old) ⊎ ((left.new ≤ left.old) × IsOver next)) }
    ensures part { IfOk result (λ next. BeginsPart next) }
    ensures left { OnOk result (left.new ≤ settings.now.turns) }
{
    let before = *left;
    let mut stand = first;
    'parts: loop {
        stand = go_on(alloc, script, hooks, settings, playing, stand, left)?;
        if *left < before || stand.is_over() {
            return Ok(stand);
        }
    }
}

/// Goes on until the run is over.
pub(crate) fn play_parts<H: Hooks>(
    alloc: Global,
    script: &ScriptedHost<'_>,
    hooks: &mut H,
    settings: &RunSettings<'_>,
    playing: &mut PlayState,
    first: Stand,
) -> Result<Outcome, PlayFault>
    requires so_far { (m : Module) × (initial : StepResult) × (begun : H)
        × HooksSoFar H.is_step m script.now settings.now initial begun hooks.old first playing.old settings.now.turns }
    requires part { BeginsPart first }
    ensures { (m : Module) (initial : StepResult) (begun : H)
        → HooksSoFar H.is_step m script.now settings.now initial begun hooks.old first playing.old settings.now.turns
        → IsPlayedWithHooks H.is_step (run_in m script.now settings.now initial) result begun hooks.new }
{
    let mut stand = first;
    let mut left = settings.turns;
    'turns: loop {
        if let Stand::Over { outcome } = stand {
            return Ok(outcome);
        }
        stand = go_until_turn(alloc, script, hooks, settings, playing, stand, &mut left)?;
    }
}
