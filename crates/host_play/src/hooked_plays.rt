// The run of a module in the hooked form, with hooks that take its calls.

ghost use Rattle.wasm_syntax.specs.declared.modules.Module as syntax;
ghost use Rattle.history_spec.specs.Run.{start_in_store};
ghost use Rattle.history_spec.specs.Step.{StepResult};
ghost use Rattle.wasm_flat.specs.Meters.{FitsMeter};
ghost use Rattle.host_play.specs.HookedResults.{HasHooksAfter, IsPlayedWithHooks, hooked_run};
ghost use Rattle.host_play.specs.HooksSoFar.{CanPlay, run_in};
ghost use Rattle.host_play.specs.HostSteps.{entries_of, stand_after};
ghost use Rattle.host_play.specs.Stands.{Leads};
ghost use Rattle.host_play.specs.Starts.{CanBegin};

use crate::hooked_parts::play_parts;
use crate::host_steps::HostStep;
use crate::play_state::PlayState;
use crate::results::PlayFault;
use crate::script_runs::Play;
use crate::scripted_host::ScriptedHost;
use crate::starts::start;
use history_spec::Outcome;
use hook_names::Hooks;
use std::alloc::Global;
use wasm_flat::Meter;

/// How a module with hooks is run.
#[derive(Clone, Copy)]
pub struct RunSettings<'a> {
    /// How many imports come before the hooks.
    pub imports: u32,
    /// How many turns each instruction takes.
    pub meter: &'a Meter,
    /// The number of turns within which the run is.
    pub turns: u64,
}

/// The run of a module whose last imported functions are the hooks, under a script and as the settings say. Each call
/// of a hook goes to `hooks` with its arguments and a view of the store as it is then, and is answered by doing
/// nothing, whatever the script has in the hooks' places; all else is as in `print`. The script and the meter fit the
/// module, which has no refused instruction.
///
/// # Errors
///
/// `Fault` if the host cannot do what the script says, with the turn as in `print`. `Spent` if the run needs more
/// turns. `Hook` if the hooks find a call out of order, with its number; the run goes no further. `Memory` if memory
/// is exhausted, also if the hooks cannot allocate. Each of the calls of hooks up to there is a step of the hooks.
pub fn play<H: Hooks>(
    alloc: Global,
    play: Play,
    settings: &RunSettings<'_>,
    hooks: &mut H,
) -> Result<Outcome, PlayFault>
    requires begins { CanBegin play play.script.now }
    requires hooked { HasHooksAfter play.code.now settings.now.imports }
    requires meter { FitsMeter play.code.now settings.now.meter.now }
    ensures { IsPlayedWithHooks H.is_step
        (hooked_run play.entry.code.now play.entry.script.now play.entry.store settings.now.meter.now
        settings.now.imports settings.now.turns)
        result hooks.old hooks.new }
{
    let host = ScriptedHost::with_hooks(play.script, settings.imports);
    play_from(alloc, play, &host, settings, hooks)
}

/// The run of a module's instantiation under a script.
fn play_from<H: Hooks>(
    alloc: Global,
    play: Play,
    script: &ScriptedHost<'_>,
    settings: &RunSettings<'_>,
    hooks: &mut H,
) -> Result<Outcome, PlayFault>
    requires begins { CanBegin play script.now }
    requires hooked { CanPlay play.code.now script.now settings.now }
    ensures { IsPlayedWithHooks H.is_step
        (run_in play.entry.code.now script.now settings.now
        (start_in_store play.entry.code.now script.now play.entry.store))
        result hooks.old hooks.new }
{
    let (playing, host_step) = start(alloc, play, script)?;
    play_start(alloc, script, hooks, settings, playing, &host_step)
}

/// The run from its start, with what the host did first.
fn play_start<H: Hooks>(
    alloc: Global,
    script: &ScriptedHost<'_>,
    hooks: &mut H,
    settings: &RunSettings<'_>,
    playing: PlayState,
    host_step: &HostStep,
) -> Result<Outcome, PlayFault>
    requires leads { (m : syntax.Module) × (initial : StepResult) × CanPlay m script.now settings.now
        × Leads m script.now initial (entries_of host_step.now) (stand_after host_step.now) playing }
    ensures { (m : syntax.Module) (initial : StepResult) → CanPlay m script.now settings.now
        → Leads m script.now initial (entries_of host_step.now) (stand_after host_step.now) playing
        → IsPlayedWithHooks H.is_step (run_in m script.now settings.now initial) result hooks.old hooks.new }
{
    let mut playing = playing;
    let first = host_step.stand();
    play_parts(alloc, script, hooks, settings, &mut playing, first)
}
