// What the module does: the returns that are due, and its next instruction.

ghost use Rattle.std.specs.Prelude.{◌≡◌, ◌+◌, ◌<◌, length, IfOk, Err};
ghost use Rattle.wasm_syntax.specs.declared.modules.Module.{Module};
ghost use Rattle.history_spec.specs.Step.{StepResult};
ghost use Rattle.wasm_interp.specs.InstrEntries.{entries_of};
ghost use Rattle.host_play.specs.HostSteps.{result_with};
ghost use Rattle.host_play.specs.Hosts.{BeginsBy, counts_after_call};
ghost use Rattle.host_play.specs.Stands.{IsPlayed, LeadsBy, MakesStep, StandsAt, rest};

use crate::host_steps::PlayStep;
use crate::play_state::{Host, Hosts, PlayState, Refusal, Stand};
use crate::scripted_host::ScriptedHost;
use flat_steps::stores_fit;
use history_spec::{FaultKind, Outcome};
use wasm_interp::{Pause, TurnEntries};

/// Performs the returns that are due.
pub(crate) fn settle(
    script: &ScriptedHost<'_>,
    playing: &mut PlayState,
) -> Result<PlayStep, Refusal>
    requires { IsPlayed script.now Stand.Module playing.old }
    ensures leads { (m : Module) (s : StepResult) → StandsAt m script.now Stand.Module playing.old s
        → LeadsBy m script.now s result playing.new }
    ensures less { IfOk result (λ moved. rest moved.stand playing.new < rest Stand.Module playing.old) }
{
    let _script = script;
    let turn = playing.machine.settle()?;
    let entries = turn.entries;
    match turn.pause {
        None => Ok(PlayStep {
            stand: Stand::Instruction,
            entries,
        }),
        Some(_) => Ok(PlayStep {
            stand: Stand::Host,
            entries,
        }),
    }
}

/// Executes the next instruction, and returns the place of control after it.
pub(crate) fn turn(
    script: &ScriptedHost<'_>,
    playing: &mut PlayState,
    entries: &mut TurnEntries,
) -> Result<Stand, Refusal>
    requires { IsPlayed script.now Stand.Instruction playing.old }
    ensures makes { (m : Module) (s : StepResult) → StandsAt m script.now Stand.Instruction playing.old s
        → MakesStep m script.now s (result_with (entries_of entries.new) result) playing.new }
    ensures less { IfOk result (λ stand. rest stand playing.new < rest Stand.Instruction playing.old + 4) }
{
    stores_fit();
    let pause = playing.machine.turn_into(entries)?;
    match pause {
        None => Ok(Stand::Instruction),
        Some(why) => match why {
            Pause::Returned => Ok(Stand::Host),
            Pause::Trapped => Ok(Stand::Over {
                outcome: Outcome::Trapped,
            }),
            Pause::Import { index } => {
                begin_answer(script, &mut playing.hosts, &mut playing.counts, index)?;
                Ok(Stand::Host)
            }
            Pause::Spent => unreachable!(),
        },
    }
}

/// The host begins to answer a call of an import. The response is that of the call's number, counted
/// from 0 for each import.
pub(crate) fn begin_answer(
    script: &ScriptedHost<'_>,
    hosts: &mut Hosts,
    counts: &mut Vec<u64>,
    index: u32,
) -> Result<(), Refusal>
    requires { index < length counts.old.items }
    ensures { BeginsBy script.now hosts.old counts.old.items index result hosts.new counts.new.items }
{
    let number = counts[index as usize];
    let Some(_reply) = script.reply(index, number) else {
        return Err(Refusal::Fault {
            kind: FaultKind::NoResponse,
        });
    };
    hosts.push(Host::Answer {
        import: index,
        number,
        next: 0,
    })?;
    count_call(counts, index);
    Ok(())
}

/// Counts a call of an import.
pub(crate) fn count_call(counts: &mut Vec<u64>, import: u32)
    requires { import < length counts.old.items }
    ensures { counts.new.items ≡ counts_after_call counts.old.items import }
{
    let count = counts[import as usize];
    counts[import as usize] = count.saturating_add(1);
}
