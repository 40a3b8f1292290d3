// Calls by the host of functions without parameters, and how they go on.

ghost use Rattle.std.specs.Prelude.{◌≡◌, ◌≤◌, ◌<◌, [], Ok, IfOk, OnOk};
ghost use Rattle.shown_lines.specs.ShownLines.{Shows};
ghost use Rattle.wasm_interp.specs.InstrEntries.{entries_of};
ghost use Rattle.replay_run.specs.RunsSoFar.{BeginsCall, GoesFrom, IsCalled, IsOutside, IsOver, IsOwnPause, IsShown, MakesStep, stand_at, stand_of, WalksOutside};

use crate::results::ReplayFault;
use base::NoMemory;
use history_spec::{Entry, Outcome};
use replay_form::Side;
use replay_run_spec::projections_run_along;
use shown_lines::{ShownText, trap_outcome, trap_outcome_of_turn};
use std::alloc::Global;
use wasm_interp::{Machine, Pause, Turn, TurnEntries, calls_are_ready};
use wasm_syntax::List;

/// Where a call by the host is.
#[derive(Clone, Copy)]
pub(crate) enum CallStand {
    /// At an instruction.
    Instruction,
    /// The function has returned.
    Returned,
    /// An original function has trapped, or a function outside, which is shown as a trap of the host.
    Trapped { outcome: Outcome },
}

/// Where a call is after a part of the run, by the pause that ended it; `outcome` is that of a trap.
fn stand_at(pause: Option<Pause>, outcome: Outcome) -> CallStand
    requires { IsOwnPause pause }
    ensures { result ≡ stand_at pause outcome }
{
    match pause {
        None => CallStand::Instruction,
        Some(pause) => match pause {
            Pause::Returned => CallStand::Returned,
            Pause::Trapped => CallStand::Trapped { outcome },
            Pause::Import { .. } | Pause::Spent => unreachable!(),
        },
    }
}

/// Writes the lines of a part of the run, and returns where the call is after it.
fn show_part(shown: &mut ShownText, turn: &Turn) -> Result<CallStand, NoMemory>
    requires { IsOwnPause turn.now.pause }
    ensures shows { OnOk result (Shows shown.old shown.new [] turn.now.entries) }
    ensures stands { IfOk result (λ stand. stand ≡ stand_of shown.old.layout turn.now.pause turn.now.entries) }
{
    let entries = turn.entries.as_slice();
    shown.show_all(entries)?;
    Ok(stand_at(turn.pause, trap_outcome(shown.layout(), entries)))
}

/// Writes the lines of an instruction's turn, which ended with a pause, and returns where the call is after it.
fn show_turn(
    shown: &mut ShownText,
    turn: &TurnEntries,
    pause: Option<Pause>,
) -> Result<CallStand, NoMemory>
    requires { IsOwnPause pause }
    ensures shows { OnOk result (Shows shown.old shown.new [] (entries_of turn.now)) }
    ensures stands { IfOk result (λ stand. stand ≡ stand_of shown.old.layout pause (entries_of turn.now)) }
{
    shown.show_turn(turn)?;
    Ok(stand_at(pause, trap_outcome_of_turn(shown.layout(), turn)))
}

/// Begins a call by the host of a function without parameters.
pub(crate) fn begin_call(
    alloc: Global,
    shown: &mut ShownText,
    machine: &mut Machine,
    func: u32,
) -> Result<CallStand, NoMemory>
    requires { IsCalled machine.old func }
    ensures begins { IfOk result (λ stand. BeginsCall shown.old machine.old func stand shown.new machine.new) }
    ensures layout { OnOk result (shown.new.layout ≡ shown.old.layout) }
{
    calls_are_ready();
    projections_run_along();
    machine.invoke(func, &[])?;
    let call = Entry::HostCall {
        func,
        args: List::new(alloc),
    };
    shown.show_all(&[call])?;
    let turn = machine.settle()?;
    let stand = show_part(shown, &turn)?;
    Ok(stand)
}

/// Executes the next instruction, with its entries in room that is used again.
fn make_step(
    shown: &mut ShownText,
    machine: &mut Machine,
    turn: &mut TurnEntries,
) -> Result<CallStand, NoMemory>
    requires { IsShown CallStand.Instruction shown.old machine.old }
    ensures makes { IfOk result (λ stand. MakesStep shown.old machine.old stand shown.new machine.new) }
    ensures layout { OnOk result (shown.new.layout ≡ shown.old.layout) }
{
    calls_are_ready();
    let pause = machine.turn_into(turn)?;
    let stand = show_turn(shown, turn, pause)?;
    Ok(stand)
}

/// Executes instructions of the topmost activation in a row; they are outside the original and show nothing.
fn walk_outside(
    shown: &mut ShownText,
    machine: &mut Machine,
    left: &mut u64,
) -> Result<CallStand, NoMemory>
    requires stands { IsShown CallStand.Instruction shown.old machine.old }
    requires outside { IsOutside shown.old.layout machine.old }
    ensures walks { IfOk result (λ stand.
        WalksOutside shown.old machine.old left.old stand shown.new machine.new left.new) }
    ensures left { OnOk result (left.new ≤ left.old) }
    ensures layout { OnOk result (shown.new.layout ≡ shown.old.layout) }
{
    calls_are_ready();
    projections_run_along();
    let turn = machine.walk(left)?;
    let stand = show_part(shown, &turn)?;
    Ok(stand)
}

/// If control is outside the original, executes the instructions that follow in the same activation.
fn go_outside(
    shown: &mut ShownText,
    machine: &mut Machine,
    stand: CallStand,
    left: &mut u64,
) -> Result<CallStand, NoMemory>
    requires { IsShown stand shown.old machine.old }
    ensures goes { IfOk result (λ after.
        GoesFrom stand shown.old machine.old left.old (Ok after) shown.new machine.new left.new) }
    ensures left { OnOk result (left.new ≤ left.old) }
    ensures layout { OnOk result (shown.new.layout ≡ shown.old.layout) }
{
    calls_are_ready();
    projections_run_along();
    if let CallStand::Instruction = stand {
        if shown.layout().side(machine.func()) != Side::Original {
            let after = walk_outside(shown, machine, left)?;
            return Ok(after);
        }
    }
    Ok(stand)
}

/// Executes the next instruction, and outside the original those that follow it, if a turn is left for each.
fn go_on(
    shown: &mut ShownText,
    machine: &mut Machine,
    turn: &mut TurnEntries,
    left: &mut u64,
) -> Result<CallStand, ReplayFault>
    requires { IsShown CallStand.Instruction shown.old machine.old }
    ensures goes { GoesFrom CallStand.Instruction shown.old machine.old left.old result shown.new machine.new left.new }
    ensures less { OnOk result (left.new < left.old) }
    ensures layout { OnOk result (shown.new.layout ≡ shown.old.layout) }
{
    projections_run_along();
    if *left == 0 {
        return Err(ReplayFault::Spent);
    }
    let stand = make_step(shown, machine, turn)?;
    *left -= 1;
    let after = go_outside(shown, machine, stand, left)?;
    Ok(after)
}

/// Continues a call until it has returned or trapped.
pub(crate) fn finish_call(
    alloc: Global,
    shown: &mut ShownText,
    machine: &mut Machine,
    first: CallStand,
    left: &mut u64,
) -> Result<CallStand, ReplayFault>
    requires { IsShown first shown.old machine.old }
    ensures goes { GoesFrom first shown.old machine.old left.old result shown.new machine.new left.new }
    ensures over { IfOk result (λ stand. IsOver stand) }
    ensures left { OnOk result (left.new ≤ left.old) }
    ensures layout { OnOk result (shown.new.layout ≡ shown.old.layout) }
{
    let mut turn = TurnEntries::new(alloc);
    let mut stand = first;
    'steps: while let CallStand::Instruction = stand {
        stand = go_on(shown, machine, &mut turn, left)?;
    }
    Ok(stand)
}
