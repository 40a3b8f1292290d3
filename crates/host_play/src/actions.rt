// What the host does: its next action, and the end of an answer.

ghost use Rattle.std.specs.Prelude.{◌≡◌, ◌+◌, ◌^◌, ◌<◌, ◌≤◌, Some, None, IfOk, OnOk};
ghost use Rattle.wasm_syntax.specs.declared.modules.Module.{Module};
ghost use Rattle.wasm_syntax.specs.declared.values.Val.{Val};
ghost use Rattle.history_spec.specs.Code.{Code};
ghost use Rattle.history_spec.specs.Step.{StepResult};
ghost use Rattle.host_actions.specs.Does.{Does, args_in};
ghost use Rattle.host_actions.specs.Ready.{AreAddresses, AreOf, IsReady};
ghost use Rattle.wasm_interp.specs.Ahead.{ahead};
ghost use Rattle.wasm_interp.specs.Loans.{with_store};
ghost use Rattle.wasm_interp.specs.Calls.{InvokesRun, IsCallable};
ghost use Rattle.wasm_interp.specs.State.{IsAtHost};
ghost use Rattle.host_play.specs.Arguments.{AreKnown, AreRead, IsKnown, IsRead};
ghost use Rattle.host_play.specs.HostSteps.{play_step_result, stand_after, entries_of};
ghost use Rattle.host_play.specs.Hosts.{action_at, next_of, top_of};
ghost use Rattle.host_play.specs.Stands.{IsPlayed, Leads, MakesStep, StandsAt, rest};

use crate::host_steps::HostStep;
use crate::play_state::{Host, PlayState, Refusal, Stand};
use crate::scripted_host::ScriptedHost;
use base::NoMemory;
use host_actions::{
    ActionEnd, ActionFault, Addresses, Functions, fitting_actions, perform as do_act,
};
use host_script::{Action, Address, ResponseEnd};
use std::alloc::Global;
use type_safety::rules_hold;
use wasm_interp::{Machine, calls_are_ready, hosts_go_on, weightless_turns_end};
use wasm_syntax::{List, Vals};

/// An address, without wrapping; an argument that it names is one of the call that is answered.
fn address_of(machine: &Machine, address: Address) -> u64
    requires { IsKnown machine.now address }
    ensures { IsRead machine.now address result }
{
    match address {
        Address::Fixed(at) => u64::from(at),
        Address::Arg { number, plus } => machine.argument(number).bits + u64::from(plus),
    }
}

/// Where the ranges of an action begin.
fn addresses_of(machine: &Machine, action: &Action) -> Addresses
    requires { AreKnown machine.now action.now }
    ensures { AreRead machine.now action.now result }
{
    match action {
        Action::Write { to, .. } => Addresses {
            to: address_of(machine, *to),
            source: 0,
        },
        Action::Copy { to, source, .. } => Addresses {
            to: address_of(machine, *to),
            source: address_of(machine, *source),
        },
        _ => Addresses { to: 0, source: 0 },
    }
}

/// Does an action on the machine's store.
fn change(
    machine: &mut Machine,
    functions: &Functions,
    addresses: Addresses,
    action: &Action,
) -> Result<ActionEnd, ActionFault>
    requires { IsReady functions.now machine.old.store action.now }
    ensures does { (code : Code) (args : List Val)
        → AreOf code functions.now → AreAddresses args action.now addresses
        → Does code args action.now result machine.old.store machine.new.store }
    ensures rest { machine.new ≡ with_store machine.old machine.new.store }
{
    do_act(machine.store_mut(), functions, addresses, action)
}

/// Calls a function of the module.
pub(crate) fn call(machine: &mut Machine, func: u32, args: &Vals) -> Result<(), NoMemory>
    requires host { IsAtHost machine.old.flat machine.old.frames }
    requires callable { IsCallable machine.old.flat func args.now }
    ensures { OnOk result (InvokesRun machine.old func args.now machine.new) }
{
    machine.invoke(func, args.as_slice())?;
    Ok(())
}

/// The arguments of the call that an action makes, empty if it makes no call.
fn args_of(alloc: Global, action: &Action) -> Result<Vals, NoMemory>
    ensures { IfOk result (λ args. args ≡ args_in action.now) }
{
    match action {
        Action::Call { args, .. } => args.clone(),
        Action::CallTable { args, .. } => args.clone(),
        _ => Ok(List::new(alloc)),
    }
}

/// The host's next action.
pub(crate) fn perform(
    alloc: Global,
    script: &ScriptedHost<'_>,
    playing: &mut PlayState,
    top: Host,
    action: &Action,
) -> Result<HostStep, Refusal>
    requires played { IsPlayed script.now Stand.Host playing.old }
    requires top { top_of playing.old.hosts ≡ Some top }
    requires next { action_at script.now top ≡ Some action.now }
    requires small { next_of top < 2 ^ 63 }
    ensures makes { (m : Module) (s : StepResult) → StandsAt m script.now Stand.Host playing.old s
        → MakesStep m script.now s (play_step_result result) playing.new }
    ensures less { IfOk result (λ host_step.
        rest (stand_after host_step) playing.new < rest Stand.Host playing.old + 4) }
{
    rules_hold();
    calls_are_ready();
    hosts_go_on();
    fitting_actions();
    let _script = script;
    let addresses = addresses_of(&playing.machine, action);
    match change(&mut playing.machine, &playing.functions, addresses, action) {
        Ok(done) => match done {
            ActionEnd::Changed => {
                playing.hosts.replace_top(top.after_next_action());
                Ok(HostStep::Stays)
            }
            ActionEnd::Enters { func } => {
                let Ok(args) = args_of(alloc, action) else {
                    return Err(Refusal::Memory);
                };
                let Ok(()) = call(&mut playing.machine, func, &args) else {
                    return Err(Refusal::Memory);
                };
                playing.hosts.replace_top(top.after_next_action());
                Ok(HostStep::Calls { func, args })
            }
        },
        Err(fault) => match fault {
            ActionFault::Fault { kind } => Err(Refusal::Fault { kind }),
            ActionFault::Memory => Err(Refusal::Memory),
        },
    }
}

/// The end of what the topmost activation of the host has to do.
pub(crate) fn end(script: &ScriptedHost<'_>, playing: &mut PlayState, top: Host) -> HostStep
    requires played { IsPlayed script.now Stand.Host playing.old }
    requires top { top_of playing.old.hosts ≡ Some top }
    requires done { action_at script.now top ≡ None }
    ensures leads { (m : Module) (s : StepResult) → StandsAt m script.now Stand.Host playing.old s
        → Leads m script.now s (entries_of result) (stand_after result) playing.new }
    ensures less { rest (stand_after result) playing.new < rest Stand.Host playing.old }
    ensures ahead { ahead playing.new.machine.flat playing.new.machine.frames
        ≤ ahead playing.old.machine.flat playing.old.machine.frames }
{
    calls_are_ready();
    hosts_go_on();
    weightless_turns_end();
    match top {
        Host::Main { .. } => HostStep::Ends,
        Host::Answer { import, number, .. } => {
            let Some(reply) = script.reply(import, number) else {
                unreachable!();
            };
            match reply.end {
                ResponseEnd::Trap => HostStep::Traps,
                ResponseEnd::Return(value) => {
                    playing.machine.resume(value);
                    playing.hosts.pop();
                    HostStep::Returns { import, value }
                }
            }
        }
    }
}
