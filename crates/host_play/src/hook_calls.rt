// Calls of hooks: what is passed to the hooks.

ghost use Rattle.std.specs.Prelude.{◌≡◌, ◌-◌, ◌<◌, ◌≤◌, List, Some, length, slice_get};
ghost use Rattle.wasm_syntax.specs.declared.values.Val as vals;
ghost use Rattle.hook_names.specs.Steps.{IsRun};
ghost use Rattle.record_replay_spec.specs.Hooks.{hooks as all_hooks, hook_count, hook_params};
ghost use Rattle.record_replay_spec.specs.HookedRuns.{call_of_hook};
ghost use Rattle.host_play.specs.HooksSoFar.{AreArguments, AwaitsCall};

use hook_names::{HOOKS, HookFault, Hooks, View};
use record_replay_spec::Hook;
use wasm_interp::Machine;
use wasm_syntax::Val;

/// A hook by its place among the hooks.
fn hook_at(place: u32) -> Hook
    requires { place < hook_count }
    ensures { slice_get all_hooks place ≡ Some result }
{
    HOOKS[place as usize]
}

/// How many arguments a hook takes.
fn argument_count(kind: Hook) -> u32
    ensures count { result ≡ length (hook_params kind) }
    ensures few { result ≤ 4 }
{
    match kind {
        Hook::Ipost | Hook::Size => 0,
        Hook::Enter | Hook::Leave | Hook::Pre | Hook::Post | Hook::Ipre | Hook::Grow => 1,
        Hook::Arg | Hook::Gget | Hook::Gset => 2,
        Hook::Load | Hook::Copy | Hook::Fill => 3,
        Hook::Store => 4,
    }
}

/// An argument of the call of a hook at which the machine waits.
#[inline(always)]
fn argument(machine: &Machine, kind: Hook, number: u32) -> Val
    requires waits { (args : List vals.Val) × AreArguments machine.now kind args }
    requires there { number < length (hook_params kind) }
    ensures { (args : List vals.Val) → AreArguments machine.now kind args → slice_get args number ≡ Some result }
{
    let _kind = kind;
    machine.argument(number)
}

/// Calls a hook with the arguments of the call of an import at which the machine waits, and with a view of its store.
fn call_hook<H: Hooks>(hooks: &mut H, machine: &Machine, kind: Hook) -> Result<(), HookFault>
    requires waits { (args : List vals.Val) × AreArguments machine.now kind args }
    ensures { (args : List vals.Val) → AreArguments machine.now kind args
        → H.is_step hooks.old (record { kind = kind; args = args; view = machine.now.store }) result hooks.new }
{
    let view = View::of(machine.store());
    match argument_count(kind) {
        0 => hooks.hook(kind, &[], &view),
        1 => hooks.hook(kind, &[argument(machine, kind, 0)], &view),
        2 => hooks.hook(
            kind,
            &[argument(machine, kind, 0), argument(machine, kind, 1)],
            &view,
        ),
        3 => hooks.hook(
            kind,
            &[
                argument(machine, kind, 0),
                argument(machine, kind, 1),
                argument(machine, kind, 2),
            ],
            &view,
        ),
        4 => hooks.hook(
            kind,
            &[
                argument(machine, kind, 0),
                argument(machine, kind, 1),
                argument(machine, kind, 2),
                argument(machine, kind, 3),
            ],
            &view,
        ),
        _ => unreachable!(),
    }
}

/// The hooks take the call of an import at which the machine waits, if it is a hook's: an import past the
/// given number of imports.
pub(crate) fn take_call<H: Hooks>(
    hooks: &mut H,
    machine: &Machine,
    imports: u32,
    import: u32,
) -> Result<(), HookFault>
    requires waits { (args : List vals.Val) × AwaitsCall machine.now imports import args }
    ensures { (args : List vals.Val) → AwaitsCall machine.now imports import args
        → IsRun H.is_step hooks.old (call_of_hook imports import args machine.now.store) result hooks.new }
{
    if import < imports {
        return Ok(());
    }
    call_hook(hooks, machine, hook_at(import - imports))
}
