// The response that a script has for a call; and the host's next action.

ghost use Rattle.std.specs.Prelude.{◌≡◌, ◌<◌, ◌≤◌, ◌^◌, None, Some, IsSome, MatchOption, slice_get};
ghost use Rattle.record_replay_spec.specs.Hooks.{hook_count};
ghost use Rattle.history_spec.specs.Step.{response_to};
ghost use Rattle.host_play.specs.Hosts.{action_at, next_of, IsResponse};
ghost use Rattle.host_play.specs.Replies.{IsReply, nothing_done, response_in};

use crate::play_state::Host;
use crate::scripted_host::ScriptedHost;
use hook_names::HOOK_COUNT;
use host_script::{Action, Response, ResponseEnd, Script};

/// What the host does at a call of an import: its actions, and how the call ends.
#[derive(Clone, Copy)]
pub struct Reply<'a> {
    pub actions: &'a [Action],
    pub end: ResponseEnd,
}

/// The response to the call of this number, counted from 0, of an import.
pub(crate) fn response_to(script: &Script, import: u32, number: u64) -> Option<&Response>
    ensures own { MatchOption result
        (response_to script.now.imports import number ≡ None)
        (λ response. response_to script.now.imports import number ≡ Some response.now) }
    ensures kept { MatchOption result
        (IsResponse script.now import number None)
        (λ response. IsResponse script.now import number (Some response.now)) }
{
    let imports = script.imports.as_slice();
    let Some(Some(answer)) = imports.get(import as usize) else {
        return None;
    };
    let calls = answer.calls.as_slice();
    let _count = calls.len();
    match calls.get(number as usize) {
        Some(response) => Some(response),
        None => answer.rest.as_ref(),
    }
}

/// What the host does at the call of this number of an import, by the script.
pub(crate) fn reply_of(script: &Script, import: u32, number: u64) -> Option<Reply<'_>>
    ensures { IsReply script.now import number result }
{
    match response_to(script, import, number) {
        Some(response) => Some(Reply {
            actions: response.actions.as_slice(),
            end: response.end,
        }),
        None => None,
    }
}

/// What the host does at a call of a hook, by its place among the hooks.
pub(crate) fn hook_reply(place: u32) -> Option<Reply<'static>>
    ensures { MatchOption result
        (hook_count ≤ place)
        (λ reply. (place < hook_count) × (response_in reply ≡ nothing_done)) }
{
    if place < HOOK_COUNT {
        Some(Reply {
            actions: &[],
            end: ResponseEnd::Return(None),
        })
    } else {
        None
    }
}

/// The next action of an activation of the host, if one is left.
pub(crate) fn next_action<'a>(script: &ScriptedHost<'a>, host: Host) -> Option<&'a Action>
    ensures found { MatchOption result
        (action_at script.now host ≡ None)
        (λ action. action_at script.now host ≡ Some action.now) }
    ensures small { IsSome result → next_of host < 2 ^ 63 }
{
    match host {
        Host::Main { next } => action_in(script.main(), next),
        Host::Answer {
            import,
            number,
            next,
        } => match script.reply(import, number) {
            Some(reply) => action_in(reply.actions, next),
            None => None,
        },
    }
}

/// An action by its number, if it exists.
fn action_in(actions: &[Action], number: usize) -> Option<&Action>
    ensures found { MatchOption result
        (slice_get actions.now number ≡ None)
        (λ action. slice_get actions.now number ≡ Some action.now) }
    ensures small { IsSome result → number < 2 ^ 63 }
{
    let _count = actions.len();
    actions.get(number)
}
