// How the host answers calls of hooks.

ghost use Rattle.std.specs.Prelude.{◌≡◌, ◌<◌, ◌≤◌, None, length};
ghost use Rattle.wasm_interp.specs.Ahead.{ahead};
ghost use Rattle.wasm_interp.specs.Calls.{ResumesRun};
ghost use Rattle.wasm_interp.specs.State.{IsWaiting};
ghost use Rattle.host_play.specs.Hosts.{counts_after_call};

use crate::modules::count_call;
use crate::play_state::PlayState;
use wasm_interp::weightless_turns_end;

/// The host does nothing at the call of a hook, at which the machine waits: the call is counted, and control is with
/// the module again.
pub(crate) fn answer_hook(playing: &mut PlayState, import: u32)
    requires there { import < length playing.old.counts.items }
    requires waits { IsWaiting playing.old.machine.flat playing.old.machine.frames }
    ensures resumes { ResumesRun playing.old.machine None playing.new.machine }
    ensures functions { playing.new.functions ≡ playing.old.functions }
    ensures hosts { playing.new.hosts ≡ playing.old.hosts }
    ensures counted { playing.new.counts.items ≡ counts_after_call playing.old.counts.items import }
    ensures ahead { ahead playing.new.machine.flat playing.new.machine.frames
        ≤ ahead playing.old.machine.flat playing.old.machine.frames }
{
    weightless_turns_end();
    count_call(&mut playing.counts, import);
    playing.machine.resume(None);
}
