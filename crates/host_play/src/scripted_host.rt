// The host that a script describes.

ghost use Rattle.std.specs.Prelude.{◌≡◌};
ghost use Rattle.record_replay_spec.specs.HookedRuns.{hooked_script};
ghost use Rattle.host_play.specs.Replies.{IsReply};

use crate::responses::{Reply, hook_reply, reply_of};
use host_script::{Action, Script};
use record_replay_spec::hooks_are_answered;
use std::marker::Model;

/// The host as a script describes it. If there are hooks after a number of imports, it does nothing at their calls,
/// whatever the script has in their places. Contracts see the script by which the host acts.
#[derive(Drop)]
pub struct ScriptedHost<'a> {
    script: &'a Script,
    hooks_after: Option<u32>,
}

impl<'a> Model for ScriptedHost<'a> {
    ghost use Rattle.host_script.specs.declared.scripts.Script.{Script as Scripted};
    ghost use Rattle.host_play.specs.ScriptedHosts.{script_of};

    ghost Value = { Scripted };

    ghost view = { λ host. script_of host.hooks_after host.script.now };
}

impl<'a> ScriptedHost<'a> {
    /// The host of a script.
    pub(crate) fn of(script: &'a Script) -> ScriptedHost<'a>
        ensures { result ≡ script.now }
    {
        ScriptedHost {
            script,
            hooks_after: None,
        }
    }

    /// The host of a script, with hooks after a number of imports.
    pub(crate) fn with_hooks(script: &'a Script, imports: u32) -> ScriptedHost<'a>
        ensures { result ≡ hooked_script imports script.now }
    {
        ScriptedHost {
            script,
            hooks_after: Some(imports),
        }
    }

    /// What the host does by itself.
    pub(crate) fn main(&self) -> &'a [Action]
        ensures { result.now ≡ self.now.main }
    {
        self.script.main.as_slice()
    }

    /// What the host does at the call of this number, counted from 0, of an import.
    pub(crate) fn reply(&self, import: u32, number: u64) -> Option<Reply<'a>>
        ensures { IsReply self.now import number result }
    {
        hooks_are_answered();
        match self.hooks_after {
            Some(imports) => {
                if import < imports {
                    reply_of(self.script, import, number)
                } else {
                    hook_reply(import - imports)
                }
            }
            None => reply_of(self.script, import, number),
        }
    }
}
