// A recorder that is frozen before a top-level call.

ghost use Rattle.std.specs.Prelude.{◌≡◌, ◌&&◌};
ghost use Rattle.rest_spec.specs.TopEnters.{is_enter, none_open};
ghost use Rattle.checkpoint.specs.FrozenRuns.{RunsAreFrozen};

use hook_names::{Hook, HookFault, Hooks, View};
use recorder::{Recorder, steps_are_recorded};
use std::marker::Model;
use trace_model::EventSink;
use wasm_syntax::Val;

/// Passes hook calls on to a recorder, and freezes it before the top-level call of a number: before the hook call that
/// reports the entry of a function while no function and no call is open, the number of such calls before it being
/// that number.
#[derive(Drop)]
pub struct Freezer<S> {
    recorder: Recorder<S>,
    number: u32,
    calls: u64,
}

impl<S> Model for Freezer<S> {
    ghost use Rattle.checkpoint.specs.Freezers.{Freezing};

    ghost Value = { Freezing S };

    ghost view = { λ f. record { recorder = f.recorder; number = f.number; calls = f.calls } };
}

impl<S> Freezer<S> {
    /// A freezer of a recorder, for the top-level call of this number, from 0. Takes no memory.
    pub fn new(recorder: Recorder<S>, number: u32) -> Freezer<S>
        ensures { result ≡ record { recorder = recorder; number = number; calls = 0 } }
    {
        Freezer {
            recorder,
            number,
            calls: 0,
        }
    }

    /// The number of top-level calls that were reported and accepted. It stays at the greatest number of 64 bits. Takes
    /// no memory.
    pub fn calls(&self) -> u64
        ensures { result ≡ self.now.calls }
    {
        self.calls
    }

    /// The recorder, which is frozen if the top-level call of the number was reported. Takes no memory.
    pub fn into_recorder(self) -> Recorder<S>
        ensures { result ≡ self.recorder }
    {
        self.recorder
    }

    /// Whether a hook call of this kind reports a top-level call.
    fn enters_top(&self, kind: Hook) -> bool
        ensures { result ≡ (is_enter kind && none_open self.now.recorder.recording.order.frames) }
    {
        match kind {
            Hook::Enter => self.recorder.at_top(),
            _ => false,
        }
    }
}

impl<S: EventSink> Hooks for Freezer<S> {
    ghost use Rattle.checkpoint.specs.Freezers.{IsFreezerStep};

    ghost is_step = { IsFreezerStep S.has_taken };

    fn hook(&mut self, kind: Hook, args: &[Val], view: &View) -> Result<(), HookFault> {
        let top = self.enters_top(kind);
        if top && self.calls == u64::from(self.number) {
            if self.recorder.freeze().is_err() {
                return Err(HookFault::Memory);
            }
        }
        self.recorder.hook(kind, args, view)?;
        if top {
            self.calls = self.calls.saturating_add(1);
        }
        Ok(())
    }
}

/// From a new freezer, a run of hook calls that are all accepted gives the sink exactly the events of their log, counts
/// the top-level calls that they report, and freezes what the log knows before the one that is looked for.
pub fn runs_are_frozen<S: EventSink>()
    ensures { RunsAreFrozen S.has_taken }
{
    steps_are_recorded::<S>();
}
