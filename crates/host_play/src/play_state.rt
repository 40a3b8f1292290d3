// The state of a run under way.

ghost use Rattle.std.specs.Prelude.{◌≡◌, ◌<◌, ◌^◌, [], ◌∷◌, IfOk, IsSome, OnOk, OnErr, true, false};
ghost use Rattle.host_play.specs.RunsSoFar.{IsOn, IsOver};
ghost use Rattle.host_play.specs.Hosts.{after_next_action, next_of, top_of, below_of};
ghost use Rattle.host_play.specs.declared.play_state.Refusal.TheVariants.{Memory};

use base::NoMemory;
use history_spec::{FaultKind, Outcome};
use host_actions::Functions;
use std::alloc::Global;
use std::marker::Model;
use wasm_interp::Machine;

/// An activation of the host, by numbers into the script: its own work, or the answer to a call of an
/// import by the response to the call of this number. `next` is the number of the next action.
#[derive(Clone, Copy)]
pub enum Host {
    Main {
        next: usize,
    },
    Answer {
        import: u32,
        number: u64,
        next: usize,
    },
}

impl Host {
    /// This activation after its next action.
    pub(crate) fn after_next_action(self) -> Host
        requires { next_of self < 2 ^ 63 }
        ensures { result ≡ after_next_action self }
    {
        match self {
            Host::Main { next } => Host::Main { next: next + 1 },
            Host::Answer {
                import,
                number,
                next,
            } => Host::Answer {
                import,
                number,
                next: next + 1,
            },
        }
    }
}

/// The place of control between two steps.
#[derive(Clone, Copy)]
pub enum Stand {
    /// At an instruction.
    Instruction,
    /// In the module, before the returns that are due.
    Module,
    /// With the host, which may have nothing left to do.
    Host,
    /// The run is over.
    Over { outcome: Outcome },
}

impl Stand {
    /// Whether the run is over.
    pub(crate) fn is_over(&self) -> bool
        ensures over { result ≡ true → IsOver self.now }
        ensures on { result ≡ false → IsOn self.now }
    {
        matches!(self, Stand::Over { .. })
    }
}

/// Why a step is not made.
#[derive(Clone, Copy)]
pub enum Refusal {
    Fault { kind: FaultKind },
    Memory,
}

impl From<NoMemory> for Refusal {
    ghost from_gives = { λ _ refusal. refusal ≡ Memory };

    fn from(_refused: NoMemory) -> Refusal {
        Refusal::Memory
    }
}

/// Activations of the host; contracts see the topmost first.
#[derive(Drop)]
pub struct Hosts {
    items: Vec<Host>,
}

impl Model for Hosts {
    ghost use Rattle.std.specs.Prelude.{List, reverse};
    ghost use Rattle.host_play.specs.declared.play_state.Host.{Host};

    ghost Value = { List Host };

    ghost view = { λ hosts. reverse hosts.items.items };
}

impl Hosts {
    /// The host at its own work, before its first action.
    pub(crate) fn new(alloc: Global) -> Result<Hosts, NoMemory>
        ensures { IfOk result (λ hosts. hosts ≡ Host.Main 0 ∷ []) }
    {
        let mut items = Vec::with_capacity(alloc, 1)?;
        items.push_reserved(Host::Main { next: 0 });
        Ok(Hosts { items })
    }

    /// The topmost activation.
    pub(crate) fn top(&self) -> Option<Host>
        ensures { result ≡ top_of self.now }
    {
        self.items.last().copied()
    }

    /// Puts an activation on top.
    pub(crate) fn push(&mut self, host: Host) -> Result<(), NoMemory>
        ensures ok { OnOk result (self.new ≡ host ∷ self.old) }
        ensures err { OnErr result (self.new ≡ self.old) }
    {
        self.items.push(host)?;
        Ok(())
    }

    /// Removes the topmost activation, if there is one.
    pub(crate) fn pop(&mut self)
        ensures { self.new ≡ below_of self.old }
    {
        let _ = self.items.pop();
    }

    /// Replaces the topmost activation by another.
    pub(crate) fn replace_top(&mut self, host: Host)
        requires { IsSome (top_of self.old) }
        ensures { self.new ≡ host ∷ below_of self.old }
    {
        let count = self.items.len();
        if count > 0 {
            self.items[count - 1] = host;
        }
    }
}

/// The machine, the module's functions, the host's activations, and how often each import was called.
#[derive(Drop)]
pub struct PlayState {
    pub(crate) machine: Machine,
    pub(crate) functions: Functions,
    pub(crate) hosts: Hosts,
    pub(crate) counts: Vec<u64>,
}
