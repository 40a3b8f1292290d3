// The result of a run.

ghost use Rattle.std.specs.Prelude.{◌≡◌};
ghost use Rattle.host_play.specs.declared.results.PlayFault.TheVariants.{Memory};
ghost use Rattle.host_play.specs.HookFaults.{fault_of_hook};

use base::NoMemory;
use history_spec::{FaultKind, Outcome};
use hook_names::HookFault;
use thiserror::Error;
use wasm_syntax::Bytes;

/// A run that has an outcome: the lines of its history and of its outcome, how many entries the history
/// has, and how many turns it took.
#[derive(Debug, Drop)]
pub struct PrintedRun {
    pub text: Bytes,
    pub entries: u64,
    pub turns: u64,
    pub outcome: Outcome,
}

/// How a run is over: its outcome, and how many turns it took.
#[derive(Clone, Copy)]
pub(crate) struct RunEnd {
    pub(crate) outcome: Outcome,
    pub(crate) turns: u64,
}

/// Why a run has no outcome.
#[derive(Clone, Copy, PartialEq, Eq, Debug, Error)]
pub enum PlayFault {
    /// The host cannot do what its script says, at this turn.
    #[error("turn {turn}: {kind}")]
    Fault { turn: u64, kind: FaultKind },
    /// All turns are used, and the next step takes one.
    #[error("turns are spent")]
    Spent,
    /// This call of a hook, by its number from 0, is out of order.
    #[error("hook call {number} is out of order")]
    Hook { number: u64 },
    #[error("out of memory")]
    Memory,
}

impl From<HookFault> for PlayFault {
    ghost from_gives = { λ refused fault. fault ≡ fault_of_hook refused };

    fn from(refused: HookFault) -> PlayFault {
        match refused {
            HookFault::Order { number } => PlayFault::Hook { number },
            HookFault::Memory => PlayFault::Memory,
        }
    }
}

impl From<NoMemory> for PlayFault {
    ghost from_gives = { λ _ fault. fault ≡ Memory };

    fn from(_refused: NoMemory) -> PlayFault {
        PlayFault::Memory
    }
}
