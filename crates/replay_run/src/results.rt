// Why a replay module shows nothing.

ghost use Rattle.std.specs.Prelude.{◌≡◌};
ghost use Rattle.replay_run.specs.declared.results.ReplayFault.TheVariants.{Memory};

use base::NoMemory;
use thiserror::Error;

/// Why nothing is shown: the first cause that applies.
#[derive(Clone, Copy, PartialEq, Eq, Debug, Error)]
pub enum ReplayFault {
    /// There is no single custom section `r3.layout` of two numbers, or the module has fewer functions than they
    /// say.
    #[error("no layout")]
    NoLayout,
    /// The module has imports.
    #[error("there are imports")]
    Imports,
    /// The exports are not exactly one function `_start` without parameters and results. A module with a custom
    /// section `r3.guard` may export globals besides.
    #[error("no entry")]
    NoEntry,
    /// This segment does not fit into its table or memory; element segments are checked before data segments.
    #[error("segment {segment} does not fit")]
    Link { segment: u32 },
    /// All turns are used, and the next instruction takes one.
    #[error("turns are spent")]
    Spent,
    #[error("out of memory")]
    Memory,
}

impl From<NoMemory> for ReplayFault {
    ghost from_gives = { λ _ fault. fault ≡ Memory };

    fn from(_refused: NoMemory) -> ReplayFault {
        ReplayFault::Memory
    }
}
