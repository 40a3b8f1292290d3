// What the host did in a step, and its entry in a history.

ghost use Rattle.std.specs.Prelude.{◌≡◌, ◌∷◌, [], IfOk, option_to_list};
ghost use Rattle.host_play.specs.HostSteps.{play_step_of, stand_after};

use crate::play_state::Stand;
use base::NoMemory;
use history_spec::{Entries, Entry, Outcome};
use std::alloc::Global;
use wasm_syntax::{List, Val, Vals};

/// What the host did in a step.
#[derive(Drop)]
pub enum HostStep {
    /// Control stays with the host: an action changed the store, or nothing was to be done.
    Stays,
    /// The host calls a function of the module.
    Calls { func: u32, args: Vals },
    /// The host returns from a call of an import.
    Returns { import: u32, value: Option<Val> },
    /// The host traps instead of returning.
    Traps,
    /// The host's own work is over.
    Ends,
}

/// A step of the run that is played: the place of control after it, and its entries.
#[derive(Drop)]
pub struct PlayStep {
    pub(crate) stand: Stand,
    pub(crate) entries: Entries,
}

impl HostStep {
    /// The place of control after this step.
    pub(crate) fn stand(&self) -> Stand
        ensures { result ≡ stand_after self.now }
    {
        match self {
            HostStep::Stays => Stand::Host,
            HostStep::Calls { .. } | HostStep::Returns { .. } => Stand::Module,
            HostStep::Traps => Stand::Over {
                outcome: Outcome::HostTrapped,
            },
            HostStep::Ends => Stand::Over {
                outcome: Outcome::Ended,
            },
        }
    }

    /// Converts this host step to a step of the run, with its entry if it has one.
    pub(crate) fn play_step(self, alloc: Global) -> Result<PlayStep, NoMemory>
        ensures { IfOk result (λ moved. moved ≡ play_step_of self) }
    {
        let stand = self.stand();
        let entries = match self {
            HostStep::Stays | HostStep::Ends => List::new(alloc),
            HostStep::Calls { func, args } => one(alloc, Entry::HostCall { func, args })?,
            HostStep::Returns { import, value } => {
                let results = results_of(alloc, value)?;
                one(alloc, Entry::ImportReturn { import, results })?
            }
            HostStep::Traps => one(alloc, Entry::HostTrap)?,
        };
        Ok(PlayStep { stand, entries })
    }
}

/// A list of one entry.
fn one(alloc: Global, entry: Entry) -> Result<Entries, NoMemory>
    ensures { IfOk result (λ entries. entries ≡ entry ∷ []) }
{
    let mut entries = Vec::with_capacity(alloc, 1)?;
    entries.push_reserved(entry);
    Ok(List::from_vec(entries))
}

/// A result as a list.
fn results_of(alloc: Global, value: Option<Val>) -> Result<Vals, NoMemory>
    ensures { IfOk result (λ results. results ≡ option_to_list value) }
{
    match value {
        None => Ok(List::new(alloc)),
        Some(value) => {
            let mut results = Vec::with_capacity(alloc, 1)?;
            results.push_reserved(value);
            Ok(List::from_vec(results))
        }
    }
}
