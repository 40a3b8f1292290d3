// Actions with their functions renumbered.

ghost use Rattle.std.specs.Prelude.{◌≡◌, ◌<◌, IfOk, IfSome, map, option_map};
ghost use Rattle.wasm_flat.specs.Sizes.{list_limit};
ghost use Rattle.record_replay_spec.specs.Hooks.{renumber};
ghost use Rattle.record_replay_spec.specs.HookedRuns.{renumbered_action};
ghost use Rattle.hooked_scripts.specs.Low.{AreLowActions, IsLowAction};

use base::NoMemory;
use hook_names::renumber;
use host_script::{Action, Actions};
use std::alloc::Global;
use wasm_syntax::List;

/// Actions, renumbered for a module that imports `imports` functions.
pub(crate) fn renumbered_actions(
    alloc: Global,
    imports: u32,
    actions: Actions,
) -> Result<Actions, NoMemory>
    requires { AreLowActions actions }
    ensures { IfOk result (λ list. list ≡ map (renumbered_action imports) actions) }
{
    let actions = actions.into_vec();
    let mut list = Vec::with_capacity(alloc, actions.len())?;
    'actions: for action in actions {
        list.push(renumbered_action(imports, action))?;
    }
    Ok(List::from_vec(list))
}

/// An action, renumbered.
fn renumbered_action(imports: u32, action: Action) -> Action
    requires { IsLowAction action }
    ensures { result ≡ renumbered_action imports action }
{
    match action {
        Action::Call { func, args } => Action::Call {
            func: renumber(imports, func),
            args,
        },
        Action::SetTable { index, func } => Action::SetTable {
            index,
            func: renumbered_entry(imports, func),
        },
        other => other,
    }
}

/// The function of a table entry, renumbered.
fn renumbered_entry(imports: u32, func: Option<u32>) -> Option<u32>
    requires { IfSome func (λ f. f < list_limit) }
    ensures { result ≡ option_map (renumber imports) func }
{
    match func {
        Some(func) => Some(renumber(imports, func)),
        None => None,
    }
}
