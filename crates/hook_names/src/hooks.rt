// The receiver of hook calls.

use crate::view::View;
use record_replay_spec::Hook;
use thiserror::Error;
use wasm_syntax::Val;

/// Why a hook call is refused.
#[derive(Clone, Copy, PartialEq, Eq, Debug, Error)]
pub enum HookFault {
    /// The call, by its number from 0, is out of order.
    #[error("a hook call out of order")]
    Order { number: u64 },
    #[error("out of memory")]
    Memory,
}

/// Takes hook calls, one after another. The effect and the answer of a call are a relation.
pub trait Hooks {
    ghost use Rattle.std.specs.Prelude.{Result, ⊤};
    ghost use Rattle.record_replay_spec.specs.Hooks.{HookCall};
    ghost use Rattle.hook_names.specs.declared.hooks.HookFault.{HookFault as Fault};

    // a call with this answer leads from the first hooks to the second
    ghost is_step: { Self → HookCall → Result ⊤ Fault → Self → Type 0 };

    /// Calls a hook with these arguments, with the store as the view shows it. Each call is a step.
    ///
    /// # Errors
    ///
    /// As the step of the implementing type defines: `Order` with the number of the call if it is out of order,
    /// and `Memory` if an allocation failed.
    fn hook(&mut self, kind: Hook, args: &[Val], view: &View) -> Result<(), HookFault>
        ensures { is_step self.old (record { kind = kind; args = args.now; view = view.now }) result self.new };
}

/// Hooks that keep nothing of their calls. They never refuse one and take no memory.
#[derive(Clone, Copy, PartialEq, Eq, Debug)]
pub struct NoHooks;

impl Hooks for NoHooks {
    ghost use Rattle.hook_names.specs.Steps.{IsAccepted};

    ghost is_step = { IsAccepted };

    fn hook(&mut self, _kind: Hook, _args: &[Val], _view: &View) -> Result<(), HookFault> {
        Ok(())
    }
}
