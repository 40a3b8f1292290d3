// Hooks that refuse a call.

ghost use Rattle.std.specs.Prelude.{⊤};

use hook_names::{Hook, HookFault, Hooks, View};
use wasm_syntax::Val;

/// Hooks that refuse the call of a given number as out of order, and count the calls that they took and the
/// arguments of these, and keep the bits of the last argument.
#[derive(Drop)]
pub(crate) struct RefusingHooks {
    pub(crate) at: u64,
    pub(crate) taken: u64,
    pub(crate) arguments: u64,
    pub(crate) last: u64,
}

impl Hooks for RefusingHooks {
    ghost is_step = { λ before call answer after. ⊤ };

    fn hook(&mut self, _kind: Hook, args: &[Val], _view: &View) -> Result<(), HookFault> {
        if self.taken == self.at {
            return Err(HookFault::Order { number: self.taken });
        }
        self.taken = self.taken.saturating_add(1);
        self.arguments = self.arguments.saturating_add(args.len() as u64);
        if let Some(value) = args.last() {
            self.last = value.bits;
        }
        Ok(())
    }
}
