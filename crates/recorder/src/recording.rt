// Hook calls one after another: the order checks each call, and the sink takes the events of what the call
// observes.

ghost use Rattle.recorder.specs.Known.{HaveTypes};

use base::NoMemory;
use hook_names::{Hook, View};
use hook_order::Order;
use shadow_memory::ShadowMemory;
use shadow_tables::ShadowTables;
use std::alloc::Global;
use trace_model::EventSink;
use wasm_syntax::Val;

/// The state of the order of calls, what is known of the store, and the sink of the events.
#[derive(Drop)]
pub(crate) struct Recording<S> {
    pub(crate) order: Order,
    pub(crate) memory: ShadowMemory,
    pub(crate) tables: ShadowTables,
    pub(crate) sink: S,
    pub(crate) alloc: Global,
    ghost typed: { HaveTypes order.shape.globals tables.globals },
}

impl<S: EventSink> Recording<S> {
    ghost use Rattle.std.specs.Prelude.{◌≡◌, IfOk, IsSome, OnErr};
    ghost use Rattle.recorder.specs.Recordings.{order_after, recording_of, IsTaken};

    /// Takes a call. Returns whether it is in order; if it is not, nothing changes.
    ///
    /// # Errors
    /// `NoMemory` if an allocation failed.
    #[inline(always)]
    pub(crate) fn take(&mut self, kind: Hook, args: &[Val], view: &View) -> Result<bool, NoMemory>
        ensures ok { IfOk result (λ may. IsTaken S.has_taken (recording_of self.old)
            (record { kind = kind; args = args.now; view = view.now }) may (recording_of self.new)) }
        ensures err { OnErr result (IsSome (order_after (recording_of self.old)
            (record { kind = kind; args = args.now; view = view.now }))) }
        ensures frozen { self.new.memory.frozen ≡ self.old.memory.frozen }
    {
        match kind {
            Hook::Arg => self.arg(args, view),
            Hook::Enter => self.enter(args, view),
            Hook::Leave => self.leave(args, view),
            Hook::Pre => self.pre(args, view),
            Hook::Post => self.post(args, view),
            Hook::Ipre => self.ipre(args, view),
            Hook::Ipost => self.ipost(args, view),
            Hook::Load => self.load(args, view),
            Hook::Store => self.store(args, view),
            Hook::Size => self.size(args, view),
            Hook::Grow => self.grow(args, view),
            Hook::Gget => self.gget(args, view),
            Hook::Gset => self.gset(args, view),
            Hook::Copy => self.copy(args, view),
            Hook::Fill => self.fill(args, view),
        }
    }
}
