// Hook calls that report how the memory and globals are read and written.

ghost use Rattle.std.specs.Prelude.{◌≡◌, IfOk, IsSome, OnErr};
ghost use Rattle.record_replay_spec.specs.declared.hooks.Hook.TheVariants as hooks;
ghost use Rattle.recorder.specs.Recordings.{order_after, recording_of, IsTaken};

use crate::memory;
use crate::recording::Recording;
use crate::tables::find_global;
use base::NoMemory;
use hook_names::View;
use trace_model::EventSink;
use wasm_syntax::Val;

impl<S: EventSink> Recording<S> {
    /// Takes a load.
    #[inline]
    pub(crate) fn load(&mut self, args: &[Val], view: &View) -> Result<bool, NoMemory>
        ensures ok { IfOk result (λ may. IsTaken S.has_taken (recording_of self.old)
            (record { kind = hooks.Load; args = args.now; view = view.now }) may (recording_of self.new)) }
        ensures err { OnErr result (IsSome (order_after (recording_of self.old)
            (record { kind = hooks.Load; args = args.now; view = view.now }))) }
        ensures frozen { self.new.memory.frozen ≡ self.old.memory.frozen }
    {
        let Some(access) = self.order.load_access(args) else {
            return Ok(false);
        };
        memory::load(self.alloc, &mut self.memory, &mut self.sink, access, view)?;
        Ok(true)
    }

    /// Takes a store.
    #[inline]
    pub(crate) fn store(&mut self, args: &[Val], view: &View) -> Result<bool, NoMemory>
        ensures ok { IfOk result (λ may. IsTaken S.has_taken (recording_of self.old)
            (record { kind = hooks.Store; args = args.now; view = view.now }) may (recording_of self.new)) }
        ensures err { OnErr result (IsSome (order_after (recording_of self.old)
            (record { kind = hooks.Store; args = args.now; view = view.now }))) }
        ensures frozen { self.new.memory.frozen ≡ self.old.memory.frozen }
    {
        let Some((access, bits)) = self.order.store_access(args) else {
            return Ok(false);
        };
        memory::store(&mut self.memory, &mut self.sink, access, bits, view)?;
        Ok(true)
    }

    /// Takes a read of the memory's size.
    #[inline]
    pub(crate) fn size(&mut self, args: &[Val], view: &View) -> Result<bool, NoMemory>
        ensures ok { IfOk result (λ may. IsTaken S.has_taken (recording_of self.old)
            (record { kind = hooks.Size; args = args.now; view = view.now }) may (recording_of self.new)) }
        ensures err { OnErr result (IsSome (order_after (recording_of self.old)
            (record { kind = hooks.Size; args = args.now; view = view.now }))) }
        ensures frozen { self.new.memory.frozen ≡ self.old.memory.frozen }
    {
        if !self.order.sees_size(args) {
            return Ok(false);
        }
        memory::resize(&mut self.memory, &mut self.sink, view)?;
        Ok(true)
    }

    /// Takes a growth of the memory.
    #[inline]
    pub(crate) fn grow(&mut self, args: &[Val], view: &View) -> Result<bool, NoMemory>
        ensures ok { IfOk result (λ may. IsTaken S.has_taken (recording_of self.old)
            (record { kind = hooks.Grow; args = args.now; view = view.now }) may (recording_of self.new)) }
        ensures err { OnErr result (IsSome (order_after (recording_of self.old)
            (record { kind = hooks.Grow; args = args.now; view = view.now }))) }
        ensures frozen { self.new.memory.frozen ≡ self.old.memory.frozen }
    {
        if !self.order.grows(args) {
            return Ok(false);
        }
        memory::resize(&mut self.memory, &mut self.sink, view)?;
        Ok(true)
    }

    /// Takes a read of a global.
    #[inline]
    pub(crate) fn gget(&mut self, args: &[Val], _view: &View) -> Result<bool, NoMemory>
        ensures ok { IfOk result (λ may. IsTaken S.has_taken (recording_of self.old)
            (record { kind = hooks.Gget; args = args.now; view = _view.now }) may (recording_of self.new)) }
        ensures err { OnErr result (IsSome (order_after (recording_of self.old)
            (record { kind = hooks.Gget; args = args.now; view = _view.now }))) }
        ensures frozen { self.new.memory.frozen ≡ self.old.memory.frozen }
    {
        let Some(reported) = self.order.read_global(args) else {
            return Ok(false);
        };
        find_global(
            &mut self.tables,
            &mut self.sink,
            reported.global,
            reported.value,
        )?;
        Ok(true)
    }

    /// Takes a write of a global.
    #[inline]
    pub(crate) fn gset(&mut self, args: &[Val], _view: &View) -> Result<bool, NoMemory>
        ensures ok { IfOk result (λ may. IsTaken S.has_taken (recording_of self.old)
            (record { kind = hooks.Gset; args = args.now; view = _view.now }) may (recording_of self.new)) }
        ensures err { OnErr result (IsSome (order_after (recording_of self.old)
            (record { kind = hooks.Gset; args = args.now; view = _view.now }))) }
        ensures frozen { self.new.memory.frozen ≡ self.old.memory.frozen }
    {
        let Some(reported) = self.order.set_global(args) else {
            return Ok(false);
        };
        self.tables.take_global(reported.global, reported.value);
        Ok(true)
    }

    /// Takes a copy of bytes.
    #[inline]
    pub(crate) fn copy(&mut self, args: &[Val], view: &View) -> Result<bool, NoMemory>
        ensures ok { IfOk result (λ may. IsTaken S.has_taken (recording_of self.old)
            (record { kind = hooks.Copy; args = args.now; view = view.now }) may (recording_of self.new)) }
        ensures err { OnErr result (IsSome (order_after (recording_of self.old)
            (record { kind = hooks.Copy; args = args.now; view = view.now }))) }
        ensures frozen { self.new.memory.frozen ≡ self.old.memory.frozen }
    {
        let Some(reported) = self.order.copy_args(args) else {
            return Ok(false);
        };
        memory::copy(self.alloc, &mut self.memory, &mut self.sink, reported, view)?;
        Ok(true)
    }

    /// Takes a fill of bytes.
    #[inline]
    pub(crate) fn fill(&mut self, args: &[Val], view: &View) -> Result<bool, NoMemory>
        ensures ok { IfOk result (λ may. IsTaken S.has_taken (recording_of self.old)
            (record { kind = hooks.Fill; args = args.now; view = view.now }) may (recording_of self.new)) }
        ensures err { OnErr result (IsSome (order_after (recording_of self.old)
            (record { kind = hooks.Fill; args = args.now; view = view.now }))) }
        ensures frozen { self.new.memory.frozen ≡ self.old.memory.frozen }
    {
        let Some(reported) = self.order.fill_args(args) else {
            return Ok(false);
        };
        memory::fill(&mut self.memory, &mut self.sink, reported, view)?;
        Ok(true)
    }
}
