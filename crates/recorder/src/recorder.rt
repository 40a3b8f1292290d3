// The recorder.

ghost use Rattle.std.specs.Prelude.{◌≡◌, ◌↔◌, ◌+◌, ◌^◌, ◌<◌, ◌≤◌, [], length, true, Ok, IfOk, IfErr, IsOk, IsTrue, OnOk, OnErr, None};
ghost use Rattle.wasm_syntax.specs.Index.{all_globals};
ghost use Rattle.hook_names.specs.declared.hooks.HookFault.TheVariants.{Memory};
ghost use Rattle.history_spec.specs.Store.{Store};
ghost use Rattle.history_spec.specs.Instantiation.{instantiate, table_length};
ghost use Rattle.type_safety.specs.Stores.{func_count, global_types};
ghost use Rattle.type_safety.specs.Values.{AreValues};
ghost use Rattle.record_replay_spec.specs.Hooks.{hook_count};
ghost use Rattle.record_replay_spec.specs.Order.{order_start, shape_of};
ghost use Rattle.record_replay_spec.specs.Logs.{log_start};
ghost use Rattle.recorder.specs.Recorders.{after_freeze, StandsAt};

use crate::frozen::{Frozen, FrozenTables};
use crate::recording::Recording;
use base::{NoMemory, Outcome};
use hook_names::{Hook, HookFault, Hooks, View};
use hook_order::{Order, Shape};
use host_script::Supply;
use shadow_memory::ShadowMemory;
use shadow_tables::ShadowTables;
use std::alloc::Global;
use std::marker::Model;
use trace_model::{EventSink, Events, Log};
use wasm_syntax::Val;
use wasm_validate::Checked;

/// Takes the hook calls of a module in the hooked form, and passes the events of their log to a sink. What it knows
/// can be frozen between calls.
#[derive(Drop)]
pub struct Recorder<S> {
    recording: Recording<S>,
    frozen: Option<FrozenTables>,
    calls: u64,
    broken: bool,
}

impl<S> Model for Recorder<S> {
    ghost use Rattle.recorder.specs.FrozenViews.{frozen_of};
    ghost use Rattle.recorder.specs.Recorders as recorders;
    ghost use Rattle.recorder.specs.Recordings as recordings;

    ghost Value = { recorders.Recorded S };

    ghost view = { λ r. record {
      recording = recordings.recording_of r.recording;
      frozen = frozen_of r.recording.memory.frozen r.frozen;
      calls = r.calls;
      broken = r.broken;
    } };
}

impl<S: EventSink + Drop> Recorder<S> {
    /// A recorder before any call of a module in the hooked form, whose original imports `imports` functions.
    /// Each function of the module and each global has an index of 32 bits. The module links with the supply, and its
    /// globals are well typed then. The sink has taken no event.
    ///
    /// # Errors
    /// `NoMemory` if an allocation failed.
    pub fn into_sink(
        alloc: Global,
        checked: &Checked,
        supply: &Supply,
        imports: u32,
        sink: S,
    ) -> Result<Recorder<S>, NoMemory>
        requires funcs { imports + length checked.now.funcs + hook_count < 2 ^ 32 }
        requires globals { length (all_globals checked.now) ≤ 2 ^ 32 }
        requires links { IsOk (instantiate checked.now supply.now) }
        requires typed { (store : Store) → instantiate checked.now supply.now ≡ Ok store
            → AreValues (func_count checked.now) (global_types checked.now) store.globals }
        ensures sink { IfOk result (λ recorder. recorder.recording.sink ≡ sink) }
        ensures frozen { IfOk result (λ recorder. recorder.frozen ≡ None) }
        ensures stands { IfOk result (λ recorder. (store : Store) → instantiate checked.now supply.now ≡ Ok store
            → StandsAt recorder (shape_of imports checked.now) (order_start (table_length store.table))
            (log_start store) 0) }
    {
        let shape = Shape::of(alloc, checked.module(), imports)?;
        let memory = ShadowMemory::of_opening(alloc, checked, supply)?;
        let tables = ShadowTables::of_opening(alloc, checked, supply)?;
        Ok(Recorder {
            recording: Recording {
                order: Order::new(alloc, shape),
                memory,
                tables,
                sink,
                alloc,
            },
            frozen: None,
            calls: 0,
            broken: false,
        })
    }

    /// The sink, which has taken the events of the calls so far. After a call that ended with `Memory`, it may
    /// have taken some of that call's events too. Takes no memory.
    pub fn close(self) -> S
        ensures { result ≡ self.recording.sink }
    {
        let Recorder { recording, .. } = self;
        let Recording { sink, .. } = recording;
        sink
    }

    /// The sink, as `close` returns it, and what was known when the recorder was frozen last; `None` if it never was.
    /// Takes no memory.
    pub fn close_frozen(self) -> (S, Option<Frozen>)
        ensures { (result.0 ≡ self.recording.sink) × (result.1 ≡ self.frozen) }
    {
        let Recorder {
            recording,
            frozen,
            ..
        } = self;
        let Recording { sink, memory, .. } = recording;
        let frozen = match frozen {
            Some(tables) => Some(Frozen { memory, tables }),
            None => None,
        };
        (sink, frozen)
    }
}

impl Recorder<Events> {
    /// A recorder before any call, with a list of events as its sink.
    ///
    /// # Errors
    /// `NoMemory` if an allocation failed.
    pub fn new(
        alloc: Global,
        checked: &Checked,
        supply: &Supply,
        imports: u32,
    ) -> Result<Recorder<Events>, NoMemory>
        requires funcs { imports + length checked.now.funcs + hook_count < 2 ^ 32 }
        requires globals { length (all_globals checked.now) ≤ 2 ^ 32 }
        requires links { IsOk (instantiate checked.now supply.now) }
        requires typed { (store : Store) → instantiate checked.now supply.now ≡ Ok store
            → AreValues (func_count checked.now) (global_types checked.now) store.globals }
        ensures sink { IfOk result (λ recorder. recorder.recording.sink ≡ []) }
        ensures frozen { IfOk result (λ recorder. recorder.frozen ≡ None) }
        ensures stands { IfOk result (λ recorder. (store : Store) → instantiate checked.now supply.now ≡ Ok store
            → StandsAt recorder (shape_of imports checked.now) (order_start (table_length store.table))
            (log_start store) 0) }
    {
        Recorder::into_sink(alloc, checked, supply, imports, Events::new(alloc))
    }

    /// The log of the calls so far, with an outcome. After a call that ended with `Memory`, it may have some of that
    /// call's events. Takes no memory.
    pub fn finish(self, outcome: Outcome) -> Log
        ensures { result ≡ record {
          imports = self.recording.order.shape.imports;
          events = self.recording.sink;
          outcome = outcome;
        } }
    {
        let imports = self.recording.order.shape().imports();
        Log {
            imports,
            events: self.close(),
            outcome,
        }
    }
}

impl<S> Recorder<S> {
    /// Whether no function and no call is open. Takes no memory.
    pub fn at_top(&self) -> bool
        ensures { IsTrue result ↔ (self.now.recording.order.frames ≡ []) }
    {
        self.recording.order.is_outside()
    }

    /// Freezes what is known: a copy of it replaces what was frozen before, and later calls do not change it.
    ///
    /// # Errors
    /// `NoMemory` if an allocation failed; nothing has changed then.
    pub fn freeze(&mut self) -> Result<(), NoMemory>
        ensures ok { OnOk result (self.new ≡ after_freeze self.old) }
        ensures err { OnErr result (self.new ≡ self.old) }
    {
        let tables = self.recording.tables.copy()?;
        self.recording.memory.freeze()?;
        let imports = self.recording.order.shape().imports();
        self.frozen = Some(FrozenTables { tables, imports });
        Ok(())
    }

    /// Counts one more call.
    ///
    /// # Errors
    /// `Memory` if there are more calls than 64 bits count, a number that neither memory nor time allows.
    fn count(&mut self) -> Result<(), HookFault>
        ensures ok { OnOk result (self.new ≡ record self.old { calls = self.old.calls + 1 }) }
        ensures err { OnErr result (self.new ≡ record self.old { broken = true }) }
        ensures fault { IfErr result (λ fault. fault ≡ Memory) }
    {
        let Some(calls) = self.calls.checked_add(1) else {
            self.broken = true;
            return Err(HookFault::Memory);
        };
        self.calls = calls;
        Ok(())
    }
}

impl<S: EventSink> Hooks for Recorder<S> {
    ghost use Rattle.recorder.specs.Recorders.{IsRecorderStep};

    ghost is_step = { IsRecorderStep S.has_taken };

    #[inline(always)]
    fn hook(&mut self, kind: Hook, args: &[Val], view: &View) -> Result<(), HookFault> {
        if self.broken {
            return Err(HookFault::Memory);
        }
        match self.recording.take(kind, args, view) {
            Ok(true) => self.count(),
            Ok(false) => Err(HookFault::Order { number: self.calls }),
            Err(NoMemory) => {
                self.broken = true;
                Err(HookFault::Memory)
            }
        }
    }
}
