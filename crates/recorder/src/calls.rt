// Hook calls that report how functions and calls begin and end.

ghost use Rattle.std.specs.Prelude.{◌≡◌, ℕ, ◌∷◌, [], true, IfOk, IsSome, OnOk, OnErr, length, nat_le, option_and_then, slice_get};
ghost use Rattle.record_replay_spec.specs.declared.hooks.Hook.TheVariants as hooks;
ghost use Rattle.trace_model.specs.Sink.{TookAlso};
ghost use Rattle.trace_model.specs.declared.events.Event.TheVariants as events;
ghost use Rattle.history_spec.specs.Instantiation.{table_length};
ghost use Rattle.record_replay_spec.specs.Observations.{ReachesEntry, entry_observations};
ghost use Rattle.record_replay_spec.specs.Known.{entry_of, entries_after};
ghost use Rattle.record_replay_spec.specs.Hooks.{on, original};
ghost use Rattle.recorder.specs.Known.{ReportsTables};
ghost use Rattle.recorder.specs.Recordings.{order_after, recording_of, IsTaken};

use crate::memory::notice;
use crate::recording::Recording;
use crate::tables::{find_entry, reach_entry};
use base::NoMemory;
use hook_names::View;
use hook_order::EntryCall;
use shadow_tables::ShadowTables;
use std::alloc::Global;
use trace_model::{Event, EventSink};
use wasm_syntax::{Val, Vals};

/// Passes the event of a function that is entered with these values to the sink.
fn report_entry<S: EventSink>(
    alloc: Global,
    sink: &mut S,
    func: u32,
    values: &[Val],
) -> Result<(), NoMemory>
    ensures { OnOk result (TookAlso S.has_taken sink.old sink.new (events.Enter func values.now ∷ [])) }
{
    let args = Vals::from_vec(Vec::from_slice(alloc, values)?);
    sink.event(Event::Enter { func, args })
}

/// Passes the event of a call that ends with these values, at most one, to the sink.
fn report_post<S: EventSink>(sink: &mut S, values: &[Val]) -> Result<(), NoMemory>
    ensures { OnOk result (TookAlso S.has_taken sink.old sink.new (events.Post (slice_get values.now 0) ∷ [])) }
{
    sink.event(Event::Post {
        result: values.first().copied(),
    })
}

impl<S: EventSink> Recording<S> {
    /// Takes a value that is passed for the next call.
    #[inline]
    pub(crate) fn arg(&mut self, args: &[Val], _view: &View) -> Result<bool, NoMemory>
        ensures ok { IfOk result (λ may. IsTaken S.has_taken (recording_of self.old)
            (record { kind = hooks.Arg; args = args.now; view = _view.now }) may (recording_of self.new)) }
        ensures err { OnErr result (IsSome (order_after (recording_of self.old)
            (record { kind = hooks.Arg; args = args.now; view = _view.now }))) }
        ensures frozen { self.new.memory.frozen ≡ self.old.memory.frozen }
    {
        let Some(value) = self.order.value(args) else {
            return Ok(false);
        };
        self.order.report(value)?;
        Ok(true)
    }

    /// Takes the entry into a function.
    #[inline]
    pub(crate) fn enter(&mut self, args: &[Val], view: &View) -> Result<bool, NoMemory>
        ensures ok { IfOk result (λ may. IsTaken S.has_taken (recording_of self.old)
            (record { kind = hooks.Enter; args = args.now; view = view.now }) may (recording_of self.new)) }
        ensures err { OnErr result (IsSome (order_after (recording_of self.old)
            (record { kind = hooks.Enter; args = args.now; view = view.now }))) }
        ensures frozen { self.new.memory.frozen ≡ self.old.memory.frozen }
    {
        let Some(func) = self.order.entered_function(args) else {
            return Ok(false);
        };
        report_entry(self.alloc, &mut self.sink, func, self.order.pending())?;
        notice(&mut self.memory, &mut self.sink, view)?;
        self.order.enter(func)?;
        Ok(true)
    }

    /// Takes the exit of a function.
    #[inline]
    pub(crate) fn leave(&mut self, args: &[Val], _view: &View) -> Result<bool, NoMemory>
        ensures ok { IfOk result (λ may. IsTaken S.has_taken (recording_of self.old)
            (record { kind = hooks.Leave; args = args.now; view = _view.now }) may (recording_of self.new)) }
        ensures err { OnErr result (IsSome (order_after (recording_of self.old)
            (record { kind = hooks.Leave; args = args.now; view = _view.now }))) }
        ensures frozen { self.new.memory.frozen ≡ self.old.memory.frozen }
    {
        let Some(func) = self.order.left_function(args) else {
            return Ok(false);
        };
        self.sink.event(Event::Leave { func })?;
        self.order.close();
        Ok(true)
    }

    /// Takes the beginning of a call by a function's index.
    #[inline]
    pub(crate) fn pre(&mut self, args: &[Val], _view: &View) -> Result<bool, NoMemory>
        ensures ok { IfOk result (λ may. IsTaken S.has_taken (recording_of self.old)
            (record { kind = hooks.Pre; args = args.now; view = _view.now }) may (recording_of self.new)) }
        ensures err { OnErr result (IsSome (order_after (recording_of self.old)
            (record { kind = hooks.Pre; args = args.now; view = _view.now }))) }
        ensures frozen { self.new.memory.frozen ≡ self.old.memory.frozen }
    {
        let Some(func) = self.order.called_function(args) else {
            return Ok(false);
        };
        self.sink.event(Event::Pre { callee: Some(func) })?;
        self.order.call(true, Some(func))?;
        Ok(true)
    }

    /// Takes the end of a call by a function's index.
    #[inline]
    pub(crate) fn post(&mut self, args: &[Val], view: &View) -> Result<bool, NoMemory>
        ensures ok { IfOk result (λ may. IsTaken S.has_taken (recording_of self.old)
            (record { kind = hooks.Post; args = args.now; view = view.now }) may (recording_of self.new)) }
        ensures err { OnErr result (IsSome (order_after (recording_of self.old)
            (record { kind = hooks.Post; args = args.now; view = view.now }))) }
        ensures frozen { self.new.memory.frozen ≡ self.old.memory.frozen }
    {
        if !self.order.ends(args) {
            return Ok(false);
        }
        report_post(&mut self.sink, self.order.pending())?;
        notice(&mut self.memory, &mut self.sink, view)?;
        self.order.close();
        Ok(true)
    }

    /// Takes the beginning of a call by the table.
    #[inline]
    pub(crate) fn ipre(&mut self, args: &[Val], view: &View) -> Result<bool, NoMemory>
        ensures ok { IfOk result (λ may. IsTaken S.has_taken (recording_of self.old)
            (record { kind = hooks.Ipre; args = args.now; view = view.now }) may (recording_of self.new)) }
        ensures err { OnErr result (IsSome (order_after (recording_of self.old)
            (record { kind = hooks.Ipre; args = args.now; view = view.now }))) }
        ensures frozen { self.new.memory.frozen ≡ self.old.memory.frozen }
    {
        let Some(call) = self
            .order
            .called_by_table(args, self.tables.known_size(), view)
        else {
            return Ok(false);
        };
        find_callee(&mut self.tables, &mut self.sink, call, view)?;
        self.sink.event(Event::Pre {
            callee: call.callee,
        })?;
        self.order.call(false, call.callee)?;
        Ok(true)
    }

    /// Takes the end of a call by the table.
    #[inline]
    pub(crate) fn ipost(&mut self, args: &[Val], view: &View) -> Result<bool, NoMemory>
        ensures ok { IfOk result (λ may. IsTaken S.has_taken (recording_of self.old)
            (record { kind = hooks.Ipost; args = args.now; view = view.now }) may (recording_of self.new)) }
        ensures err { OnErr result (IsSome (order_after (recording_of self.old)
            (record { kind = hooks.Ipost; args = args.now; view = view.now }))) }
        ensures frozen { self.new.memory.frozen ≡ self.old.memory.frozen }
    {
        if !self.order.ends_by_table(args) {
            return Ok(false);
        }
        report_post(&mut self.sink, self.order.pending())?;
        notice(&mut self.memory, &mut self.sink, view)?;
        self.order.close();
        Ok(true)
    }
}

/// The module reads the entry that it calls.
///
/// # Errors
/// `NoMemory` if an allocation failed.
#[tactic(auto, using(crate::proofs::Callees::size_same, crate::proofs::Callees::below_after))]
fn find_callee<S: EventSink>(
    tables: &mut ShadowTables,
    sink: &mut S,
    call: EntryCall,
    view: &View,
) -> Result<(), NoMemory>
    requires { nat_le (length tables.old.entries) (table_length view.now.table) ≡ true }
    ensures reports { OnOk result ((n : ℕ)
        → option_and_then (original n) (entry_of view.now.table call.index) ≡ call.callee
        → ReportsTables S.has_taken n tables.old sink.old
        (on view.now.table (entry_observations call.index)) tables.new sink.new) }
    ensures entries { OnOk result (length tables.new.entries
        ≡ entries_after (length tables.old.entries) (ReachesEntry call.index (table_length view.now.table))) }
    ensures globals { tables.new.globals ≡ tables.old.globals }
{
    let size = view.table_size();
    reach_entry(tables, sink, call.index, size)?;
    if call.index >= u64::from(size) {
        return Ok(());
    }
    let index = call.index as u32;
    let Some(func) = view.entry(index) else {
        unreachable!();
    };
    find_entry(tables, sink, index, func, call.callee)
}
