// How the module reads its table and its globals, and writes globals.

ghost use Rattle.std.specs.Prelude.{◌≡◌, ℕ, ◌≤◌, ◌<◌, ◌∷◌, [], Some, OnOk, length, map, nat_eq, option_map, option_and_then, slice_get};
ghost use Rattle.record_replay_spec.specs.Hooks.{original};
ghost use Rattle.record_replay_spec.specs.Observations.{ReachesEntry, ReadsEntry, ReadsGlobal};
ghost use Rattle.record_replay_spec.specs.Known.{entries_after};
ghost use Rattle.record_replay_spec.specs.Logs.{unless};
ghost use Rattle.trace_model.specs.Sink.{TookAlso};
ghost use Rattle.trace_model.specs.declared.events.Event.TheVariants.{Table as FoundTable};
ghost use Rattle.recorder.specs.Known.{ReportsTables};

use base::NoMemory;
use shadow_tables::ShadowTables;
use trace_model::{Event, EventSink};
use wasm_syntax::Val;

/// Passes the event of the table's size to the sink, if it is not the known size.
fn report_size<S: EventSink>(sink: &mut S, known: u32, found: u32) -> Result<(), NoMemory>
    ensures { OnOk result (TookAlso S.has_taken sink.old sink.new (unless (nat_eq found known) (FoundTable found))) }
{
    if found != known {
        sink.event(Event::Table { size: found })?;
    }
    Ok(())
}

/// An access reaches an entry, in a table of `found` entries, which are at least the known ones.
///
/// # Errors
/// `NoMemory` if an allocation failed.
#[tactic(auto, using(crate::proofs::Entries::reaches_known, crate::proofs::Entries::reaches_past))]
#[inline]
pub(crate) fn reach_entry<S: EventSink>(
    tables: &mut ShadowTables,
    sink: &mut S,
    index: u64,
    found: u32,
) -> Result<(), NoMemory>
    requires { length tables.old.entries ≤ found }
    ensures reports { OnOk result ((n : ℕ) → ReportsTables S.has_taken n tables.old sink.old
        (ReachesEntry index found ∷ []) tables.new sink.new) }
    ensures entries { OnOk result (length tables.new.entries
        ≡ entries_after (length tables.old.entries) (ReachesEntry index found)) }
    ensures globals { tables.new.globals ≡ tables.old.globals }
{
    let known = tables.known_size();
    if index < u64::from(known) {
        return Ok(());
    }
    report_size(sink, known, found)?;
    tables.set_known_size(found)
}

/// An entry within the table is read, which holds a function or is empty; `callee` is the index of that function
/// in the original, if it has one.
///
/// # Errors
/// `NoMemory` if an allocation failed.
#[tactic(auto, using(crate::proofs::Entries::finds_entry))]
#[inline]
pub(crate) fn find_entry<S: EventSink>(
    tables: &mut ShadowTables,
    sink: &mut S,
    index: u32,
    func: Option<u32>,
    callee: Option<u32>,
) -> Result<(), NoMemory>
    requires { index < length tables.old.entries }
    ensures reports { OnOk result ((n : ℕ) → option_and_then (original n) func ≡ callee
        → ReportsTables S.has_taken n tables.old sink.old (ReadsEntry index func ∷ []) tables.new sink.new) }
    ensures entries { OnOk result (length tables.new.entries ≡ length tables.old.entries) }
    ensures globals { tables.new.globals ≡ tables.old.globals }
{
    if tables.entry_differs(index, func) {
        sink.event(Event::Entry {
            index,
            func: callee,
        })?;
        tables.take_entry(index, func);
    }
    Ok(())
}

/// A global is read, for which a value of the same type is known.
///
/// # Errors
/// `NoMemory` if an allocation failed.
#[tactic(auto, using(crate::proofs::Entries::finds_global, crate::proofs::Entries::knows_global, crate::proofs::Entries::is_below))]
#[inline]
pub(crate) fn find_global<S: EventSink>(
    tables: &mut ShadowTables,
    sink: &mut S,
    global: u32,
    value: Val,
) -> Result<(), NoMemory>
    requires { option_map (λ known. known.ty) (slice_get tables.old.globals global) ≡ Some value.ty }
    ensures reports { OnOk result ((n : ℕ) → ReportsTables S.has_taken n tables.old sink.old
        (ReadsGlobal global value ∷ []) tables.new sink.new) }
    ensures entries { tables.new.entries ≡ tables.old.entries }
    ensures globals { map (λ known. known.ty) tables.new.globals ≡ map (λ known. known.ty) tables.old.globals }
{
    if tables.global_differs(global, value) {
        sink.event(Event::Global { global, value })?;
        tables.take_global(global, value);
    }
    Ok(())
}
