// How the module reads and writes its memory.

ghost use Rattle.std.specs.Prelude.{◌≡◌, ℕ, ◌+◌, ◌%◌, ◌^◌, ◌≤◌, ◌∷◌, [], Some, None, IsTrue, OnOk, MatchOption, length, nat_eq, replicate};
ghost use Rattle.trace_model.specs.Sink.{TookAlso};
ghost use Rattle.trace_model.specs.declared.events.Event.TheVariants.{Grow as Grew, Seen};
ghost use Rattle.history_spec.specs.Store.{Memory, bytes_at, bytes_of, pages, with_bytes_at};
ghost use Rattle.wasm_store.specs.Calls.{pages_in};
ghost use Rattle.record_replay_spec.specs.Observations as observed;
ghost use Rattle.record_replay_spec.specs.Observations.{Copies, Reaches, Resizes, Writes, copy_observations, load_observations, store_observations};
ghost use Rattle.record_replay_spec.specs.Hooks.{on};
ghost use Rattle.record_replay_spec.specs.Logs.{unless};
ghost use Rattle.record_replay_spec.specs.Order.{is_width};
ghost use Rattle.recorder.specs.Known.{ReportsMemory};

use crate::bytes::{find_bytes, take_number, take_same};
use base::NoMemory;
use hook_names::View;
use hook_order::Access;
use shadow_memory::ShadowMemory;
use std::alloc::Global;
use trace_model::{Event, EventSink};
use wasm_syntax::limits::PAGE_SIZE;

/// The module reads the memory's size.
///
/// # Errors
/// `NoMemory` if an allocation failed.
fn see<S: EventSink>(memory: &mut ShadowMemory, sink: &mut S, found: u32) -> Result<(), NoMemory>
    ensures known { OnOk result (memory.new ≡ record memory.old { known = found; noticed = found }) }
    ensures reported { OnOk result (TookAlso S.has_taken sink.old sink.new
        (unless (nat_eq memory.old.known memory.old.noticed) Seen)) }
    ensures frozen { memory.new.frozen ≡ memory.old.frozen }
{
    if memory.known_pages() != memory.noticed_pages() {
        sink.event(Event::Seen)?;
    }
    memory.set_known(found);
    memory.set_noticed(found);
    Ok(())
}

/// An access ends at an address, in a memory of this number of pages.
///
/// # Errors
/// `NoMemory` if an allocation failed.
#[inline]
fn reach<S: EventSink>(
    memory: &mut ShadowMemory,
    sink: &mut S,
    end: u128,
    found: u32,
) -> Result<(), NoMemory>
    ensures reports { OnOk result
        (ReportsMemory S.has_taken memory.old sink.old (Reaches «end» found ∷ []) memory.new sink.new) }
    ensures frozen { memory.new.frozen ≡ memory.old.frozen }
{
    if end > u128::from(memory.known_pages()) * u128::from(PAGE_SIZE) {
        see(memory, sink, found)?;
    }
    Ok(())
}

/// Notices the memory's size, and passes its event to the sink if it is not the size noticed last.
///
/// # Errors
/// `NoMemory` if an allocation failed.
#[inline]
pub(crate) fn notice<S: EventSink>(
    memory: &mut ShadowMemory,
    sink: &mut S,
    view: &View,
) -> Result<(), NoMemory>
    ensures noticed { OnOk result (memory.new ≡ record memory.old { noticed = pages_in view.now }) }
    ensures reported { OnOk result (TookAlso S.has_taken sink.old sink.new
        (unless (nat_eq (pages_in view.now) memory.old.noticed) (Grew (pages_in view.now)))) }
    ensures frozen { memory.new.frozen ≡ memory.old.frozen }
{
    let pages = view.pages();
    if pages != memory.noticed_pages() {
        sink.event(Event::Grow { pages })?;
    }
    memory.set_noticed(pages);
    Ok(())
}

/// The bytes from an address on, in this number; `None` if they are not all in the memory.
#[inline]
fn range(bytes: &[u8], start: u128, count: u64) -> Option<&[u8]>
    requires { start ≤ 2 ^ 65 }
    ensures { MatchOption result (bytes_at bytes.now start count ≡ None)
        (λ part. (bytes_at bytes.now start count ≡ Some part.now) × (length part.now ≡ count)
        × (start + count ≤ length bytes.now)) }
{
    let end = start + u128::from(count);
    if end <= bytes.len() as u128 {
        Some(&bytes[start as usize..end as usize])
    } else {
        None
    }
}

/// The address of an access, which may be past what 64 bits count.
#[inline]
fn address_of(access: Access) -> u128
    ensures { result ≡ access.base + access.offset }
{
    u128::from(access.base) + u128::from(access.offset)
}

/// The address after the last of `count` bytes.
#[inline]
fn end_of(start: u64, count: u64) -> u128
    ensures { result ≡ start + count }
{
    u128::from(start) + u128::from(count)
}

/// Takes a load.
///
/// # Errors
/// `NoMemory` if an allocation failed.
#[tactic(auto, using(crate::proofs::Within::reports_nowhere))]
#[inline]
pub(crate) fn load<S: EventSink>(
    alloc: Global,
    memory: &mut ShadowMemory,
    sink: &mut S,
    access: Access,
    view: &View,
) -> Result<(), NoMemory>
    requires { IsTrue (is_width access.width) }
    ensures reports { OnOk result (ReportsMemory S.has_taken memory.old sink.old
        (on view.now.memory (load_observations (access.base + access.offset) access.width)) memory.new sink.new) }
    ensures frozen { memory.new.frozen ≡ memory.old.frozen }
{
    if !view.has_memory() {
        return Ok(());
    }
    let start = address_of(access);
    let end = start + u128::from(access.width);
    reach(memory, sink, end, view.pages())?;
    let Some(bytes) = range(view.bytes(), start, access.width) else {
        return Ok(());
    };
    find_bytes(alloc, memory, sink, start as u64, bytes)
}

/// Takes a store.
///
/// # Errors
/// `NoMemory` if an allocation failed.
#[tactic(auto, using(crate::proofs::Within::reports_nowhere))]
#[inline]
pub(crate) fn store<S: EventSink>(
    memory: &mut ShadowMemory,
    sink: &mut S,
    access: Access,
    bits: u64,
    view: &View,
) -> Result<(), NoMemory>
    requires { IsTrue (is_width access.width) }
    ensures reports { OnOk result (ReportsMemory S.has_taken memory.old sink.old
        (on view.now.memory
        (store_observations (access.base + access.offset) access.width (bytes_of access.width bits)))
        memory.new sink.new) }
    ensures frozen { memory.new.frozen ≡ memory.old.frozen }
{
    if !view.has_memory() {
        return Ok(());
    }
    let start = address_of(access);
    reach(memory, sink, start + u128::from(access.width), view.pages())?;
    let Some(_there) = range(view.bytes(), start, access.width) else {
        return Ok(());
    };
    take_number(memory, start as u64, access.width, bits)
}

/// Takes a read of the memory's size, or a growth, for which the size found makes no difference.
///
/// # Errors
/// `NoMemory` if an allocation failed.
pub(crate) fn resize<S: EventSink>(
    memory: &mut ShadowMemory,
    sink: &mut S,
    view: &View,
) -> Result<(), NoMemory>
    ensures reports { OnOk result ((found : Memory → ℕ) → ReportsMemory S.has_taken memory.old sink.old
        (on view.now.memory (λ there. Resizes (found there) (pages there) ∷ [])) memory.new sink.new) }
    ensures frozen { memory.new.frozen ≡ memory.old.frozen }
{
    if !view.has_memory() {
        return Ok(());
    }
    see(memory, sink, view.pages())
}

/// Takes a copy, by its target, source and count.
///
/// # Errors
/// `NoMemory` if an allocation failed.
#[tactic(auto, using(crate::proofs::Within::reports_nowhere))]
pub(crate) fn copy<S: EventSink>(
    alloc: Global,
    memory: &mut ShadowMemory,
    sink: &mut S,
    reported: (u64, u64, u64),
    view: &View,
) -> Result<(), NoMemory>
    ensures reports { OnOk result (ReportsMemory S.has_taken memory.old sink.old
        (on view.now.memory (copy_observations reported.0 reported.1 reported.2)) memory.new sink.new) }
    ensures frozen { memory.new.frozen ≡ memory.old.frozen }
{
    if !view.has_memory() {
        return Ok(());
    }
    let (to, from, count) = reported;
    reach(memory, sink, end_of(from, count), view.pages())?;
    reach(memory, sink, end_of(to, count), view.pages())?;
    copy_bytes(alloc, memory, sink, reported, view.bytes())
}

/// Takes what a copy reads and writes, if both ranges are within these bytes.
///
/// # Errors
/// `NoMemory` if an allocation failed.
#[tactic(auto, using(crate::proofs::Sizes::frozen_stays, crate::proofs::Within::copies_nothing, crate::proofs::Within::copies_nowhere))]
fn copy_bytes<S: EventSink>(
    alloc: Global,
    memory: &mut ShadowMemory,
    sink: &mut S,
    reported: (u64, u64, u64),
    bytes: &[u8],
) -> Result<(), NoMemory>
    requires { length bytes.now ≤ u32.MAX }
    ensures reports { OnOk result (ReportsMemory S.has_taken memory.old sink.old
        (observed.on (bytes_at bytes.now reported.1 reported.2) (λ part.
        observed.on (with_bytes_at bytes.now reported.0 part)
        (λ all. Copies reported.1 part ∷ Writes reported.0 part ∷ [])))
        memory.new sink.new) }
    ensures frozen { memory.new.frozen ≡ memory.old.frozen }
{
    let (to, from, count) = reported;
    let Some(part) = range(bytes, u128::from(from), count) else {
        return Ok(());
    };
    let Some(_there) = range(bytes, u128::from(to), count) else {
        return Ok(());
    };
    find_bytes(alloc, memory, sink, from, part)?;
    memory.take_run(to, part)
}

/// Takes a fill, by its target, value and count.
///
/// # Errors
/// `NoMemory` if an allocation failed.
#[tactic(auto, using(crate::proofs::Within::reports_nowhere))]
pub(crate) fn fill<S: EventSink>(
    memory: &mut ShadowMemory,
    sink: &mut S,
    reported: (u64, u64, u64),
    view: &View,
) -> Result<(), NoMemory>
    ensures reports { OnOk result (ReportsMemory S.has_taken memory.old sink.old
        (on view.now.memory (store_observations reported.0 reported.2 (replicate reported.2 (reported.1 % 256))))
        memory.new sink.new) }
    ensures frozen { memory.new.frozen ≡ memory.old.frozen }
{
    if !view.has_memory() {
        return Ok(());
    }
    let (to, value, count) = reported;
    reach(memory, sink, end_of(to, count), view.pages())?;
    let Some(_there) = range(view.bytes(), u128::from(to), count) else {
        return Ok(());
    };
    take_same(memory, to, count as usize, (value % 256) as u8)
}
