// Bytes that the module finds, and bytes that it writes.

ghost use Rattle.std.specs.Prelude.{◌≡◌, ◌+◌, ◌≤◌, ◌∷◌, [], length, replicate, IfOk, OnOk, IfNone, IfSome, IsTrue};
ghost use Rattle.history_spec.specs.Store.{bytes_of};
ghost use Rattle.record_replay_spec.specs.Order.{is_width};
ghost use Rattle.record_replay_spec.specs.Observations.{Reads};
ghost use Rattle.shadow_memory.specs.Shadow.{HasTaken};
ghost use Rattle.trace_model.specs.Sink.{TookAlso};
ghost use Rattle.trace_model.specs.declared.events.Event.TheVariants.{Bytes as FoundBytes};
ghost use Rattle.recorder.specs.Bytes.{FindsNothing, FindsRun};
ghost use Rattle.recorder.specs.Known.{ReportsMemory};

use base::NoMemory;
use shadow_memory::{Difference, ShadowMemory};
use std::alloc::Global;
use trace_model::{Event, EventSink};
use wasm_syntax::Bytes;

/// Passes the event of bytes found from an address on to the sink.
#[cold]
fn report_bytes<S: EventSink>(
    alloc: Global,
    sink: &mut S,
    addr: u32,
    bytes: &[u8],
) -> Result<(), NoMemory>
    ensures { OnOk result (TookAlso S.has_taken sink.old sink.new (FoundBytes addr bytes.now ∷ [])) }
{
    let copy = Vec::from_slice(alloc, bytes)?;
    sink.event(Event::Bytes {
        addr,
        bytes: Bytes::from_vec(copy),
    })
}

/// Finds the first run of bytes that are not the known ones, passes its event to the sink, and takes the bytes
/// up to its end. Returns the run; `None` if all bytes are known.
///
/// # Errors
/// `NoMemory` if an allocation failed.
#[inline]
fn find_run<S: EventSink>(
    alloc: Global,
    memory: &mut ShadowMemory,
    sink: &mut S,
    addr: u64,
    bytes: &[u8],
) -> Result<Option<Difference>, NoMemory>
    requires { addr + length bytes.now ≤ u32.MAX }
    ensures run { IfOk result (λ found. IfSome found (λ run.
        FindsRun S.has_taken memory.old sink.old addr bytes.now run memory.new sink.new)) }
    ensures none { IfOk result (λ found. IfNone found
        (FindsNothing S.has_taken memory.old sink.old addr bytes.now memory.new sink.new)) }
    ensures frozen { memory.new.frozen ≡ memory.old.frozen }
{
    let Some(run) = memory.take_difference(addr, bytes)? else {
        return Ok(None);
    };
    let at = addr + run.start as u64;
    report_bytes(alloc, sink, at as u32, &bytes[run.start..run.end])?;
    Ok(Some(run))
}

/// Passes the events of the longest runs of bytes that are not the known ones to the sink, by ascending
/// addresses, and takes these bytes.
///
/// # Errors
/// `NoMemory` if an allocation failed.
#[inline(always)]
pub(crate) fn find_bytes<S: EventSink>(
    alloc: Global,
    memory: &mut ShadowMemory,
    sink: &mut S,
    addr: u64,
    bytes: &[u8],
) -> Result<(), NoMemory>
    requires { addr + length bytes.now ≤ u32.MAX }
    ensures reports { OnOk result
        (ReportsMemory S.has_taken memory.old sink.old (Reads addr bytes.now ∷ []) memory.new sink.new) }
    ensures frozen { memory.new.frozen ≡ memory.old.frozen }
{
    if memory.knows(addr, bytes) {
        return Ok(());
    }
    find_runs(alloc, memory, sink, addr, bytes)
}

/// Does what `find_bytes` does, by looking for each run.
///
/// # Errors
/// `NoMemory` if an allocation failed.
#[cold]
#[inline(never)]
fn find_runs<S: EventSink>(
    alloc: Global,
    memory: &mut ShadowMemory,
    sink: &mut S,
    addr: u64,
    bytes: &[u8],
) -> Result<(), NoMemory>
    requires { addr + length bytes.now ≤ u32.MAX }
    ensures reports { OnOk result
        (ReportsMemory S.has_taken memory.old sink.old (Reads addr bytes.now ∷ []) memory.new sink.new) }
    ensures frozen { memory.new.frozen ≡ memory.old.frozen }
{
    let mut done = 0;
    'runs: while done < bytes.len() {
        match find_run(alloc, memory, sink, addr + done as u64, &bytes[done..])? {
            Some(run) => done += run.end,
            None => return Ok(()),
        }
    }
    Ok(())
}

/// Takes the lowest bytes of a number.
///
/// # Errors
/// `NoMemory` if an allocation failed.
#[tactic(auto, using(crate::proofs::Sizes::frozen_stays))]
#[inline]
pub(crate) fn take_number(
    memory: &mut ShadowMemory,
    addr: u64,
    width: u64,
    bits: u64,
) -> Result<(), NoMemory>
    requires width { IsTrue (is_width width) }
    requires end { addr + width ≤ u32.MAX }
    ensures taken { OnOk result (HasTaken memory.old addr (bytes_of width bits) memory.new) }
    ensures frozen { memory.new.frozen ≡ memory.old.frozen }
{
    let [a, b, c, d, e, f, g, h] = bits.to_le_bytes();
    match width {
        1 => memory.take_run(addr, &[a]),
        2 => memory.take_run(addr, &[a, b]),
        4 => memory.take_run(addr, &[a, b, c, d]),
        _ => memory.take_run(addr, &[a, b, c, d, e, f, g, h]),
    }
}

/// Takes a byte at each address of a range.
///
/// # Errors
/// `NoMemory` if an allocation failed.
#[tactic(auto, using(crate::proofs::FoundBytes::taken_none))]
pub(crate) fn take_same(
    memory: &mut ShadowMemory,
    addr: u64,
    count: usize,
    byte: u8,
) -> Result<(), NoMemory>
    requires { addr + count ≤ u32.MAX }
    ensures taken { OnOk result (HasTaken memory.old addr (replicate count byte) memory.new) }
    ensures frozen { memory.new.frozen ≡ memory.old.frozen }
{
    let part = [byte; 256];
    let mut done = 0;
    'parts: while done < count {
        let more = (count - done).min(256);
        memory.take_run(addr + done as u64, &part[..more])?;
        done += more;
    }
    Ok(())
}
