// Readers of events and outcomes.

ghost use Rattle.wasm_syntax.specs.Encoding.Combinators.{first_then, map_read};
ghost use Rattle.trace_model.specs.declared.events.Event.TheVariants as events;
ghost use Rattle.trace_format.specs.Reading as plain;
ghost use Rattle.trace_format.specs.Reading.{with_pair};
ghost use Rattle.leb_bytes.specs.ReadResults.{Gives};
ghost use Rattle.trace_format.specs.ReadResults.{Finds};

use crate::items::Kind;
use crate::numbers::{first_byte, first_number, first_option};
use crate::parts::{first_call, first_entry, first_global, first_placed};
use leb_bytes::Unread;
use std::alloc::Global;
use trace_bytes::tags::{
    TAG_BYTES, TAG_ENDED, TAG_ENTER, TAG_ENTRY, TAG_GLOBAL, TAG_GROW, TAG_HOST_TRAPPED, TAG_LEAVE,
    TAG_POST, TAG_PRE, TAG_SEEN, TAG_TABLE, TAG_TRAPPED, VERSION_2,
};
use trace_model::{Event, Outcome};
use wasm_syntax::Val;

impl Kind for Event {
    type Item = Event;

    ghost first = { plain.first_event };

    fn first(alloc: Global, version: u8, bytes: &[u8]) -> Result<(Event, &[u8]), Unread> {
        first_event(alloc, version, bytes)
    }
}

/// An event.
#[tactic(auto, unfolding(crate::specs::Reading::first_event))]
pub(crate) fn first_event(
    alloc: Global,
    version: u8,
    bytes: &[u8],
) -> Result<(Event, &[u8]), Unread>
    ensures { Gives (λ read. (read.0, read.1.now)) result (plain.first_event version bytes.now) }
{
    let Some((tag, rest)) = first_byte(bytes) else {
        return Err(Unread::NotThere);
    };
    match tag {
        TAG_ENTER => enter_event(alloc, rest),
        TAG_LEAVE => leave_event(rest),
        TAG_PRE => pre_event(rest),
        TAG_POST => post_event(rest),
        TAG_GROW => grow_event(rest),
        TAG_SEEN => Ok((Event::Seen, rest)),
        TAG_BYTES => bytes_event(alloc, rest),
        TAG_ENTRY => entry_event(rest),
        TAG_GLOBAL => global_event(rest),
        TAG_TABLE if version == VERSION_2 => table_event(rest),
        _ => Err(Unread::NotThere),
    }
}

/// Reads what follows the tag of a function that begins.
fn enter_event(alloc: Global, bytes: &[u8]) -> Result<(Event, &[u8]), Unread>
    ensures { Gives (λ read. (read.0, read.1.now)) result
        (map_read (with_pair events.Enter) (first_then plain.first_number plain.first_args) bytes.now) }
{
    let ((func, args), rest) = first_call(alloc, bytes)?;
    Ok((Event::Enter { func, args }, rest))
}

/// Reads what follows the tag of a function that ends.
fn leave_event(bytes: &[u8]) -> Result<(Event, &[u8]), Unread>
    ensures { Gives (λ read. (read.0, read.1.now)) result (map_read events.Leave plain.first_number bytes.now) }
{
    match first_number(bytes) {
        Some((func, rest)) => Ok((Event::Leave { func }, rest)),
        None => Err(Unread::NotThere),
    }
}

/// Reads what follows the tag of a call that begins.
fn pre_event(bytes: &[u8]) -> Result<(Event, &[u8]), Unread>
    ensures { Gives (λ read. (read.0, read.1.now)) result
        (map_read events.Pre (plain.first_option plain.first_number) bytes.now) }
{
    match first_option::<u32>(bytes) {
        Some((callee, rest)) => Ok((Event::Pre { callee }, rest)),
        None => Err(Unread::NotThere),
    }
}

/// Reads what follows the tag of a call that ends.
fn post_event(bytes: &[u8]) -> Result<(Event, &[u8]), Unread>
    ensures { Gives (λ read. (read.0, read.1.now)) result
        (map_read events.Post (plain.first_option plain.first_val) bytes.now) }
{
    match first_option::<Val>(bytes) {
        Some((value, rest)) => Ok((Event::Post { result: value }, rest)),
        None => Err(Unread::NotThere),
    }
}

/// Reads what follows the tag of a growth of the memory.
fn grow_event(bytes: &[u8]) -> Result<(Event, &[u8]), Unread>
    ensures { Gives (λ read. (read.0, read.1.now)) result (map_read events.Grow plain.first_number bytes.now) }
{
    match first_number(bytes) {
        Some((pages, rest)) => Ok((Event::Grow { pages }, rest)),
        None => Err(Unread::NotThere),
    }
}

/// Reads what follows the tag of a growth of the table.
fn table_event(bytes: &[u8]) -> Result<(Event, &[u8]), Unread>
    ensures { Gives (λ read. (read.0, read.1.now)) result (map_read events.Table plain.first_number bytes.now) }
{
    match first_number(bytes) {
        Some((size, rest)) => Ok((Event::Table { size }, rest)),
        None => Err(Unread::NotThere),
    }
}

/// Reads what follows the tag of bytes.
fn bytes_event(alloc: Global, bytes: &[u8]) -> Result<(Event, &[u8]), Unread>
    ensures { Gives (λ read. (read.0, read.1.now)) result
        (map_read (with_pair events.Bytes) (first_then plain.first_number plain.first_bytes) bytes.now) }
{
    let ((addr, content), rest) = first_placed(alloc, bytes)?;
    Ok((
        Event::Bytes {
            addr,
            bytes: content,
        },
        rest,
    ))
}

/// Reads what follows the tag of a table entry.
fn entry_event(bytes: &[u8]) -> Result<(Event, &[u8]), Unread>
    ensures { Gives (λ read. (read.0, read.1.now)) result
        (map_read (with_pair events.Entry)
        (first_then plain.first_number (plain.first_option plain.first_number)) bytes.now) }
{
    match first_entry(bytes) {
        Some(((index, func), rest)) => Ok((Event::Entry { index, func }, rest)),
        None => Err(Unread::NotThere),
    }
}

/// Reads what follows the tag of a global.
fn global_event(bytes: &[u8]) -> Result<(Event, &[u8]), Unread>
    ensures { Gives (λ read. (read.0, read.1.now)) result
        (map_read (with_pair events.Global) (first_then plain.first_number plain.first_val) bytes.now) }
{
    match first_global(bytes) {
        Some(((global, value), rest)) => Ok((Event::Global { global, value }, rest)),
        None => Err(Unread::NotThere),
    }
}

/// The outcome of a run.
#[tactic(auto, unfolding(crate::specs::Reading::first_outcome))]
pub(crate) fn first_outcome(bytes: &[u8]) -> Option<(Outcome, &[u8])>
    ensures { Finds (λ read. (read.0, read.1.now)) result (plain.first_outcome bytes.now) }
{
    let (tag, rest) = first_byte(bytes)?;
    match tag {
        TAG_ENDED => Some((Outcome::Ended, rest)),
        TAG_TRAPPED => Some((Outcome::Trapped, rest)),
        TAG_HOST_TRAPPED => Some((Outcome::HostTrapped, rest)),
        _ => None,
    }
}
