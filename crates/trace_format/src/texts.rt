// The lines of logs and tapes.

ghost use Rattle.std.specs.Prelude.{◌≡◌, ◌++◌, OnOk, IfOk, flat_map};
ghost use Rattle.history_spec.specs.Line.{hex_digits, line, number_text, values_text, with_space};
ghost use Rattle.trace_format.specs.Text.{bytes_text, effect_text, entry_text, event_text, func_text, global_text, hex_text, log_text, next_text, origin_text, result_text, segment_text, tape_text};

use crate::headers::Digest;
use crate::items::HasLines;
use base::NoMemory;
use history_lines::{print_outcome, put, put_number, put_value, put_values};
use std::alloc::Global;
use trace_model::{Effect, Event, Log, Next, Origin, Segment, Tape};
use wasm_syntax::Val;

/// The digits of hexadecimal numbers.
const DIGITS: [u8; 16] = *b"0123456789abcdef";

/// The lines of a log.
///
/// # Errors
/// `NoMemory` if an allocation failed.
#[tactic(auto, unfolding(crate::specs::Text::log_text))]
pub fn show_log(alloc: Global, digest: &Digest, log: &Log) -> Result<Vec<u8>, NoMemory>
    ensures { IfOk result (λ text. text.items ≡ log_text digest.now log.now) }
{
    let mut out = header_line(alloc, b"log", digest)?;
    put_events(&mut out, log.events.as_slice())?;
    print_outcome(&mut out, log.outcome)?;
    Ok(out)
}

/// The lines of a tape.
///
/// # Errors
/// `NoMemory` if an allocation failed.
#[tactic(auto, unfolding(crate::specs::Text::tape_text))]
pub fn show_tape(alloc: Global, digest: &Digest, tape: &Tape) -> Result<Vec<u8>, NoMemory>
    ensures { IfOk result (λ text. text.items ≡ tape_text digest.now tape.now) }
{
    let mut out = header_line(alloc, b"tape", digest)?;
    put_segments(&mut out, tape.segments.as_slice())?;
    put(&mut out, b"close\n")?;
    Ok(out)
}

impl HasLines for Event {
    ghost lines = { λ event. line (event_text event) };

    fn put_lines(out: &mut Vec<u8>, item: &Event) -> Result<(), NoMemory> {
        put_event_line(out, item)
    }
}

impl HasLines for Segment {
    ghost lines = { segment_text };

    fn put_lines(out: &mut Vec<u8>, item: &Segment) -> Result<(), NoMemory> {
        put_segment(out, item)
    }
}

/// Appends the lines of events.
fn put_events(out: &mut Vec<u8>, events: &[Event]) -> Result<(), NoMemory>
    ensures { OnOk result (out.new.items
        ≡ out.old.items ++ flat_map (λ event. line (event_text event)) events.now) }
{
    'events: for event in events {
        put_event_line(out, event)?;
    }
    Ok(())
}

/// Appends the lines of segments.
fn put_segments(out: &mut Vec<u8>, segments: &[Segment]) -> Result<(), NoMemory>
    ensures { OnOk result (out.new.items ≡ out.old.items ++ flat_map segment_text segments.now) }
{
    'segments: for segment in segments {
        put_segment(out, segment)?;
    }
    Ok(())
}

/// Appends the lines of effects.
fn put_effects(out: &mut Vec<u8>, effects: &[Effect]) -> Result<(), NoMemory>
    ensures { OnOk result (out.new.items
        ≡ out.old.items ++ flat_map (λ effect. line (effect_text effect)) effects.now) }
{
    'effects: for effect in effects {
        put_effect(out, effect)?;
        put(out, b"\n")?;
    }
    Ok(())
}

/// The first line of a file's text: a word and the digest.
pub(crate) fn header_line(alloc: Global, word: &[u8], digest: &Digest) -> Result<Vec<u8>, NoMemory>
    ensures { IfOk result (λ text. text.items ≡ line (word.now ++ with_space (hex_text digest.now))) }
{
    let mut out = Vec::new(alloc);
    put(&mut out, word)?;
    put_hex(&mut out, digest.as_bytes())?;
    put(&mut out, b"\n")?;
    Ok(out)
}

/// Appends bytes in hexadecimal, after a space.
fn put_hex(out: &mut Vec<u8>, bytes: &[u8]) -> Result<(), NoMemory>
    ensures { OnOk result (out.new.items ≡ out.old.items ++ with_space (hex_text bytes.now)) }
{
    put(out, b" ")?;
    put_digits(out, bytes)
}

/// Appends the digits of bytes, two for each.
fn put_digits(out: &mut Vec<u8>, bytes: &[u8]) -> Result<(), NoMemory>
    ensures { OnOk result (out.new.items ≡ out.old.items ++ hex_text bytes.now) }
{
    'bytes: for byte in bytes {
        put(out, &digits(*byte))?;
    }
    Ok(())
}

/// The digits of a byte.
fn digits(byte: u8) -> [u8; 2]
    ensures { result ≡ hex_digits 2 byte }
{
    [
        DIGITS[(byte / 16 % 16) as usize],
        DIGITS[(byte % 16) as usize],
    ]
}

/// Appends a word and a function, or `none`.
fn put_func(out: &mut Vec<u8>, word: &[u8], func: Option<u32>) -> Result<(), NoMemory>
    ensures { OnOk result (out.new.items ≡ out.old.items ++ (word.now ++ func_text func)) }
{
    put(out, word)?;
    match func {
        None => put(out, b" none"),
        Some(number) => put_number(out, number),
    }
}

/// Appends a word, and a value if there is one.
fn put_result(out: &mut Vec<u8>, word: &[u8], value: Option<Val>) -> Result<(), NoMemory>
    ensures { OnOk result (out.new.items ≡ out.old.items ++ (word.now ++ result_text value)) }
{
    put(out, word)?;
    match value {
        None => Ok(()),
        Some(value) => put_value(out, value),
    }
}

/// Appends a word and a number.
fn put_numbered(out: &mut Vec<u8>, word: &[u8], number: u32) -> Result<(), NoMemory>
    ensures { OnOk result (out.new.items
        ≡ out.old.items ++ (word.now ++ number_text number)) }
{
    put(out, word)?;
    put_number(out, number)
}

/// Appends a word, a function and values.
fn put_call(out: &mut Vec<u8>, word: &[u8], func: u32, args: &[Val]) -> Result<(), NoMemory>
    ensures { OnOk result (out.new.items ≡ out.old.items
        ++ (word.now ++ (number_text func
        ++ values_text args.now))) }
{
    put_numbered(out, word, func)?;
    put_values(out, args)
}

/// Appends bytes with their address.
fn put_bytes(out: &mut Vec<u8>, addr: u32, bytes: &[u8]) -> Result<(), NoMemory>
    ensures { OnOk result (out.new.items ≡ out.old.items ++ bytes_text addr bytes.now) }
{
    put_numbered(out, b"bytes", addr)?;
    put_hex(out, bytes)
}

/// Appends a table entry.
fn put_entry(out: &mut Vec<u8>, index: u32, func: Option<u32>) -> Result<(), NoMemory>
    ensures { OnOk result (out.new.items ≡ out.old.items ++ entry_text index func) }
{
    put_numbered(out, b"entry", index)?;
    put_func(out, b"", func)
}

/// Appends a global with its value.
fn put_global(out: &mut Vec<u8>, global: u32, value: Val) -> Result<(), NoMemory>
    ensures { OnOk result (out.new.items ≡ out.old.items ++ global_text global value) }
{
    put_numbered(out, b"global", global)?;
    put_value(out, value)
}

/// Appends the line of an event.
fn put_event_line(out: &mut Vec<u8>, event: &Event) -> Result<(), NoMemory>
    ensures { OnOk result (out.new.items ≡ out.old.items ++ line (event_text event.now)) }
{
    put_event(out, event)?;
    put(out, b"\n")
}

/// Appends the text of an event.
fn put_event(out: &mut Vec<u8>, event: &Event) -> Result<(), NoMemory>
    ensures { OnOk result (out.new.items ≡ out.old.items ++ event_text event.now) }
{
    match event {
        Event::Enter { func, args } => put_call(out, b"enter", *func, args.as_slice()),
        Event::Leave { func } => put_numbered(out, b"leave", *func),
        Event::Pre { callee } => put_func(out, b"pre", *callee),
        Event::Post { result } => put_result(out, b"post", *result),
        Event::Grow { pages } => put_numbered(out, b"grow", *pages),
        Event::Seen => put(out, b"seen"),
        Event::Table { size } => put_numbered(out, b"table", *size),
        Event::Bytes { addr, bytes } => put_bytes(out, *addr, bytes.as_slice()),
        Event::Entry { index, func } => put_entry(out, *index, *func),
        Event::Global { global, value } => put_global(out, *global, *value),
    }
}

/// Appends the text of an effect.
fn put_effect(out: &mut Vec<u8>, effect: &Effect) -> Result<(), NoMemory>
    ensures { OnOk result (out.new.items ≡ out.old.items ++ effect_text effect.now) }
{
    match effect {
        Effect::Grow { pages } => put_numbered(out, b"grow", *pages),
        Effect::Table { size } => put_numbered(out, b"table", *size),
        Effect::Bytes { addr, bytes } => put_bytes(out, *addr, bytes.as_slice()),
        Effect::Entry { index, func } => put_entry(out, *index, *func),
        Effect::Global { global, value } => put_global(out, *global, *value),
    }
}

/// Appends the text of how control reaches the host.
fn put_origin(out: &mut Vec<u8>, origin: Origin) -> Result<(), NoMemory>
    ensures { OnOk result (out.new.items ≡ out.old.items ++ origin_text origin) }
{
    match origin {
        Origin::Begin => put(out, b"segment begin"),
        Origin::Import(import) => put_numbered(out, b"segment import", import),
        Origin::Back => put(out, b"segment back"),
    }
}

/// Appends the text of how control leaves the host.
fn put_next(out: &mut Vec<u8>, next: &Next) -> Result<(), NoMemory>
    ensures { OnOk result (out.new.items ≡ out.old.items ++ next_text next.now) }
{
    match next {
        Next::Call { func, args } => put_call(out, b"call", *func, args.as_slice()),
        Next::Return { result } => put_result(out, b"return", *result),
        Next::End => put(out, b"end"),
        Next::Trap => put(out, b"trap"),
    }
}

/// Appends the lines of a segment.
fn put_segment(out: &mut Vec<u8>, segment: &Segment) -> Result<(), NoMemory>
    ensures { OnOk result (out.new.items ≡ out.old.items ++ segment_text segment.now) }
{
    put_origin(out, segment.origin)?;
    put(out, b"\n")?;
    put_effects(out, segment.effects.as_slice())?;
    put_next(out, &segment.next)?;
    put(out, b"\n")
}
