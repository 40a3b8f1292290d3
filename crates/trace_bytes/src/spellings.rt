// Writing logs and tapes.

ghost use Rattle.std.specs.Prelude.{◌≡◌, ◌++◌, ◌∷◌, OnOk, IfOk, IfSome};
ghost use Rattle.leb_bytes.specs.Unsigned.{u32_bytes};
ghost use Rattle.trace_bytes.specs.declared.tags.TheConstants.{VERSION_2};
ghost use Rattle.trace_bytes.specs.Spelled.{FitBytes, FitEvents, FitSegments, FitVals, FitsEffect, FitsEvent, FitsNext, FitsSegment, FitsVal, SpellsLog, SpellsTape};
ghost use Rattle.trace_bytes.specs.Spelling.{bytes_bytes, call_bytes, effect_bytes, entry_bytes, event_bytes, global_bytes, next_bytes, option_bytes, origin_bytes, outcome_byte, segment_bytes, val_bytes};

use crate::items::{Spelling, write_counted, write_items};
use crate::tags::{
    DIGEST_BYTES, LOG_MAGIC, OPTION_NONE, OPTION_SOME, TAG_BACK, TAG_BEGIN, TAG_BYTES, TAG_CALL,
    TAG_CLOSE, TAG_END, TAG_ENDED, TAG_ENTER, TAG_ENTRY, TAG_GLOBAL, TAG_GROW, TAG_HOST_TRAPPED,
    TAG_IMPORT, TAG_LEAVE, TAG_POST, TAG_PRE, TAG_RETURN, TAG_SEEN, TAG_TABLE, TAG_TRAP,
    TAG_TRAPPED, TAPE_MAGIC, VERSION_2,
};
use base::NoMemory;
use leb_bytes::push_u32;
use std::alloc::Global;
use trace_model::{Effect, Event, Log, Next, Origin, Outcome, Segment, Tape};
use wasm_syntax::{Val, ValType, Vals};

/// Values.
pub(crate) struct Values;

/// The events of a log.
pub(crate) struct EventItems;

/// The effects of a segment.
pub(crate) struct EffectItems;

/// The segments of a tape.
pub(crate) struct SegmentItems;

impl Spelling for Values {
    type Item = Val;

    ghost bytes = { val_bytes };

    ghost fits = { FitsVal };

    fn write(item: &Val, out: &mut Vec<u8>) -> Result<(), NoMemory> {
        write_val(*item, out)
    }
}

impl Spelling for EventItems {
    type Item = Event;

    ghost bytes = { event_bytes };

    ghost fits = { FitsEvent VERSION_2 };

    fn write(item: &Event, out: &mut Vec<u8>) -> Result<(), NoMemory> {
        write_event(item, out)
    }
}

impl Spelling for EffectItems {
    type Item = Effect;

    ghost bytes = { effect_bytes };

    ghost fits = { FitsEffect VERSION_2 };

    fn write(item: &Effect, out: &mut Vec<u8>) -> Result<(), NoMemory> {
        write_effect(item, out)
    }
}

impl Spelling for SegmentItems {
    type Item = Segment;

    ghost bytes = { segment_bytes };

    ghost fits = { FitsSegment VERSION_2 };

    fn write(item: &Segment, out: &mut Vec<u8>) -> Result<(), NoMemory> {
        write_segment(item, out)
    }
}

/// The file of a log, in the second version.
///
/// # Errors
/// `NoMemory` if an allocation failed.
#[tactic(auto, unfolding(crate::specs::Spelling::log_bytes))]
pub fn write_log(alloc: Global, digest: &[u8; DIGEST_BYTES], log: &Log) -> Result<Vec<u8>, NoMemory>
    requires { FitEvents VERSION_2 log.now.events }
    ensures { IfOk result (λ file. SpellsLog VERSION_2 file.items digest.now log.now) }
{
    let mut out = Vec::new(alloc);
    out.extend_from_slice(&LOG_MAGIC)?;
    out.push(VERSION_2)?;
    out.extend_from_slice(digest)?;
    push_u32(&mut out, log.imports)?;
    write_items::<EventItems>(log.events.as_slice(), &mut out)?;
    out.push(outcome_byte(log.outcome))?;
    Ok(out)
}

/// The file of a tape, in the second version.
///
/// # Errors
/// `NoMemory` if an allocation failed.
#[tactic(auto, unfolding(crate::specs::Spelling::tape_bytes))]
pub fn write_tape(
    alloc: Global,
    digest: &[u8; DIGEST_BYTES],
    tape: &Tape,
) -> Result<Vec<u8>, NoMemory>
    requires { FitSegments VERSION_2 tape.now.segments }
    ensures { IfOk result (λ file. SpellsTape VERSION_2 file.items digest.now tape.now) }
{
    let mut out = Vec::new(alloc);
    out.extend_from_slice(&TAPE_MAGIC)?;
    out.push(VERSION_2)?;
    out.extend_from_slice(digest)?;
    write_items::<SegmentItems>(tape.segments.as_slice(), &mut out)?;
    out.push(TAG_CLOSE)?;
    Ok(out)
}

/// The byte of an outcome.
fn outcome_byte(outcome: Outcome) -> u8
    ensures { result ≡ outcome_byte outcome }
{
    match outcome {
        Outcome::Ended => TAG_ENDED,
        Outcome::Trapped => TAG_TRAPPED,
        Outcome::HostTrapped => TAG_HOST_TRAPPED,
    }
}

/// Appends a mark and a number.
#[inline]
fn write_marked(mark: u8, number: u32, out: &mut Vec<u8>) -> Result<(), NoMemory>
    ensures { OnOk result (out.new.items ≡ out.old.items ++ mark ∷ u32_bytes number) }
{
    out.push(mark)?;
    push_u32(out, number)
}

/// Appends an event.
#[tactic(auto, unfolding(crate::specs::Spelling::event_bytes))]
fn write_event(event: &Event, out: &mut Vec<u8>) -> Result<(), NoMemory>
    requires { FitsEvent VERSION_2 event.now }
    ensures { OnOk result (out.new.items ≡ out.old.items ++ event_bytes event.now) }
{
    match event {
        Event::Enter { func, args } => write_call(TAG_ENTER, *func, args, out),
        Event::Leave { func } => write_marked(TAG_LEAVE, *func, out),
        Event::Pre { callee } => write_func(TAG_PRE, *callee, out),
        Event::Post { result } => write_result(TAG_POST, *result, out),
        Event::Grow { pages } => write_marked(TAG_GROW, *pages, out),
        Event::Seen => {
            out.push(TAG_SEEN)?;
            Ok(())
        }
        Event::Table { size } => write_marked(TAG_TABLE, *size, out),
        Event::Bytes { addr, bytes } => write_bytes(*addr, bytes.as_slice(), out),
        Event::Entry { index, func } => write_entry(*index, *func, out),
        Event::Global { global, value } => write_global(*global, *value, out),
    }
}

/// Appends an effect.
#[tactic(auto, unfolding(crate::specs::Spelling::effect_bytes))]
fn write_effect(effect: &Effect, out: &mut Vec<u8>) -> Result<(), NoMemory>
    requires { FitsEffect VERSION_2 effect.now }
    ensures { OnOk result (out.new.items ≡ out.old.items ++ effect_bytes effect.now) }
{
    match effect {
        Effect::Grow { pages } => write_marked(TAG_GROW, *pages, out),
        Effect::Table { size } => write_marked(TAG_TABLE, *size, out),
        Effect::Bytes { addr, bytes } => write_bytes(*addr, bytes.as_slice(), out),
        Effect::Entry { index, func } => write_entry(*index, *func, out),
        Effect::Global { global, value } => write_global(*global, *value, out),
    }
}

/// Appends a segment.
#[tactic(auto, unfolding(crate::specs::Spelling::segment_bytes))]
fn write_segment(segment: &Segment, out: &mut Vec<u8>) -> Result<(), NoMemory>
    requires { FitsSegment VERSION_2 segment.now }
    ensures { OnOk result (out.new.items ≡ out.old.items ++ segment_bytes segment.now) }
{
    write_origin(segment.origin, out)?;
    write_counted::<EffectItems>(segment.effects.as_slice(), out)?;
    write_next(&segment.next, out)
}

/// Appends how control reaches the host.
fn write_origin(origin: Origin, out: &mut Vec<u8>) -> Result<(), NoMemory>
    ensures { OnOk result (out.new.items ≡ out.old.items ++ origin_bytes origin) }
{
    match origin {
        Origin::Begin => out.push(TAG_BEGIN)?,
        Origin::Import(import) => return write_marked(TAG_IMPORT, import, out),
        Origin::Back => out.push(TAG_BACK)?,
    }
    Ok(())
}

/// Appends how control leaves the host.
fn write_next(next: &Next, out: &mut Vec<u8>) -> Result<(), NoMemory>
    requires { FitsNext next.now }
    ensures { OnOk result (out.new.items ≡ out.old.items ++ next_bytes next.now) }
{
    match next {
        Next::Call { func, args } => return write_call(TAG_CALL, *func, args, out),
        Next::Return { result } => return write_result(TAG_RETURN, *result, out),
        Next::End => out.push(TAG_END)?,
        Next::Trap => out.push(TAG_TRAP)?,
    }
    Ok(())
}

/// Appends a function with its arguments, after a mark.
fn write_call(mark: u8, func: u32, args: &Vals, out: &mut Vec<u8>) -> Result<(), NoMemory>
    requires { FitVals args.now }
    ensures { OnOk result (out.new.items ≡ out.old.items ++ mark ∷ call_bytes func args.now) }
{
    write_marked(mark, func, out)?;
    write_counted::<Values>(args.as_slice(), out)
}

/// Appends a mark and an optional function.
fn write_func(mark: u8, func: Option<u32>, out: &mut Vec<u8>) -> Result<(), NoMemory>
    ensures { OnOk result (out.new.items ≡ out.old.items ++ mark ∷ option_bytes u32_bytes func) }
{
    out.push(mark)?;
    write_option(func, out)
}

/// Appends an optional number.
fn write_option(number: Option<u32>, out: &mut Vec<u8>) -> Result<(), NoMemory>
    ensures { OnOk result (out.new.items ≡ out.old.items ++ option_bytes u32_bytes number) }
{
    match number {
        None => {
            out.push(OPTION_NONE)?;
            Ok(())
        }
        Some(number) => write_marked(OPTION_SOME, number, out),
    }
}

/// Appends a mark and an optional value.
fn write_result(mark: u8, value: Option<Val>, out: &mut Vec<u8>) -> Result<(), NoMemory>
    requires { IfSome value FitsVal }
    ensures { OnOk result (out.new.items ≡ out.old.items ++ mark ∷ option_bytes val_bytes value) }
{
    out.push(mark)?;
    match value {
        None => {
            out.push(OPTION_NONE)?;
            Ok(())
        }
        Some(value) => {
            out.push(OPTION_SOME)?;
            write_val(value, out)
        }
    }
}

/// Appends bytes with their address.
fn write_bytes(addr: u32, bytes: &[u8], out: &mut Vec<u8>) -> Result<(), NoMemory>
    requires { FitBytes addr bytes.now }
    ensures { OnOk result (out.new.items ≡ out.old.items ++ bytes_bytes addr bytes.now) }
{
    write_marked(TAG_BYTES, addr, out)?;
    push_u32(out, bytes.len() as u32)?;
    out.extend_from_slice(bytes)?;
    Ok(())
}

/// Appends a table entry.
fn write_entry(index: u32, func: Option<u32>, out: &mut Vec<u8>) -> Result<(), NoMemory>
    ensures { OnOk result (out.new.items ≡ out.old.items ++ entry_bytes index func) }
{
    write_marked(TAG_ENTRY, index, out)?;
    write_option(func, out)
}

/// Appends a global with its value.
fn write_global(global: u32, value: Val, out: &mut Vec<u8>) -> Result<(), NoMemory>
    requires { FitsVal value }
    ensures { OnOk result (out.new.items ≡ out.old.items ++ global_bytes global value) }
{
    write_marked(TAG_GLOBAL, global, out)?;
    write_val(value, out)
}

/// Appends a value.
fn write_val(value: Val, out: &mut Vec<u8>) -> Result<(), NoMemory>
    requires { FitsVal value }
    ensures { OnOk result (out.new.items ≡ out.old.items ++ val_bytes value) }
{
    out.push(value.ty.byte())?;
    match value.ty {
        ValType::I32 | ValType::F32 => out.extend_from_slice(&(value.bits as u32).to_le_bytes())?,
        ValType::I64 | ValType::F64 => out.extend_from_slice(&value.bits.to_le_bytes())?,
        ValType::FuncRef => {}
    }
    Ok(())
}
