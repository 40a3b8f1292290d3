// Readers of segments and their parts.

ghost use Rattle.wasm_syntax.specs.Encoding.Combinators.{first_then, map_read};
ghost use Rattle.trace_model.specs.declared.tapes.Effect.TheVariants as effects;
ghost use Rattle.trace_format.specs.Reading as plain;
ghost use Rattle.trace_format.specs.Reading.{with_pair};
ghost use Rattle.leb_bytes.specs.ReadResults.{Gives};
ghost use Rattle.trace_format.specs.ReadResults.{Finds};

use crate::items::{Kind, first_counted};
use crate::numbers::{first_byte, first_number, first_option};
use crate::parts::{first_call, first_entry, first_global, first_placed};
use leb_bytes::Unread;
use std::alloc::Global;
use trace_bytes::tags::{
    TAG_BACK, TAG_BEGIN, TAG_BYTES, TAG_CALL, TAG_END, TAG_ENTRY, TAG_GLOBAL, TAG_GROW, TAG_IMPORT,
    TAG_RETURN, TAG_TABLE, TAG_TRAP, VERSION_2,
};
use trace_model::{Effect, Next, Origin, Segment};
use wasm_syntax::Val;

impl Kind for Effect {
    type Item = Effect;

    ghost first = { plain.first_effect };

    fn first(alloc: Global, version: u8, bytes: &[u8]) -> Result<(Effect, &[u8]), Unread> {
        first_effect(alloc, version, bytes)
    }
}

impl Kind for Segment {
    type Item = Segment;

    ghost first = { plain.first_segment };

    fn first(alloc: Global, version: u8, bytes: &[u8]) -> Result<(Segment, &[u8]), Unread> {
        first_segment(alloc, version, bytes)
    }
}

/// An effect.
#[tactic(auto, unfolding(crate::specs::Reading::first_effect))]
fn first_effect(alloc: Global, version: u8, bytes: &[u8]) -> Result<(Effect, &[u8]), Unread>
    ensures { Gives (λ read. (read.0, read.1.now)) result (plain.first_effect version bytes.now) }
{
    let Some((tag, rest)) = first_byte(bytes) else {
        return Err(Unread::NotThere);
    };
    match tag {
        TAG_GROW => grow_effect(rest),
        TAG_BYTES => bytes_effect(alloc, rest),
        TAG_ENTRY => entry_effect(rest),
        TAG_GLOBAL => global_effect(rest),
        TAG_TABLE if version == VERSION_2 => table_effect(rest),
        _ => Err(Unread::NotThere),
    }
}

/// Reads what follows the tag of a growth of the memory.
fn grow_effect(bytes: &[u8]) -> Result<(Effect, &[u8]), Unread>
    ensures { Gives (λ read. (read.0, read.1.now)) result (map_read effects.Grow plain.first_number bytes.now) }
{
    match first_number(bytes) {
        Some((pages, rest)) => Ok((Effect::Grow { pages }, rest)),
        None => Err(Unread::NotThere),
    }
}

/// Reads what follows the tag of a growth of the table.
fn table_effect(bytes: &[u8]) -> Result<(Effect, &[u8]), Unread>
    ensures { Gives (λ read. (read.0, read.1.now)) result (map_read effects.Table plain.first_number bytes.now) }
{
    match first_number(bytes) {
        Some((size, rest)) => Ok((Effect::Table { size }, rest)),
        None => Err(Unread::NotThere),
    }
}

/// Reads what follows the tag of bytes.
fn bytes_effect(alloc: Global, bytes: &[u8]) -> Result<(Effect, &[u8]), Unread>
    ensures { Gives (λ read. (read.0, read.1.now)) result
        (map_read (with_pair effects.Bytes) (first_then plain.first_number plain.first_bytes) bytes.now) }
{
    let ((addr, content), rest) = first_placed(alloc, bytes)?;
    Ok((
        Effect::Bytes {
            addr,
            bytes: content,
        },
        rest,
    ))
}

/// Reads what follows the tag of a table entry.
fn entry_effect(bytes: &[u8]) -> Result<(Effect, &[u8]), Unread>
    ensures { Gives (λ read. (read.0, read.1.now)) result
        (map_read (with_pair effects.Entry)
        (first_then plain.first_number (plain.first_option plain.first_number)) bytes.now) }
{
    match first_entry(bytes) {
        Some(((index, func), rest)) => Ok((Effect::Entry { index, func }, rest)),
        None => Err(Unread::NotThere),
    }
}

/// Reads what follows the tag of a global.
fn global_effect(bytes: &[u8]) -> Result<(Effect, &[u8]), Unread>
    ensures { Gives (λ read. (read.0, read.1.now)) result
        (map_read (with_pair effects.Global) (first_then plain.first_number plain.first_val) bytes.now) }
{
    match first_global(bytes) {
        Some(((global, value), rest)) => Ok((Effect::Global { global, value }, rest)),
        None => Err(Unread::NotThere),
    }
}

/// How control reaches the host.
#[tactic(auto, unfolding(crate::specs::Reading::first_origin))]
fn first_origin(bytes: &[u8]) -> Option<(Origin, &[u8])>
    ensures { Finds (λ read. (read.0, read.1.now)) result (plain.first_origin bytes.now) }
{
    let (tag, rest) = first_byte(bytes)?;
    match tag {
        TAG_BEGIN => Some((Origin::Begin, rest)),
        TAG_IMPORT => {
            let (import, rest) = first_number(rest)?;
            Some((Origin::Import(import), rest))
        }
        TAG_BACK => Some((Origin::Back, rest)),
        _ => None,
    }
}

/// How control leaves the host.
#[tactic(auto, unfolding(crate::specs::Reading::first_next))]
fn first_next(alloc: Global, bytes: &[u8]) -> Result<(Next, &[u8]), Unread>
    ensures { Gives (λ read. (read.0, read.1.now)) result (plain.first_next bytes.now) }
{
    let Some((tag, rest)) = first_byte(bytes) else {
        return Err(Unread::NotThere);
    };
    match tag {
        TAG_CALL => {
            let ((func, args), rest) = first_call(alloc, rest)?;
            Ok((Next::Call { func, args }, rest))
        }
        TAG_RETURN => match first_option::<Val>(rest) {
            Some((value, rest)) => Ok((Next::Return { result: value }, rest)),
            None => Err(Unread::NotThere),
        },
        TAG_END => Ok((Next::End, rest)),
        TAG_TRAP => Ok((Next::Trap, rest)),
        _ => Err(Unread::NotThere),
    }
}

/// A segment.
#[tactic(auto, unfolding(crate::specs::Reading::first_segment))]
fn first_segment(alloc: Global, version: u8, bytes: &[u8]) -> Result<(Segment, &[u8]), Unread>
    ensures { Gives (λ read. (read.0, read.1.now)) result (plain.first_segment version bytes.now) }
{
    let Some((origin, rest)) = first_origin(bytes) else {
        return Err(Unread::NotThere);
    };
    let (effects, rest) = first_counted::<Effect>(alloc, version, rest)?;
    let (next, rest) = first_next(alloc, rest)?;
    Ok((
        Segment {
            origin,
            effects,
            next,
        },
        rest,
    ))
}
