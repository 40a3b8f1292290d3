// Readers of parts that events, effects and segments share.

ghost use Rattle.wasm_syntax.specs.Encoding.Combinators.{first_then};
ghost use Rattle.trace_format.specs.Reading as plain;
ghost use Rattle.leb_bytes.specs.ReadResults.{Gives};
ghost use Rattle.trace_format.specs.ReadResults.{Finds};

use crate::items::{Kind, first_counted};
use crate::numbers::{first_bytes, first_number, first_option, first_val};
use leb_bytes::Unread;
use std::alloc::Global;
use trace_bytes::tags::VERSION_2;
use wasm_syntax::{Bytes, Val, Vals};

impl Kind for Val {
    type Item = Val;

    ghost first = { λ _. plain.first_val };

    fn first(_alloc: Global, _version: u8, bytes: &[u8]) -> Result<(Val, &[u8]), Unread> {
        match first_val(bytes) {
            Some(read) => Ok(read),
            None => Err(Unread::NotThere),
        }
    }
}

/// A function with its arguments.
#[tactic(auto, unfolding(crate::specs::Reading::first_args))]
pub(crate) fn first_call(alloc: Global, bytes: &[u8]) -> Result<((u32, Vals), &[u8]), Unread>
    ensures { Gives (λ read. (read.0, read.1.now)) result
        (first_then plain.first_number plain.first_args bytes.now) }
{
    let Some((func, rest)) = first_number(bytes) else {
        return Err(Unread::NotThere);
    };
    let (args, rest) = first_counted::<Val>(alloc, VERSION_2, rest)?;
    Ok(((func, args), rest))
}

/// Bytes with their address.
pub(crate) fn first_placed(alloc: Global, bytes: &[u8]) -> Result<((u32, Bytes), &[u8]), Unread>
    ensures { Gives (λ read. (read.0, read.1.now)) result
        (first_then plain.first_number plain.first_bytes bytes.now) }
{
    let Some((addr, rest)) = first_number(bytes) else {
        return Err(Unread::NotThere);
    };
    let (content, rest) = first_bytes(alloc, rest)?;
    Ok(((addr, content), rest))
}

/// A table entry: its index, and its function or `None`.
pub(crate) fn first_entry(bytes: &[u8]) -> Option<((u32, Option<u32>), &[u8])>
    ensures { Finds (λ read. (read.0, read.1.now)) result
        (first_then plain.first_number (plain.first_option plain.first_number) bytes.now) }
{
    let (index, rest) = first_number(bytes)?;
    let (func, rest) = first_option::<u32>(rest)?;
    Some(((index, func), rest))
}

/// A global with its value.
pub(crate) fn first_global(bytes: &[u8]) -> Option<((u32, Val), &[u8])>
    ensures { Finds (λ read. (read.0, read.1.now)) result
        (first_then plain.first_number plain.first_val bytes.now) }
{
    let (global, rest) = first_number(bytes)?;
    let (value, rest) = first_val(rest)?;
    Some(((global, value), rest))
}
