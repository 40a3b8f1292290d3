// Readers of numbers, bytes and values. Each takes the bytes that are left; it returns what their prefix
// encodes, and the bytes after it.

ghost use Rattle.std.specs.Prelude.{◌≡◌, [], ◌∷◌, length, MatchOption};
ghost use Rattle.leb_bytes.specs.Unsigned.{u32_bytes};
ghost use Rattle.wasm_syntax.specs.Encoding.Readers.{first_raw, first_f32, first_f64};
ghost use Rattle.trace_format.specs.Reading.{first_bytes, first_number, first_option, first_val};
ghost use Rattle.leb_bytes.specs.ReadResults.{Gives};
ghost use Rattle.trace_format.specs.ReadResults.{Finds};

use base::marks::{TYPE_F32, TYPE_F64, TYPE_I32, TYPE_I64};
use leb_bytes::{Unread, read_u32};
use std::alloc::Global;
use trace_bytes::tags::{OPTION_NONE, OPTION_SOME};
use wasm_syntax::{Bytes, Val, ValType};

/// The first byte.
pub(crate) fn first_byte(bytes: &[u8]) -> Option<(u8, &[u8])>
    ensures { MatchOption result (bytes.now ≡ []) (λ read. bytes.now ≡ read.0 ∷ read.1.now) }
{
    match bytes {
        [byte, rest @ ..] => Some((*byte, rest)),
        [] => None,
    }
}

/// The first bytes, in this number, as they are.
pub(crate) fn first_raw(count: usize, bytes: &[u8]) -> Option<(&[u8], &[u8])>
    ensures { Finds (λ read. (read.0.now, read.1.now)) result (first_raw count bytes.now) }
{
    bytes.split_at_checked(count)
}

/// A number in its shortest encoding.
#[tactic(auto, unfolding(crate::specs::Reading::first_number))]
pub(crate) fn first_number(bytes: &[u8]) -> Option<(u32, &[u8])>
    ensures { Finds (λ read. (read.0, read.1.now)) result (first_number bytes.now) }
{
    match read_u32(bytes, 0) {
        Ok((number, next)) if next == shortest_length(number) => Some((number, &bytes[next..])),
        _ => None,
    }
}

/// The length of the shortest encoding of a number, in bytes.
#[tactic(auto, unfolding(leb_bytes::specs::Unsigned::u32_bytes, leb_bytes::specs::Unsigned::unsigned_bytes))]
fn shortest_length(number: u32) -> usize
    ensures { result ≡ length (u32_bytes number) }
{
    if number < 0x80 {
        1
    } else if number < 0x4000 {
        2
    } else if number < 0x20_0000 {
        3
    } else if number < 0x1000_0000 {
        4
    } else {
        5
    }
}

/// The bytes after a number that counts them, which is at least one.
#[tactic(auto, unfolding(crate::specs::Reading::first_bytes))]
pub(crate) fn first_bytes(alloc: Global, bytes: &[u8]) -> Result<(Bytes, &[u8]), Unread>
    ensures { Gives (λ read. (read.0, read.1.now)) result (first_bytes bytes.now) }
{
    let Some((count, rest)) = first_number(bytes) else {
        return Err(Unread::NotThere);
    };
    if count == 0 {
        return Err(Unread::NotThere);
    }
    match first_raw(count as usize, rest) {
        Some((content, rest)) => Ok((Bytes::from_vec(Vec::from_slice(alloc, content)?), rest)),
        None => Err(Unread::NotThere),
    }
}

/// The bits of a 32-bit value, the lowest byte first.
#[tactic(auto, unfolding(wasm_syntax::specs::Encoding::Readers::first_f32))]
fn first_narrow(bytes: &[u8]) -> Option<(u64, &[u8])>
    ensures { Finds (λ read. (read.0, read.1.now)) result (first_f32 bytes.now) }
{
    match bytes.split_first_chunk::<4>() {
        Some((bits, rest)) => Some((u64::from(u32::from_le_bytes(*bits)), rest)),
        None => None,
    }
}

/// The bits of a 64-bit value, the lowest byte first.
#[tactic(auto, unfolding(wasm_syntax::specs::Encoding::Readers::first_f64))]
fn first_wide(bytes: &[u8]) -> Option<(u64, &[u8])>
    ensures { Finds (λ read. (read.0, read.1.now)) result (first_f64 bytes.now) }
{
    match bytes.split_first_chunk::<8>() {
        Some((bits, rest)) => Some((u64::from_le_bytes(*bits), rest)),
        None => None,
    }
}

/// A value.
#[tactic(auto, unfolding(crate::specs::Reading::first_val))]
pub(crate) fn first_val(bytes: &[u8]) -> Option<(Val, &[u8])>
    ensures { Finds (λ read. (read.0, read.1.now)) result (first_val bytes.now) }
{
    let (mark, rest) = first_byte(bytes)?;
    let (ty, (bits, rest)) = match mark {
        TYPE_I32 => (ValType::I32, first_narrow(rest)?),
        TYPE_I64 => (ValType::I64, first_wide(rest)?),
        TYPE_F32 => (ValType::F32, first_narrow(rest)?),
        TYPE_F64 => (ValType::F64, first_wide(rest)?),
        _ => return None,
    };
    Some((Val { ty, bits }, rest))
}

/// A type whose values are read without memory.
pub(crate) trait Plain: Copy {
    ghost use Rattle.std.specs.Prelude.{ℕ, List, Option};
    ghost use Rattle.trace_format.specs.ReadResults.{Finds};

    // the plain reader of the type
    ghost first: { List ℕ → Option (Self × List ℕ) };

    /// Reads a value of the type.
    fn first(bytes: &[u8]) -> Option<(Self, &[u8])>
        ensures { Finds (λ read. (read.0, read.1.now)) result (first bytes.now) };
}

impl Plain for u32 {
    ghost first = { first_number };

    fn first(bytes: &[u8]) -> Option<(u32, &[u8])> {
        first_number(bytes)
    }
}

impl Plain for Val {
    ghost first = { first_val };

    fn first(bytes: &[u8]) -> Option<(Val, &[u8])> {
        first_val(bytes)
    }
}

/// A value or `None`.
pub(crate) fn first_option<T: Plain>(bytes: &[u8]) -> Option<(Option<T>, &[u8])>
    ensures { Finds (λ read. (read.0, read.1.now)) result (first_option T.first bytes.now) }
{
    let (mark, rest) = first_byte(bytes)?;
    match mark {
        OPTION_NONE => Some((None, rest)),
        OPTION_SOME => {
            let (item, rest) = T::first(rest)?;
            Some((Some(item), rest))
        }
        _ => None,
    }
}
