// Readers of values, bytes and names (Core 1.0, 5.2). Each takes the bytes that are left, and gives
// what a front of them encodes with the bytes after it.

ghost use Rattle.std.specs.Prelude.{◌≡◌, [], ◌∷◌, Some, IfOk, MatchResult};
ghost use Rattle.leb_bytes.specs.Unsigned.{first_u32};
ghost use Rattle.leb_bytes.specs.Signed.{first_i32, first_i64};
ghost use Rattle.wasm_syntax.specs.Encoding.Combinators.{first_sized};
ghost use Rattle.wasm_syntax.specs.Encoding.Readers.{first_f32, first_f64, first_bytes, first_name, first_raw};
ghost use Rattle.leb_bytes.specs.ReadResults.{Gives};
ghost use Rattle.leb_bytes.specs.declared.unread.Unread.TheVariants.{NotThere};

use base::NoMemory;
use leb_bytes::{Unread, read_i32, read_i64, read_u32};
use std::alloc::Global;
use std::str::from_utf8;
use wasm_syntax::{Bytes, Name};

/// What a front of the bytes encodes, with the bytes after it.
pub(crate) type Read<'a, T> = Result<(T, &'a [u8]), Unread>;

/// The first byte.
pub(crate) fn first_byte(bytes: &[u8]) -> Read<'_, u8>
    ensures { MatchResult result
        (λ read. bytes.now ≡ read.0 ∷ read.1.now)
        (λ unread. (unread ≡ NotThere) × (bytes.now ≡ [])) }
{
    match bytes {
        [byte, rest @ ..] => Ok((*byte, rest)),
        [] => Err(Unread::NotThere),
    }
}

/// A given number of bytes as they are.
pub(crate) fn first_raw(count: usize, bytes: &[u8]) -> Read<'_, &[u8]>
    ensures { Gives (λ read. (read.0.now, read.1.now)) result (first_raw count bytes.now) }
{
    match bytes.split_at_checked(count) {
        Some((front, rest)) => Ok((front, rest)),
        None => Err(Unread::NotThere),
    }
}

/// A u32.
pub(crate) fn first_u32(bytes: &[u8]) -> Read<'_, u32>
    ensures { Gives (λ read. (read.0, read.1.now)) result (first_u32 bytes.now) }
{
    let (number, next) = read_u32(bytes, 0)?;
    Ok((number, &bytes[next..]))
}

/// The bits of an i32, which is encoded as an s32.
#[tactic(auto, unfolding(leb_bytes::specs::Signed::first_i32))]
pub(crate) fn first_i32(bytes: &[u8]) -> Read<'_, u32>
    ensures { Gives (λ read. (read.0, read.1.now)) result (first_i32 bytes.now) }
{
    let (number, next) = read_i32(bytes, 0)?;
    Ok((number.cast_unsigned(), &bytes[next..]))
}

/// The bits of an i64, which is encoded as an s64.
#[tactic(auto, unfolding(leb_bytes::specs::Signed::first_i64))]
pub(crate) fn first_i64(bytes: &[u8]) -> Read<'_, u64>
    ensures { Gives (λ read. (read.0, read.1.now)) result (first_i64 bytes.now) }
{
    let (number, next) = read_i64(bytes, 0)?;
    Ok((number.cast_unsigned(), &bytes[next..]))
}

/// The bits of an f32.
#[tactic(auto, unfolding(wasm_syntax::specs::Encoding::Readers::first_f32))]
pub(crate) fn first_f32(bytes: &[u8]) -> Read<'_, u32>
    ensures { Gives (λ read. (read.0, read.1.now)) result (first_f32 bytes.now) }
{
    match bytes.split_first_chunk::<4>() {
        Some((bits, rest)) => Ok((u32::from_le_bytes(*bits), rest)),
        None => Err(Unread::NotThere),
    }
}

/// The bits of an f64.
#[tactic(auto, unfolding(wasm_syntax::specs::Encoding::Readers::first_f64))]
pub(crate) fn first_f64(bytes: &[u8]) -> Read<'_, u64>
    ensures { Gives (λ read. (read.0, read.1.now)) result (first_f64 bytes.now) }
{
    match bytes.split_first_chunk::<8>() {
        Some((bits, rest)) => Ok((u64::from_le_bytes(*bits), rest)),
        None => Err(Unread::NotThere),
    }
}

/// As many bytes as the u32 at their front gives, as they are.
pub(crate) fn first_sized(bytes: &[u8]) -> Read<'_, &[u8]>
    ensures { Gives (λ read. (read.0.now, read.1.now)) result (first_sized Some bytes.now) }
{
    let (size, rest) = first_u32(bytes)?;
    first_raw(size as usize, rest)
}

/// A vector of bytes.
#[tactic(auto, unfolding(wasm_syntax::specs::Encoding::Readers::first_bytes))]
pub(crate) fn first_bytes(alloc: Global, bytes: &[u8]) -> Read<'_, Bytes>
    ensures { Gives (λ read. (read.0, read.1.now)) result (first_bytes bytes.now) }
{
    let (content, rest) = first_sized(bytes)?;
    Ok((copy_of(alloc, content)?, rest))
}

/// The same bytes in memory of their own.
pub(crate) fn copy_of(alloc: Global, bytes: &[u8]) -> Result<Bytes, NoMemory>
    ensures { IfOk result (λ copy. copy ≡ bytes.now) }
{
    Ok(Bytes::from_vec(Vec::from_slice(alloc, bytes)?))
}

/// A name: a vector of bytes that are UTF-8 (Core 1.0, 5.2.4).
#[tactic(auto, unfolding(wasm_syntax::specs::Encoding::Readers::first_name, wasm_syntax::specs::Encoding::Readers::first_bytes))]
pub(crate) fn first_name(alloc: Global, bytes: &[u8]) -> Read<'_, Name>
    ensures { Gives (λ read. (read.0, read.1.now)) result (first_name bytes.now) }
{
    let (content, rest) = first_sized(bytes)?;
    match from_utf8(content) {
        Ok(text) => Ok((Name::from_string(String::from_str(alloc, text)?), rest)),
        Err(_) => Err(Unread::NotThere),
    }
}
