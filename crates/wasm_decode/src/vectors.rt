// Vectors (Core 1.0, 5.1.3), and content of a size.

ghost use Rattle.leb_bytes.specs.Unsigned as unsigned;
ghost use Rattle.wasm_syntax.specs.Encoding.Combinators.{first_vector, first_sized, whole};
ghost use Rattle.leb_bytes.specs.ReadResults.{Gives};

use crate::kinds::Kind;
use crate::values::{Read, first_sized, first_u32};
use leb_bytes::Unread;
use std::alloc::Global;
use wasm_syntax::{Form, List};

/// A vector of items of a kind.
pub(crate) fn first_vector<K: Kind>(
    alloc: Global,
    form: Form,
    bytes: &[u8],
) -> Read<'_, List<K::Item>>
    ensures { Gives (λ read. (read.0, read.1.now)) result (first_vector (K.first form) bytes.now) }
{
    let (count, mut rest) = first_u32(bytes)?;
    let mut items = Vec::new(alloc);
    for _ in 0..count {
        let (item, after) = K::first(alloc, form, rest)?;
        items.push(item)?;
        rest = after;
    }
    Ok((List::from_vec(items), rest))
}

/// A vector that is all of the content of a size.
pub(crate) fn first_sized_vector<K: Kind>(
    alloc: Global,
    form: Form,
    bytes: &[u8],
) -> Read<'_, List<K::Item>>
    ensures { Gives (λ read. (read.0, read.1.now)) result
        (first_sized (whole (first_vector (K.first form))) bytes.now) }
{
    let (content, rest) = first_sized(bytes)?;
    let (items, left) = first_vector::<K>(alloc, form, content)?;
    if !left.is_empty() {
        return Err(Unread::NotThere);
    }
    Ok((items, rest))
}

/// A u32 that is all of the content of a size.
pub(crate) fn first_sized_u32(bytes: &[u8]) -> Read<'_, u32>
    ensures { Gives (λ read. (read.0, read.1.now)) result (first_sized (whole unsigned.first_u32) bytes.now) }
{
    let (content, rest) = first_sized(bytes)?;
    let (number, left) = first_u32(content)?;
    if !left.is_empty() {
        return Err(Unread::NotThere);
    }
    Ok((number, rest))
}
