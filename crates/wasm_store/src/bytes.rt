// Numbers and ranges in a slice of bytes. Each is one range of the slice after one test, which the
// compiler makes one instruction of if the width is known.

ghost use Rattle.std.specs.Prelude.{◌≡◌, ℕ, ◌+◌, ◌^◌, ◌<◌, ◌≤◌, List, length, take, drop, Option, Some, None, IsTrue, IfOk, OnOk, OnErr, option_map};
ghost use Rattle.history_spec.specs.Store.{bytes_at, with_bytes_at, with_items_at, number_of, bytes_of};
ghost use Rattle.wasm_store.specs.Calls.{is_width};

use crate::bounds::OutOfBounds;

/// The place after the `count` bytes at `addr`, if a length has them all.
#[inline(always)]
pub(crate) fn end_of(length: usize, addr: u64, count: u64) -> Result<usize, OutOfBounds>
    ensures place { IfOk result (λ end. end ≡ addr + count) }
    ensures ok { OnOk result (addr + count ≤ length) }
    ensures err { OnErr result (length < addr + count) }
{
    match addr.checked_add(count) {
        Some(end) if end <= length as u64 => Ok(end as usize),
        _ => Err(OutOfBounds),
    }
}

/// The number that `width` bytes encode.
#[inline(always)]
pub(crate) fn load(bytes: &[u8], addr: u64, width: usize) -> Result<u64, OutOfBounds>
    requires { width ≤ 8 }
    ensures ok { IfOk result
        (λ bits. option_map number_of (bytes_at bytes.now addr width) ≡ Some bits) }
    ensures fits { IfOk result (λ bits. bits < 256 ^ width) }
    ensures err { OnErr result (bytes_at bytes.now addr width ≡ None) }
{
    end_of(bytes.len(), addr, width as u64)?;
    let mut word = [0; 8];
    word[..width].copy_from_slice(&bytes[addr as usize..][..width]);
    Ok(u64::from_le_bytes(word))
}

/// The number that `width` bytes encode, for a width that is known only at run time.
#[inline(always)]
pub(crate) fn load_width(bytes: &[u8], addr: u64, width: u32) -> Result<u64, OutOfBounds>
    requires { IsTrue (is_width width) }
    ensures ok { IfOk result
        (λ bits. option_map number_of (bytes_at bytes.now addr width) ≡ Some bits) }
    ensures fits { IfOk result (λ bits. bits < 256 ^ width) }
    ensures err { OnErr result (bytes_at bytes.now addr width ≡ None) }
{
    match width {
        1 => load(bytes, addr, 1),
        2 => load(bytes, addr, 2),
        4 => load(bytes, addr, 4),
        _ => load(bytes, addr, 8),
    }
}

/// Replaces as many bytes by a word.
#[inline(always)]
fn replace<const N: usize>(part: &mut [u8], word: [u8; N])
    requires { length part.old ≡ N }
    ensures { part.new ≡ word.entry }
{
    if let Some(place) = part.first_chunk_mut::<N>() {
        *place = word;
    }
}

/// Writes a word.
#[inline(always)]
pub(crate) fn store<const N: usize>(
    bytes: &mut [u8],
    addr: u64,
    word: [u8; N],
) -> Result<(), OutOfBounds>
    ensures ok { OnOk result (with_bytes_at bytes.old addr word.entry ≡ Some bytes.new) }
    ensures err { OnErr result (with_bytes_at bytes.old addr word.entry ≡ None) }
    ensures same { OnErr result (bytes.new ≡ bytes.old) }
{
    let end = end_of(bytes.len(), addr, N as u64)?;
    replace(&mut bytes[addr as usize..end], word);
    Ok(())
}

/// Writes the lowest bytes of a number, as many as a width that is known only at run time.
#[inline(always)]
pub(crate) fn store_width(
    bytes: &mut [u8],
    addr: u64,
    width: u32,
    bits: u64,
) -> Result<(), OutOfBounds>
    requires { IsTrue (is_width width) }
    ensures ok { OnOk result (with_bytes_at bytes.old addr (bytes_of width bits) ≡ Some bytes.new) }
    ensures err { OnErr result (with_bytes_at bytes.old addr (bytes_of width bits) ≡ None) }
    ensures same { OnErr result (bytes.new ≡ bytes.old) }
{
    let [a, b, c, d, e, f, g, h] = bits.to_le_bytes();
    match width {
        1 => store(bytes, addr, [a]),
        2 => store(bytes, addr, [a, b]),
        4 => store(bytes, addr, [a, b, c, d]),
        _ => store(bytes, addr, [a, b, c, d, e, f, g, h]),
    }
}

/// Writes bytes.
#[inline(always)]
pub(crate) fn put(bytes: &mut [u8], addr: u64, news: &[u8]) -> Result<(), OutOfBounds>
    ensures ok { OnOk result (with_bytes_at bytes.old addr news.now ≡ Some bytes.new) }
    ensures err { OnErr result (with_bytes_at bytes.old addr news.now ≡ None) }
    ensures same { OnErr result (bytes.new ≡ bytes.old) }
{
    let end = end_of(bytes.len(), addr, news.len() as u64)?;
    bytes[addr as usize..end].copy_from_slice(news);
    Ok(())
}

/// Writes at `to` the `count` bytes at `from`, which end before it.
#[inline(always)]
fn copy_up(bytes: &mut [u8], to: usize, from: usize, count: usize)
    requires apart { from + count ≤ to }
    requires within { to + count ≤ length bytes.old }
    ensures { bytes.new ≡ with_items_at bytes.old to (take count (drop from bytes.old)) }
{
    let (front, back) = bytes.split_at_mut(to);
    back[..count].copy_from_slice(&front[from..from + count]);
}

/// Writes at `to` the `count` bytes at `from`, which begin after the place of the last.
#[inline(always)]
fn copy_down(bytes: &mut [u8], to: usize, from: usize, count: usize)
    requires apart { to + count ≤ from }
    requires within { from + count ≤ length bytes.old }
    ensures { bytes.new ≡ with_items_at bytes.old to (take count (drop from bytes.old)) }
{
    let (front, back) = bytes.split_at_mut(from);
    front[to..to + count].copy_from_slice(&back[..count]);
}

/// Writes at `to` the `count` bytes at `from`, as if all were read first. Ranges apart
/// from each other are copied by the one instruction for that.
#[inline]
pub(crate) fn copy_range(bytes: &mut [u8], to: usize, from: usize, count: usize)
    requires source { from + count ≤ length bytes.old }
    requires target { to + count ≤ length bytes.old }
    ensures { bytes.new ≡ with_items_at bytes.old to (take count (drop from bytes.old)) }
{
    if count <= to && from <= to - count {
        copy_up(bytes, to, from, count);
    } else if count <= from && to <= from - count {
        copy_down(bytes, to, from, count);
    } else {
        bytes.copy_within(from..from + count, to);
    }
}
