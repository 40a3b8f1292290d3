// Runs of bytes: compared with the known ones, and taken, page by page.

ghost use Rattle.std.specs.Prelude.{◌≡◌, ◌↔◌, ℕ, ◌+◌, ◌*◌, ◌/◌, ◌%◌, ◌<◌, ◌≤◌, [], ◌∷◌, length, take, true, IsTrue, IfOk, OnOk, OnErr, slice_index};
ghost use Rattle.page_arena.specs.declared.TheConstants.{PAGE_LENGTH};
ghost use Rattle.shadow_memory.specs.KnownBytes.{is_touched};
ghost use Rattle.shadow_memory.specs.Runs.{AreKnown, compared, is_alike, is_known, IsComparison, IsLeadingCount};
ghost use Rattle.shadow_memory.specs.Shadow.{AreSame, AreWritten};

use crate::known_bytes::KeptBytes;
use base::NoMemory;
use page_arena::PAGE_LENGTH;

/// Bytes of a run that are not the known ones, by their places in the run: from `start` on, up to but without
/// `end`.
#[derive(Clone, Copy, PartialEq, Eq, Debug)]
pub struct Difference {
    pub start: usize,
    pub end: usize,
}

/// The number of the bytes left that are in the same page, from an address on.
#[inline(always)]
fn count_in_page(addr: usize, left: usize) -> usize
    ensures page { addr % PAGE_LENGTH + result ≤ PAGE_LENGTH }
    ensures most { result ≤ left }
    ensures some { 0 < left → 0 < result }
{
    left.min(PAGE_LENGTH - addr % PAGE_LENGTH)
}

/// The number of bytes, from the first on, that are all equal to the known ones, or all different.
#[inline(always)]
fn leading_count(known: &[u8], bytes: &[u8], alike: bool) -> usize
    requires { length known.now ≡ length bytes.now }
    ensures { IsLeadingCount (is_alike known.now bytes.now) alike (length bytes.now) result }
{
    // a comparison by the library pays for long runs alone
    if alike && bytes.len() > 8 && known == bytes {
        return bytes.len();
    }
    'bytes: for k in 0..bytes.len() {
        if (known[k] == bytes[k]) != alike {
            return k;
        }
    }
    bytes.len()
}

/// The number of bytes of a run within one page, from the first on, that are all the known ones, or all different.
#[inline(always)]
fn leading_in_page(kept: &KeptBytes, addr: usize, bytes: &[u8], known: bool) -> usize
    requires { addr % PAGE_LENGTH + length bytes.now ≤ PAGE_LENGTH }
    ensures { IsLeadingCount (is_known kept.now.bytes addr bytes.now) known (length bytes.now) result }
{
    let offset = addr % PAGE_LENGTH;
    let there = &kept.page(addr / PAGE_LENGTH)[offset..offset + bytes.len()];
    leading_count(there, bytes, known)
}

/// Whether all bytes of a run are the known ones.
#[inline(always)]
pub(crate) fn are_known(kept: &KeptBytes, addr: usize, bytes: &[u8]) -> bool
    requires { addr + length bytes.now ≤ usize.MAX }
    ensures { IsTrue result ↔ AreKnown kept.now.bytes addr bytes.now }
{
    let count = if bytes.len() <= PAGE_LENGTH - addr % PAGE_LENGTH {
        leading_in_page(kept, addr, bytes, true)
    } else {
        known_count(kept, addr, bytes, true)
    };
    count == bytes.len()
}

/// The byte that is known at an address.
#[inline(always)]
pub(crate) fn byte_at(kept: &KeptBytes, addr: usize) -> u8
    ensures { result ≡ slice_index kept.now.bytes addr }
{
    kept.page(addr / PAGE_LENGTH)[addr % PAGE_LENGTH]
}

/// The frozen byte at an address.
pub(crate) fn frozen_byte_at(kept: &KeptBytes, addr: usize) -> u8
    ensures { result ≡ slice_index kept.now.frozen addr }
{
    let block = kept.frozen_block(addr / PAGE_LENGTH);
    match block.get(addr % PAGE_LENGTH) {
        Some(byte) => *byte,
        None => 0,
    }
}

/// The number of bytes of a run, from the first on, that are all the known ones, or all different.
pub(crate) fn known_count(kept: &KeptBytes, addr: usize, bytes: &[u8], known: bool) -> usize
    requires { addr + length bytes.now ≤ usize.MAX }
    ensures { IsLeadingCount (is_known kept.now.bytes addr bytes.now) known (length bytes.now) result }
{
    let mut count = 0;
    'pages: while count < bytes.len() {
        let at = addr + count;
        let part = count_in_page(at, bytes.len() - count);
        let offset = at % PAGE_LENGTH;
        let there = &kept.page(at / PAGE_LENGTH)[offset..offset + part];
        let leading = leading_count(there, &bytes[count..count + part], known);
        count += leading;
        if leading < part {
            return count;
        }
    }
    count
}

/// Takes a byte as the known one at an address.
///
/// # Errors
/// `NoMemory` if an allocation failed; all known bytes are as before then.
#[inline(always)]
pub(crate) fn take_byte(kept: &mut KeptBytes, addr: usize, byte: u8) -> Result<(), NoMemory>
    ensures ok { OnOk result (AreWritten kept.old.bytes addr (byte ∷ []) kept.new.bytes) }
    ensures err { OnErr result (AreSame kept.old.bytes kept.new.bytes) }
    ensures frozen { kept.new.frozen ≡ kept.old.frozen }
{
    let place = addr / PAGE_LENGTH;
    kept.touch(place)?;
    kept.put(place, addr % PAGE_LENGTH, &[byte]);
    Ok(())
}

/// Takes the bytes of a run, each as the known one at its address.
///
/// # Errors
/// `NoMemory` if an allocation failed; all known bytes are as before then.
#[inline(always)]
pub(crate) fn take_run(kept: &mut KeptBytes, addr: usize, bytes: &[u8]) -> Result<(), NoMemory>
    requires { addr + length bytes.now ≤ usize.MAX }
    ensures ok { OnOk result (AreWritten kept.old.bytes addr bytes.now kept.new.bytes) }
    ensures err { OnErr result (AreSame kept.old.bytes kept.new.bytes) }
    ensures frozen { kept.new.frozen ≡ kept.old.frozen }
{
    let offset = addr % PAGE_LENGTH;
    if bytes.len() > PAGE_LENGTH - offset {
        return take_pages(kept, addr, bytes);
    }
    let place = addr / PAGE_LENGTH;
    kept.touch(place)?;
    kept.put(place, offset, bytes);
    Ok(())
}

/// Takes the bytes of a run in several pages. Nothing is written before each place has a page.
fn take_pages(kept: &mut KeptBytes, addr: usize, bytes: &[u8]) -> Result<(), NoMemory>
    requires { addr + length bytes.now ≤ usize.MAX }
    ensures ok { OnOk result (AreWritten kept.old.bytes addr bytes.now kept.new.bytes) }
    ensures err { OnErr result (AreSame kept.old.bytes kept.new.bytes) }
    ensures frozen { kept.new.frozen ≡ kept.old.frozen }
{
    let first = addr / PAGE_LENGTH;
    let last = (addr + bytes.len()) / PAGE_LENGTH;
    touch_all(kept, first, last + 1)?;
    put_all(kept, addr, bytes);
    Ok(())
}

/// Makes sure that each place of a range has a page.
///
/// # Errors
/// `NoMemory` if an allocation failed; all bytes are as before in any case.
fn touch_all(kept: &mut KeptBytes, first: usize, end: usize) -> Result<(), NoMemory>
    requires { first ≤ «end» }
    ensures ok { OnOk result ((place : ℕ) → first ≤ place → place < «end» → is_touched kept.new place ≡ true) }
    ensures same { AreSame kept.old.bytes kept.new.bytes }
    ensures frozen { kept.new.frozen ≡ kept.old.frozen }
{
    'places: for place in first..end {
        kept.touch(place)?;
    }
    Ok(())
}

/// Writes bytes into places that were touched.
fn put_all(kept: &mut KeptBytes, addr: usize, bytes: &[u8])
    requires fits { addr + length bytes.now ≤ usize.MAX }
    requires touched { (at : ℕ) → addr ≤ at → at < addr + length bytes.now
        → is_touched kept.old (at / PAGE_LENGTH) ≡ true }
    ensures written { AreWritten kept.old.bytes addr bytes.now kept.new.bytes }
    ensures frozen { kept.new.frozen ≡ kept.old.frozen }
{
    let mut done = 0;
    'pages: while done < bytes.len() {
        let at = addr + done;
        let part = count_in_page(at, bytes.len() - done);
        kept.put(
            at / PAGE_LENGTH,
            at % PAGE_LENGTH,
            &bytes[done..done + part],
        );
        done += part;
    }
}

/// Takes the first run of bytes that are not the known ones.
///
/// # Errors
/// `NoMemory` if an allocation failed; all known bytes are as before then.
#[inline(always)]
pub(crate) fn take_difference(
    kept: &mut KeptBytes,
    addr: usize,
    bytes: &[u8],
) -> Result<Option<Difference>, NoMemory>
    requires { addr + length bytes.now ≤ usize.MAX }
    ensures found { IfOk result (λ found. IsComparison kept.old.bytes addr bytes.now found) }
    ensures taken { IfOk result (λ found.
        AreWritten kept.old.bytes addr (take (compared bytes.now found) bytes.now) kept.new.bytes) }
    ensures err { OnErr result (AreSame kept.old.bytes kept.new.bytes) }
    ensures frozen { kept.new.frozen ≡ kept.old.frozen }
{
    let start = known_count(kept, addr, bytes, true);
    if start == bytes.len() {
        return Ok(None);
    }
    let rest = &bytes[start..];
    let count = known_count(kept, addr + start, rest, false);
    take_run(kept, addr + start, &rest[..count])?;
    let end = start + count;
    Ok(Some(Difference { start, end }))
}
