// Known bytes in pages, one for each place that was touched. A place is the bytes of one page; all bytes of a
// place that was not touched are zero. Frozen bytes are kept in pages of their own.

ghost use Rattle.std.specs.Prelude.{◌≡◌, ℕ, ◌+◌, ◌*◌, ◌<◌, ◌≤◌, length, true, Some, None, IfOk, OnOk, OnErr, IsSome, replicate, slice_index};
ghost use Rattle.page_arena.specs.declared.TheConstants.{PAGE_LENGTH};
ghost use Rattle.shadow_memory.specs.KnownBytes.{is_touched, page_of, AreBytesOf, AreCopies, AreExtended, AreKept, AreMore, IsCopy};
ghost use Rattle.shadow_memory.specs.Shadow.{AreSame, AreWritten, IsBlock};

use base::NoMemory;
use page_arena::{PAGE_LENGTH, PageArena, PageId};
use std::alloc::Global;
use std::marker::Model;

/// The bytes of a place that was not touched.
static ZEROS: [u8; 4096] = [0; 4096];

/// Known bytes, and frozen bytes.
#[derive(Drop)]
pub(crate) struct KeptBytes {
    places: Vec<Option<PageId>>,
    frozen: Vec<Option<PageId>>,
    arena: PageArena,
}

impl Model for KeptBytes {
    ghost use Rattle.shadow_memory.specs.KnownBytes.{Kept, kept_of, AreFrozen, AreKept};

    ghost Value = { Kept };

    ghost view = { λ kept. kept_of kept.places.items kept.frozen.items kept.arena };

    ghost invariant = { λ kept. AreKept kept.places.items kept.arena
        × AreFrozen kept.places.items kept.frozen.items kept.arena };
}

impl KeptBytes {
    /// Zeros everywhere, and no frozen bytes. Takes no memory.
    pub(crate) fn new(alloc: Global) -> KeptBytes
        ensures known { (at : ℕ) → slice_index result.bytes at ≡ 0 }
        ensures frozen { (at : ℕ) → slice_index result.frozen at ≡ 0 }
    {
        KeptBytes {
            places: Vec::new(alloc),
            frozen: Vec::new(alloc),
            arena: PageArena::new(alloc),
        }
    }

    /// The bytes of a place.
    #[inline(always)]
    pub(crate) fn page(&self, place: usize) -> &[u8]
        ensures { AreBytesOf self.now.bytes place result.now }
    {
        match page_id(&self.places, place) {
            Some(id) => self.arena.page(id),
            None => zeros(),
        }
    }

    /// Writes bytes into a place that was touched, from an offset on.
    #[inline(always)]
    pub(crate) fn put(&mut self, place: usize, offset: usize, bytes: &[u8])
        requires touched { is_touched self.old place ≡ true }
        requires fits { offset + length bytes.now ≤ PAGE_LENGTH }
        ensures written { AreWritten self.old.bytes (place * PAGE_LENGTH + offset) bytes.now self.new.bytes }
        ensures touched { self.new.touched ≡ self.old.touched }
        ensures frozen { self.new.frozen ≡ self.old.frozen }
    {
        let Some(id) = page_id(&self.places, place) else {
            unreachable!();
        };
        let end = offset + bytes.len();
        self.arena.page_mut(id)[offset..end].copy_from_slice(bytes);
    }

    /// Makes sure that a place has a page.
    ///
    /// # Errors
    /// `NoMemory` if an allocation failed; all bytes are as before in any case.
    #[inline(always)]
    pub(crate) fn touch(&mut self, place: usize) -> Result<(), NoMemory>
        requires { place < usize.MAX }
        ensures ok { OnOk result (is_touched self.new place ≡ true) }
        ensures others { (other : ℕ) → is_touched self.old other ≡ true → is_touched self.new other ≡ true }
        ensures same { AreSame self.old.bytes self.new.bytes }
        ensures frozen { self.new.frozen ≡ self.old.frozen }
    {
        if page_id(&self.places, place).is_some() {
            return Ok(());
        }
        make_page(&mut self.places, &mut self.arena, place)
    }

    /// Freezes the known bytes: a copy of them replaces the frozen bytes, and later writes do not show in it.
    ///
    /// # Errors
    /// `NoMemory` if an allocation failed; nothing has changed then.
    pub(crate) fn freeze(&mut self) -> Result<(), NoMemory>
        ensures ok { OnOk result (self.new ≡ record self.old { frozen = self.old.bytes }) }
        ensures err { OnErr result (self.new ≡ self.old) }
    {
        let alloc = *self.places.allocator();
        let copies = copied_places(alloc, self.places.as_slice(), &mut self.arena)?;
        self.frozen = copies;
        Ok(())
    }

    /// The frozen bytes of a place; no bytes if its page was not kept.
    pub(crate) fn frozen_block(&self, place: usize) -> &[u8]
        ensures { IsBlock self.now.frozen place result.now }
    {
        match page_id(&self.frozen, place) {
            Some(id) => self.arena.page(id),
            None => &[],
        }
    }
}

/// The page of a place.
#[inline(always)]
fn page_id(places: &[Option<PageId>], place: usize) -> Option<PageId>
    ensures { result ≡ page_of places.now place }
{
    match places.get(place) {
        Some(id) => *id,
        None => None,
    }
}

/// The bytes of a place that was not touched.
#[inline(always)]
fn zeros() -> &'static [u8]
    ensures { result.now ≡ replicate PAGE_LENGTH 0 }
{
    &ZEROS
}

/// Gives a place that was not touched a page of zeros.
///
/// # Errors
/// `NoMemory` if an allocation failed; all bytes are as before in any case.
#[cold]
#[inline(never)]
fn make_page(
    places: &mut Vec<Option<PageId>>,
    arena: &mut PageArena,
    place: usize,
) -> Result<(), NoMemory>
    requires below { place < usize.MAX }
    requires kept { AreKept places.old.items arena.old }
    requires untouched { page_of places.old.items place ≡ None }
    ensures ok { OnOk result (IsSome (page_of places.new.items place)) }
    ensures kept { AreExtended places.old.items arena.old places.new.items arena.new }
{
    widen(places, place)?;
    let id = arena.new_page()?;
    places[place] = Some(id);
    Ok(())
}

/// Makes room for a place.
fn widen(places: &mut Vec<Option<PageId>>, place: usize) -> Result<(), NoMemory>
    requires { place < usize.MAX }
    ensures ok { OnOk result (place < length places.new.items) }
    ensures same { (other : ℕ) → page_of places.new.items other ≡ page_of places.old.items other }
{
    if places.len() <= place {
        places.resize(place + 1, None)?;
    }
    Ok(())
}

/// Copies of the pages of places.
///
/// # Errors
/// `NoMemory` if an allocation failed; all pages are as before in any case.
fn copied_places(
    alloc: Global,
    places: &[Option<PageId>],
    arena: &mut PageArena,
) -> Result<Vec<Option<PageId>>, NoMemory>
    requires { AreKept places.now arena.old }
    ensures copies { IfOk result (λ copies. AreCopies places.now arena.old copies.items arena.new) }
    ensures kept { AreKept places.now arena.new }
    ensures more { AreMore arena.old arena.new }
{
    let mut copies = Vec::with_capacity(alloc, places.len())?;
    'places: for place in 0..places.len() {
        let copy = copied_page(arena, page_id(places, place))?;
        copies.push(copy)?;
    }
    Ok(copies)
}

/// A copy of the page of a place; `None` if the place has no page.
///
/// # Errors
/// `NoMemory` if an allocation failed; all pages are as before in any case.
fn copied_page(arena: &mut PageArena, id: Option<PageId>) -> Result<Option<PageId>, NoMemory>
    requires { (there : PageId) → id ≡ Some there → there.number < length arena.old }
    ensures ok { IfOk result (λ copy. IsCopy id arena.old copy arena.new) }
    ensures err { OnErr result (arena.new ≡ arena.old) }
{
    match id {
        Some(id) => Ok(Some(arena.copy_page(id)?)),
        None => Ok(None),
    }
}
