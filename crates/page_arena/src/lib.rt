//! Pages of 4,096 bytes that stay where they are while more are made.
#![tactic(auto)]

ghost use Rattle.std.specs.Prelude.{◌≡◌, ◌<◌, [], ◌∷◌, ◌++◌, length, replicate, IfOk, OnOk, OnErr};
ghost use Rattle.std.specs.Borrow.{sem};
ghost use Rattle.page_arena.specs.Lending.{LendsPage};
ghost use Rattle.page_arena.specs.Pages.{page_at};

use base::NoMemory;
use raw_page::RawPage;
use std::alloc::Global;
use std::marker::Model;

/// The number of bytes of a page.
pub const PAGE_LENGTH: usize = raw_page::PAGE_LENGTH;

/// A page of an arena, by its number: pages are counted from 0 in the order in which they are made.
#[derive(Clone, Copy, PartialEq, Eq, Debug)]
pub struct PageId {
    pub number: usize,
}

/// Pages of 4,096 bytes. A page stays where it is while more are made, and all are given back at the
/// end of the arena.
#[derive(Drop)]
pub struct PageArena {
    pages: Vec<RawPage>,
}

impl Model for PageArena {
    ghost use Rattle.std.specs.Prelude.{ℕ, List, map};

    ghost Value = { List (List ℕ) };

    ghost view = { λ arena. map (λ page. page.bytes) arena.pages.items };
}

impl PageArena {
    /// An arena without pages. Takes no memory.
    pub fn new(alloc: Global) -> PageArena
        ensures { result ≡ [] }
    {
        PageArena {
            pages: Vec::new(alloc),
        }
    }

    /// The number of pages.
    pub fn count(&self) -> usize
        ensures { result ≡ length self.now }
    {
        self.pages.len()
    }

    /// Makes a page of zeros.
    ///
    /// # Errors
    /// If an allocation failed; all pages are as before then.
    pub fn new_page(&mut self) -> Result<PageId, NoMemory>
        ensures number { IfOk result (λ id. id.number ≡ length self.old) }
        ensures ok { OnOk result (self.new ≡ self.old ++ replicate PAGE_LENGTH 0 ∷ []) }
        ensures err { OnErr result (self.new ≡ self.old) }
    {
        let page = RawPage::new(*self.pages.allocator())?;
        self.push(page)
    }

    /// Makes a page that begins with the bytes of another. Writes to either do not show in the other.
    ///
    /// # Errors
    /// If an allocation failed; all pages are as before then.
    pub fn copy_page(&mut self, id: PageId) -> Result<PageId, NoMemory>
        requires { id.number < length self.old }
        ensures number { IfOk result (λ copy. copy.number ≡ length self.old) }
        ensures ok { OnOk result (self.new ≡ self.old ++ page_at self.old id.number ∷ []) }
        ensures err { OnErr result (self.new ≡ self.old) }
    {
        let alloc = *self.pages.allocator();
        let copy = self.pages[id.number].copy(alloc)?;
        self.push(copy)
    }

    /// The bytes of a page.
    #[inline(always)]
    pub fn page(&self, id: PageId) -> &[u8]
        requires { id.number < length self.now }
        ensures value { result.now ≡ page_at self.now id.number }
        ensures size { length result.now ≡ PAGE_LENGTH }
    {
        self.pages[id.number].as_slice()
    }

    /// The bytes of a page, to be changed.
    #[inline(always)]
    pub fn page_mut(&mut self, id: PageId) -> &mut [u8]
        requires { id.number < length self.old }
        ensures value { result.now ≡ page_at self.old id.number }
        ensures size { length result.now ≡ PAGE_LENGTH }
        ensures* writes_back { sem 𝓛 (LendsPage self.entry id.number result) }
    {
        // a page's length is known by its type alone
        let _length = self.pages[id.number].as_slice().len();
        let page = &mut self.pages[id.number];
        page.get_mut().as_mut_slice()
    }

    fn push(&mut self, page: RawPage) -> Result<PageId, NoMemory>
        ensures number { IfOk result (λ id. id.number ≡ length self.old) }
        ensures ok { OnOk result (self.new ≡ self.old ++ page.bytes ∷ []) }
        ensures err { OnErr result (self.new ≡ self.old) }
    {
        let number = self.pages.len();
        self.pages.push(page)?;
        Ok(PageId { number })
    }
}
