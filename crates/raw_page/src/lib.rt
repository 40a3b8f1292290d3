//! A page of 4,096 bytes in raw memory. It stays where it is while its owner moves.
#![tactic(auto)]

ghost use Rattle.std.specs.Prelude.{◌≡◌, ℕ, List, length, replicate, IfOk};
ghost use Rattle.raw_page.specs.Ownership.{page_owns, page_shares};

use base::NoMemory;
use parts::BoxParts;
use std::alloc::Global;
use std::marker::Model;

mod loans;
mod parts;

/// The number of bytes of a page.
pub const PAGE_LENGTH: usize = 4_096;

/// The owner of one page: a pointer to its block, and the right to give that block back, which its drop
/// does.
pub struct RawPage {
    ptr: *mut [u8; 4096],
    alloc: Global,
    pub ghost bytes: { List ℕ },
}

impl Model for RawPage {
    ghost also_owns = { λ page. page_owns page.alloc page.ptr page.bytes };

    ghost also_shares = { λ page _ κ. page_shares page.ptr page.bytes κ };
}

impl RawPage {
    /// A page of zeros.
    ///
    /// # Errors
    /// If an allocation failed.
    pub fn new(alloc: Global) -> Result<RawPage, NoMemory>
        ensures { IfOk result (λ page. page.bytes ≡ replicate PAGE_LENGTH 0) }
    {
        Ok(RawPage::of_parts(BoxParts::of_box(Box::new(alloc, [0; 4096])?)))
    }

    /// A page apart from this one that begins with its bytes.
    ///
    /// # Errors
    /// If an allocation failed.
    pub fn copy(&self, alloc: Global) -> Result<RawPage, NoMemory>
        ensures { IfOk result (λ page. page.bytes ≡ self.now.bytes) }
    {
        let bytes = *self.get();
        Ok(RawPage::of_parts(BoxParts::of_box(Box::new(alloc, bytes)?)))
    }

    /// The bytes of the page.
    #[inline(always)]
    pub fn get(&self) -> &[u8; 4096]
        ensures { result.now ≡ self.now.bytes }
    {
        unsafe { &*self.ptr }
    }

    /// All bytes of the page.
    #[inline(always)]
    pub fn as_slice(&self) -> &[u8]
        ensures value { result.now ≡ self.now.bytes }
        ensures size { length result.now ≡ PAGE_LENGTH }
    {
        all_bytes(self.get())
    }

    /// The page that a box held.
    fn of_parts(parts: BoxParts<[u8; 4096], Global>) -> RawPage
        ensures { result.bytes ≡ parts.value }
    {
        let BoxParts { ptr, alloc } = parts;
        RawPage { ptr, alloc }
    }

    /// The parts of the box that holds the page.
    fn into_parts(self) -> BoxParts<[u8; 4096], Global>
        ensures { result.value ≡ self.bytes }
    {
        let RawPage { ptr, alloc } = self;
        BoxParts { ptr, alloc }
    }
}

impl Drop for RawPage {
    fn drop(self) {
        drop(self.into_parts().into_box());
    }
}

/// All bytes of an array of a page's length, which is in its type alone.
#[inline(always)]
fn all_bytes(page: &[u8; 4096]) -> &[u8]
    ensures value { result.now ≡ page.now }
    ensures size { length result.now ≡ PAGE_LENGTH }
{
    page
}
