//! A page that is lent to be changed.
ghost use Rattle.std.specs.Prelude.{◌≡◌};
ghost use Rattle.std.specs.Borrow.{sem};
ghost use Rattle.raw_page.specs.Lending.{LendsBytes};

use crate::RawPage;

impl RawPage {
    /// The bytes of the page, to be changed.
    #[inline(always)]
    pub fn get_mut(&mut self) -> &mut [u8; 4096]
        ensures* writes_back { sem 𝓛 (LendsBytes self.entry result) }
        ensures value { result.now ≡ self.old.bytes }
    {
        unsafe { &mut *self.ptr }
    }
}
