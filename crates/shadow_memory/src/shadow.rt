// What is known of a memory.

ghost use Rattle.std.specs.Prelude.{◌≡◌, ◌≢◌, ◌↔◌, ◌+◌, ◌≤◌, [], ◌∷◌, length, slice_index, take, Ok, IsTrue, IsOk, IfOk, OnOk, OnErr};
ghost use Rattle.history_spec.specs.Store.{Store};
ghost use Rattle.history_spec.specs.Instantiation as history;
ghost use Rattle.shadow_memory.specs.Opening.{IsOpening};
ghost use Rattle.shadow_memory.specs.Shadow.{known_byte, to_freeze, HasFrozenNothing, HasTaken, IsBlock, IsUnchanged};
ghost use Rattle.shadow_memory.specs.Runs.{AreKnown, compared, IsComparison};

use crate::known_bytes::KeptBytes;
use crate::opening::opening;
use crate::runs::{
    Difference, are_known, byte_at, frozen_byte_at, take_byte, take_difference, take_run,
};
use base::NoMemory;
use host_script::Supply;
use std::alloc::Global;
use std::marker::Model;
use wasm_validate::Checked;

/// What is known of a memory: the byte at each address, and the number of pages. In addition, the number of
/// pages noticed, and what was known when the memory was frozen.
#[derive(Drop)]
pub struct ShadowMemory {
    bytes: KeptBytes,
    known: u32,
    noticed: u32,
    frozen_pages: u32,
}

impl Model for ShadowMemory {
    ghost use Rattle.shadow_memory.specs.Shadow.{Shadow};

    ghost Value = { Shadow };

    ghost view = { λ shadow. record {
      bytes = shadow.bytes.bytes;
      known = shadow.known;
      noticed = shadow.noticed;
      frozen = record { bytes = shadow.bytes.frozen; pages = shadow.frozen_pages };
    } };
}

impl ShadowMemory {
    /// What is known at the beginning of a run of a module that links with a supply: the memory that it is
    /// instantiated with (Core 1.0, 4.5.4). Nothing is frozen.
    ///
    /// # Errors
    /// `NoMemory` if an allocation failed.
    pub fn of_opening(
        alloc: Global,
        checked: &Checked,
        supply: &Supply,
    ) -> Result<ShadowMemory, NoMemory>
        requires { IsOk (history.instantiate checked.now supply.now) }
        ensures opens { IfOk result (λ shadow. (store : Store)
            → history.instantiate checked.now supply.now ≡ Ok store → IsOpening store shadow) }
        ensures frozen { IfOk result (λ shadow. HasFrozenNothing shadow) }
    {
        let (bytes, pages) = opening(alloc, checked.module(), supply)?;
        Ok(ShadowMemory {
            bytes,
            known: pages,
            noticed: pages,
            frozen_pages: 0,
        })
    }

    /// Whether a byte is not the one that is known at an address.
    #[inline]
    pub fn differs(&self, addr: u64, byte: u8) -> bool
        ensures { IsTrue result ↔ (known_byte self.now addr ≢ byte) }
    {
        byte_at(&self.bytes, addr as usize) != byte
    }

    /// Whether all bytes of a run are the known ones.
    #[inline(always)]
    pub fn knows(&self, addr: u64, bytes: &[u8]) -> bool
        requires { addr + length bytes.now ≤ u64.MAX }
        ensures { IsTrue result ↔ AreKnown self.now.bytes addr bytes.now }
    {
        are_known(&self.bytes, addr as usize, bytes)
    }

    /// Takes a byte as the known one at an address.
    ///
    /// # Errors
    /// `NoMemory` if an allocation failed; what is known is as before then.
    #[inline]
    pub fn take(&mut self, addr: u64, byte: u8) -> Result<(), NoMemory>
        ensures ok { OnOk result (HasTaken self.old addr (byte ∷ []) self.new) }
        ensures err { OnErr result (IsUnchanged self.old self.new) }
    {
        take_byte(&mut self.bytes, addr as usize, byte)
    }

    /// Takes the bytes of a run, each as the known one at its address.
    ///
    /// # Errors
    /// `NoMemory` if an allocation failed; what is known is as before then.
    #[inline(always)]
    pub fn take_run(&mut self, addr: u64, bytes: &[u8]) -> Result<(), NoMemory>
        requires { addr + length bytes.now ≤ u64.MAX }
        ensures ok { OnOk result (HasTaken self.old addr bytes.now self.new) }
        ensures err { OnErr result (IsUnchanged self.old self.new) }
    {
        take_run(&mut self.bytes, addr as usize, bytes)
    }

    /// Compares the bytes of a run with the known ones. Takes the first run of bytes that differ, and returns
    /// it; `None` if all are known.
    ///
    /// # Errors
    /// `NoMemory` if an allocation failed; what is known is as before then.
    #[inline]
    pub fn take_difference(
        &mut self,
        addr: u64,
        bytes: &[u8],
    ) -> Result<Option<Difference>, NoMemory>
        requires { addr + length bytes.now ≤ u64.MAX }
        ensures found { IfOk result (λ found. IsComparison self.old.bytes addr bytes.now found) }
        ensures taken { IfOk result
            (λ found. HasTaken self.old addr (take (compared bytes.now found) bytes.now) self.new) }
        ensures err { OnErr result (IsUnchanged self.old self.new) }
    {
        take_difference(&mut self.bytes, addr as usize, bytes)
    }

    /// The number of known pages.
    pub fn known_pages(&self) -> u32
        ensures { result ≡ self.now.known }
    {
        self.known
    }

    /// The number of noticed pages.
    pub fn noticed_pages(&self) -> u32
        ensures { result ≡ self.now.noticed }
    {
        self.noticed
    }

    /// Sets the number of known pages.
    pub fn set_known(&mut self, pages: u32)
        ensures { self.new ≡ record self.old { known = pages } }
    {
        self.known = pages;
    }

    /// Sets the number of noticed pages.
    pub fn set_noticed(&mut self, pages: u32)
        ensures { self.new ≡ record self.old { noticed = pages } }
    {
        self.noticed = pages;
    }

    /// Freezes what is known: later changes do not show in what is frozen, which replaces what was frozen before.
    ///
    /// # Errors
    /// `NoMemory` if an allocation failed; nothing has changed then.
    pub fn freeze(&mut self) -> Result<(), NoMemory>
        ensures ok { OnOk result (self.new ≡ record self.old { frozen = to_freeze self.old }) }
        ensures err { OnErr result (self.new ≡ self.old) }
    {
        self.bytes.freeze()?;
        self.frozen_pages = self.known;
        Ok(())
    }

    /// The number of frozen pages.
    pub fn frozen_pages(&self) -> u32
        ensures { result ≡ self.now.frozen.pages }
    {
        self.frozen_pages
    }

    /// The frozen byte at an address.
    pub fn frozen_byte(&self, addr: u64) -> u8
        ensures { result ≡ slice_index self.now.frozen.bytes addr }
    {
        frozen_byte_at(&self.bytes, addr as usize)
    }

    /// The frozen bytes of a place, that is 4,096 bytes from an address on that is a multiple of 4,096; or no bytes
    /// if no byte of the place was ever taken, so that all are zeros.
    pub fn frozen_block(&self, place: usize) -> &[u8]
        ensures { IsBlock self.now.frozen.bytes place result.now }
    {
        self.bytes.frozen_block(place)
    }
}
