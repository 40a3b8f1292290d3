// What is known of the memory at the beginning of a run.

ghost use Rattle.std.specs.Prelude.{◌≡◌, ℕ, ◌*◌, Ok, IfOk, IsOk, OnOk, slice_index};
ghost use Rattle.history_spec.specs.Store.{Store};
ghost use Rattle.history_spec.specs.Instantiation as history;
ghost use Rattle.wasm_store.specs.Calls.{bytes_in, pages_in};
ghost use Rattle.wasm_store.specs.Parts.{minimum_of};
ghost use Rattle.shadow_memory.specs.Opening.{EndWithin, HoldDatas};
ghost use Rattle.shadow_memory.specs.Shadow.{AreSame};

use crate::known_bytes::KeptBytes;
use crate::runs::take_run;
use base::NoMemory;
use host_script::Supply;
use instantiation_parts::{instantiated_parts, memory_limits, offset_of};
use std::alloc::Global;
use wasm_syntax::limits::PAGE_SIZE;
use wasm_syntax::{DataSeg, Limits, Module, Val};

/// The bytes of the memory that a module is instantiated with, and its number of pages. The module links with
/// the supply. Nothing is frozen.
///
/// # Errors
/// `NoMemory` if an allocation failed.
pub(crate) fn opening(
    alloc: Global,
    module: &Module,
    supply: &Supply,
) -> Result<(KeptBytes, u32), NoMemory>
    requires { IsOk (history.instantiate «module».now supply.now) }
    ensures opens { IfOk result (λ opening. (store : Store)
        → history.instantiate «module».now supply.now ≡ Ok store
        → AreSame (bytes_in store) opening.0.bytes × opening.1 ≡ pages_in store) }
    ensures frozen { IfOk result (λ opening. (at : ℕ) → slice_index opening.0.frozen at ≡ 0) }
{
    instantiated_parts();
    let pages = page_count(memory_limits(module, supply));
    let bytes = opening_bytes(alloc, module, supply)?;
    Ok((bytes, pages))
}

/// The bytes of the memory that a module is instantiated with. Nothing is frozen.
fn opening_bytes(alloc: Global, module: &Module, supply: &Supply) -> Result<KeptBytes, NoMemory>
    requires { IsOk (history.instantiate «module».now supply.now) }
    ensures opens { IfOk result (λ kept. (store : Store)
        → history.instantiate «module».now supply.now ≡ Ok store
        → AreSame (bytes_in store) kept.bytes) }
    ensures frozen { IfOk result (λ kept. (at : ℕ) → slice_index kept.frozen at ≡ 0) }
{
    instantiated_parts();
    // no segment ends past what 64 bits count
    let _length = byte_count(memory_limits(module, supply));
    let mut kept = KeptBytes::new(alloc);
    take_datas(
        &mut kept,
        supply.globals.as_slice(),
        module.datas.as_slice(),
    )?;
    Ok(kept)
}

/// Takes the bytes of data segments, one after another.
fn take_datas(kept: &mut KeptBytes, imported: &[Val], datas: &[DataSeg]) -> Result<(), NoMemory>
    requires { EndWithin imported.now usize.MAX datas.now }
    ensures taken { OnOk result (HoldDatas imported.now datas.now kept.old.bytes kept.new.bytes) }
    ensures frozen { kept.new.frozen ≡ kept.old.frozen }
{
    'datas: for segment in datas {
        let offset = offset_of(imported, segment.offset.as_slice());
        take_run(kept, offset as usize, segment.bytes.as_slice())?;
    }
    Ok(())
}

/// The number of pages that a memory begins with.
fn page_count(limits: Option<Limits>) -> u32
    ensures { result ≡ minimum_of limits }
{
    match limits {
        Some(limits) => limits.min,
        None => 0,
    }
}

/// The number of bytes that a memory begins with.
fn byte_count(limits: Option<Limits>) -> u64
    ensures { result ≡ minimum_of limits * PAGE_SIZE }
{
    page_count(limits) as u64 * PAGE_SIZE as u64
}
