// Element and data segments (Core 1.0, 2.5.7 and 2.5.8): whether they fit, and writing them.

ghost use Rattle.std.specs.Prelude.{◌≡◌, ◌+◌, [], ◌∷◌, All, IsTrue, None, map, nat_le};
ghost use Rattle.history_spec.specs.Instantiation as history;
ghost use Rattle.history_spec.specs.Instantiation.{data_fits, elem_fits, first_false, new_store};
ghost use Rattle.host_link.specs.Link.{HasLimits, data_fits_in, elem_fits_in, with_datas_in, with_elems_in};

use crate::sizes::{memory_size, table_size};
use host_script::Supply;
use instantiation_parts::offset_of;
use wasm_store::{OutOfBounds, OutOfTable, Store};
use wasm_syntax::{DataSeg, ElemSeg, Module, Val};

/// The place of the first segment that does not fit, element segments before data segments (Core
/// 1.0, 4.5.4). It is below the sum of two lengths, which 64 bits may not hold.
pub(crate) fn first_unfit(module: &Module, supply: &Supply) -> Option<u128>
    requires { HasLimits «module».now supply.now }
    ensures { result ≡ history.first_unfit «module».now supply.now.globals (new_store «module».now supply.now) }
{
    let imported = supply.globals.as_slice();
    let elems = module.elems.as_slice();
    if let Some(at) = first_unfit_elem(table_size(module, supply), imported, elems) {
        return Some(at as u128);
    }
    let at = first_unfit_data(
        memory_size(module, supply),
        imported,
        module.datas.as_slice(),
    )?;
    Some(elems.len() as u128 + at as u128)
}

/// The place of the first element segment that does not fit, counted among these.
fn first_unfit_elem(entries: u64, imported: &[Val], elems: &[ElemSeg]) -> Option<usize>
    ensures { result ≡ first_false 0 (map (elem_fits_in entries imported.now) elems.now) }
{
    'elems: for (at, elem) in elems.iter().enumerate() {
        if !elem_fits(entries, imported, elem) {
            return Some(at);
        }
    }
    None
}

/// Whether an element segment fits within a table. A segment that is only declared always fits.
fn elem_fits(entries: u64, imported: &[Val], elem: &ElemSeg) -> bool
    ensures { result ≡ elem_fits_in entries imported.now elem.now }
{
    match elem {
        ElemSeg::Active { offset, funcs, .. } => {
            let offset = offset_of(imported, offset.as_slice());
            is_within(offset, funcs.as_slice().len(), entries)
        }
        ElemSeg::Declared { .. } => true,
    }
}

/// The place of the first data segment that does not fit, counted among these.
fn first_unfit_data(bytes: u64, imported: &[Val], datas: &[DataSeg]) -> Option<usize>
    ensures { result ≡ first_false 0 (map (data_fits_in bytes imported.now) datas.now) }
{
    'datas: for (at, segment) in datas.iter().enumerate() {
        if !data_fits(bytes, imported, segment) {
            return Some(at);
        }
    }
    None
}

/// Whether a data segment is within a memory.
fn data_fits(bytes: u64, imported: &[Val], segment: &DataSeg) -> bool
    ensures { result ≡ data_fits_in bytes imported.now segment.now }
{
    let offset = offset_of(imported, segment.offset.as_slice());
    is_within(offset, segment.bytes.as_slice().len(), bytes)
}

/// Whether `count` bytes or entries from an offset on end within a size.
fn is_within(offset: u64, count: usize, size: u64) -> bool
    ensures { result ≡ nat_le (offset + count) size }
{
    match offset.checked_add(count as u64) {
        Some(end) => end <= size,
        None => false,
    }
}

/// Writes all segments, one after another. They all fit.
pub(crate) fn write_segments(store: &mut Store, imported: &[Val], module: &Module)
    requires { history.first_unfit «module».now imported.now store.old ≡ None }
    ensures { store.new ≡ history.with_segments «module».now imported.now store.old }
{
    write_elems(store, imported, module.elems.as_slice());
    write_datas(store, imported, module.datas.as_slice());
}

/// Writes element segments, one after another. They all fit.
fn write_elems(store: &mut Store, imported: &[Val], elems: &[ElemSeg])
    requires { All (λ elem. IsTrue (elem_fits imported.now store.old elem)) elems.now }
    ensures { store.new ≡ with_elems_in imported.now elems.now store.old }
{
    'elems: for elem in elems {
        write_elem(store, imported, elem);
    }
}

/// Writes an element segment, which fits. A segment that is only declared is not written.
fn write_elem(store: &mut Store, imported: &[Val], elem: &ElemSeg)
    requires { IsTrue (elem_fits imported.now store.old elem.now) }
    ensures { store.new ≡ with_elems_in imported.now (elem.now ∷ []) store.old }
{
    let ElemSeg::Active { offset, funcs, .. } = elem else {
        return;
    };
    match store.put_funcs(offset_of(imported, offset.as_slice()), funcs.as_slice()) {
        Ok(()) => (),
        Err(OutOfTable) => unreachable!(),
    }
}

/// Writes data segments, one after another. They all fit.
fn write_datas(store: &mut Store, imported: &[Val], datas: &[DataSeg])
    requires { All (λ segment. IsTrue (data_fits imported.now store.old segment)) datas.now }
    ensures { store.new ≡ with_datas_in imported.now datas.now store.old }
{
    'datas: for segment in datas {
        write_data(store, imported, segment);
    }
}

/// Writes a data segment, which fits.
fn write_data(store: &mut Store, imported: &[Val], segment: &DataSeg)
    requires { IsTrue (data_fits imported.now store.old segment.now) }
    ensures { store.new ≡ with_datas_in imported.now (segment.now ∷ []) store.old }
{
    let offset = offset_of(imported, segment.offset.as_slice());
    match store.put_bytes(offset, segment.bytes.as_slice()) {
        Ok(()) => (),
        Err(OutOfBounds) => unreachable!(),
    }
}
