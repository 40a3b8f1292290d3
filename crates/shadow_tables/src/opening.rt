// The entries of the table at the beginning of a run.

ghost use Rattle.std.specs.Prelude.{◌≡◌, ◌≤◌, IsTrue, Ok, IsOk, IfOk, Some, fold, length, map};
ghost use Rattle.history_spec.specs.Store.{Store};
ghost use Rattle.history_spec.specs.Instantiation as history;
ghost use Rattle.wasm_store.specs.Calls.{entries_in};
ghost use Rattle.wasm_store.specs.Parts.{minimum_of};
ghost use Rattle.shadow_tables.specs.Segments.{is_within, AreWithin};

use base::NoMemory;
use host_script::Supply;
use instantiation_parts::{instantiated_parts, offset_of, table_limits};
use std::alloc::Global;
use wasm_syntax::{ElemSeg, Limits, Module, Val};

/// The entries of the table that a module is instantiated with, empty if there is no table. The module links
/// with the supply.
///
/// # Errors
/// `NoMemory` if an allocation failed.
pub(crate) fn opening_entries(
    alloc: Global,
    module: &Module,
    supply: &Supply,
) -> Result<Vec<Option<u32>>, NoMemory>
    requires { IsOk (history.instantiate «module».now supply.now) }
    ensures is { IfOk result (λ entries. (store : Store)
        → history.instantiate «module».now supply.now ≡ Ok store
        → entries.items ≡ entries_in store) }
    ensures most { IfOk result (λ entries. length entries.items ≤ u32.MAX) }
{
    instantiated_parts();
    let size = entry_count(table_limits(module, supply)) as usize;
    let mut entries = vec![in alloc; None; size]?;
    write_elems(
        entries.as_mut_slice(),
        supply.globals.as_slice(),
        module.elems.as_slice(),
    );
    Ok(entries)
}

/// The number of entries that a table begins with.
fn entry_count(limits: Option<Limits>) -> u32
    ensures { result ≡ minimum_of limits }
{
    match limits {
        Some(limits) => limits.min,
        None => 0,
    }
}

/// Writes element segments one after another. They all end within the entries.
fn write_elems(entries: &mut [Option<u32>], imported: &[Val], elems: &[ElemSeg])
    requires { AreWithin imported.now (length entries.old) elems.now }
    ensures { entries.new ≡ fold (history.with_elem imported.now) entries.old elems.now }
{
    'elems: for elem in elems {
        write_elem(entries, imported, elem);
    }
}

/// Writes an element segment, which ends within the entries. A declared segment is not written.
fn write_elem(entries: &mut [Option<u32>], imported: &[Val], elem: &ElemSeg)
    requires { IsTrue (is_within imported.now (length entries.old) elem.now) }
    ensures { entries.new ≡ history.with_elem imported.now entries.old elem.now }
{
    if let ElemSeg::Active { offset, funcs, .. } = elem {
        let start = offset_of(imported, offset.as_slice()) as usize;
        let funcs = funcs.as_slice();
        put_funcs(&mut entries[start..start + funcs.len()], funcs);
    }
}

/// Replaces all entries by functions.
fn put_funcs(entries: &mut [Option<u32>], funcs: &[u32])
    requires { length entries.old ≡ length funcs.now }
    ensures { entries.new ≡ map (λ func. Some func) funcs.now }
{
    'funcs: for (at, func) in funcs.iter().enumerate() {
        entries[at] = Some(*func);
    }
}
