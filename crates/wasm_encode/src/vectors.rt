// Vectors of items (Core 1.0, 5.1.3).

ghost use Rattle.std.specs.Prelude.{◌≡◌, ℕ, ◌^◌, ◌<◌, ◌++◌, List, length, OnOk, flat_map};
ghost use Rattle.std.specs.List.{AllByRecursion};
ghost use Rattle.wasm_encode.specs.Lengths.{at_most_u64};
ghost use Rattle.wasm_syntax.specs.Encoding.Shortest.{vector_bytes};

use crate::encoding::Encoding;
use crate::lengths::u32_length;
use base::NoMemory;
use leb_bytes::push_u32;

/// How many bytes the encodings of the items have together.
pub(crate) fn items_length<E: Encoding>(items: &[E::Item]) -> u64
    requires { AllByRecursion E.fits items.now }
    ensures { result ≡ at_most_u64 (length (flat_map E.bytes items.now)) }
{
    let mut total: u64 = 0;
    'items: for item in items {
        total = total.saturating_add(E::length(item));
    }
    total
}

/// Appends the encodings of the items.
pub(crate) fn write_items<E: Encoding>(items: &[E::Item], out: &mut Vec<u8>) -> Result<(), NoMemory>
    requires fits { AllByRecursion E.fits items.now }
    requires sizes { length (flat_map E.bytes items.now) < 2 ^ 32 }
    ensures { OnOk result (out.new.items ≡ out.old.items ++ flat_map E.bytes items.now) }
{
    'items: for item in items {
        E::write(item, out)?;
    }
    Ok(())
}

/// How many bytes the vector of the items has (Core 1.0, 5.1.3).
pub(crate) fn vector_length<E: Encoding>(items: &[E::Item]) -> u64
    requires { AllByRecursion E.fits items.now }
    ensures { result ≡ at_most_u64 (length (vector_bytes E.bytes items.now)) }
{
    u32_length(items.len() as u64).saturating_add(items_length::<E>(items))
}

/// Appends the vector of the items: how many they are, and each (Core 1.0, 5.1.3).
pub(crate) fn write_vector<E: Encoding>(
    items: &[E::Item],
    out: &mut Vec<u8>,
) -> Result<(), NoMemory>
    requires fits { AllByRecursion E.fits items.now }
    requires sizes { length (vector_bytes E.bytes items.now) < 2 ^ 32 }
    ensures { OnOk result (out.new.items ≡ out.old.items ++ vector_bytes E.bytes items.now) }
{
    push_u32(out, items.len() as u32)?;
    write_items::<E>(items, out)
}
