// Sections (Core 1.0, 5.5.2).

ghost use Rattle.std.specs.Prelude.{◌≡◌, ℕ, ◌^◌, ◌<◌, ◌++◌, length, OnOk, map, flat_map, option_to_list, Option};
ghost use Rattle.std.specs.List.{AllByRecursion};
ghost use Rattle.wasm_encode.specs.Lengths.{at_most_u64};
ghost use Rattle.wasm_encode.specs.Vectors.{start_section, vector_section};

use crate::encoding::Encoding;
use crate::lengths::{sized_length, u32_length};
use crate::parts::push_marked;
use crate::vectors::{vector_length, write_vector};
use base::NoMemory;
use base::marks::SECTION_START;
use leb_bytes::push_u32;

/// The number of bytes of the section of a list, whatever its id: 0 if the list is empty.
pub(crate) fn section_length<E: Encoding>(items: &[E::Item]) -> u64
    requires { AllByRecursion E.fits items.now }
    ensures { (id : ℕ) → result ≡ at_most_u64 (length (vector_section id E.bytes items.now)) }
{
    if items.is_empty() {
        0
    } else {
        sized_length(vector_length::<E>(items)).saturating_add(1)
    }
}

/// Appends the section of a list, if the list is not empty.
pub(crate) fn write_section<E: Encoding>(
    id: u8,
    items: &[E::Item],
    out: &mut Vec<u8>,
) -> Result<(), NoMemory>
    requires fits { AllByRecursion E.fits items.now }
    requires sizes { length (vector_section id E.bytes items.now) < 2 ^ 32 }
    ensures { OnOk result (out.new.items ≡ out.old.items ++ vector_section id E.bytes items.now) }
{
    if items.is_empty() {
        return Ok(());
    }
    push_marked(out, id, vector_length::<E>(items) as u32)?;
    write_vector::<E>(items, out)
}

/// How many bytes the start section has (Core 1.0, 5.5.11).
pub(crate) fn start_length(start: Option<u32>) -> u64
    ensures { result ≡ at_most_u64 (length (start_section start)) }
{
    match start {
        None => 0,
        Some(func) => sized_length(u32_length(u64::from(func))).saturating_add(1),
    }
}

/// Appends the start section, if there is one.
pub(crate) fn write_start(start: Option<u32>, out: &mut Vec<u8>) -> Result<(), NoMemory>
    ensures { OnOk result (out.new.items ≡ out.old.items ++ start_section start) }
{
    match start {
        None => Ok(()),
        Some(func) => {
            push_marked(out, SECTION_START, u32_length(u64::from(func)) as u32)?;
            push_u32(out, func)
        }
    }
}
