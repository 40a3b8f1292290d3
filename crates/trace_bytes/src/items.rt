// Items one after another.

ghost use Rattle.std.specs.Prelude.{◌≡◌, ◌^◌, ◌<◌, ◌++◌, length, OnOk, flat_map};
ghost use Rattle.std.specs.List.{AllByRecursion};
ghost use Rattle.wasm_syntax.specs.Encoding.Shortest.{vector_bytes};

use base::NoMemory;
use leb_bytes::push_u32;

/// How the items of a list are encoded.
pub(crate) trait Spelling {
    ghost use Rattle.std.specs.Prelude.{◌≡◌, ℕ, ◌++◌, List, OnOk};

    type Item;

    // the encoding of an item
    ghost bytes: { Self.Item → List ℕ };

    // what an item needs to have an encoding
    ghost fits: { Self.Item → Type 0 };

    /// Appends the encoding of an item.
    fn write(item: &Self::Item, out: &mut Vec<u8>) -> Result<(), NoMemory>
        requires { fits item.now }
        ensures { OnOk result (out.new.items ≡ out.old.items ++ bytes item.now) };
}

/// Appends the items.
pub(crate) fn write_items<S: Spelling>(items: &[S::Item], out: &mut Vec<u8>) -> Result<(), NoMemory>
    requires { AllByRecursion S.fits items.now }
    ensures { OnOk result (out.new.items ≡ out.old.items ++ flat_map S.bytes items.now) }
{
    'items: for item in items {
        S::write(item, out)?;
    }
    Ok(())
}

/// Appends the number of items, and the items.
pub(crate) fn write_counted<S: Spelling>(
    items: &[S::Item],
    out: &mut Vec<u8>,
) -> Result<(), NoMemory>
    requires few { length items.now < 2 ^ 32 }
    requires fit { AllByRecursion S.fits items.now }
    ensures { OnOk result (out.new.items ≡ out.old.items ++ vector_bytes S.bytes items.now) }
{
    push_u32(out, items.len() as u32)?;
    write_items::<S>(items, out)
}
