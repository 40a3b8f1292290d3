// The items of lists of a module.

ghost use Rattle.std.specs.Prelude.{◌≡◌, ℕ, ◌^◌, ◌<◌, ◌++◌, List, length, OnOk};
ghost use Rattle.wasm_encode.specs.Lengths.{at_most_u64};

use base::NoMemory;

/// How the items of a list are encoded.
pub(crate) trait Encoding {
    type Item;

    // The shortest encoding of an item.
    ghost bytes: { Self.Item → List ℕ };

    // What an item must satisfy to be encoded.
    ghost fits: { Self.Item → Type 0 };

    /// The number of bytes of the encoding of an item.
    fn length(item: &Self::Item) -> u64
        requires { fits item.now }
        ensures { result ≡ at_most_u64 (length (bytes item.now)) };

    /// Appends the encoding of an item.
    fn write(item: &Self::Item, out: &mut Vec<u8>) -> Result<(), NoMemory>
        requires fits { fits item.now }
        requires sizes { length (bytes item.now) < 2 ^ 32 }
        ensures { OnOk result (out.new.items ≡ out.old.items ++ bytes item.now) };

    // No encoding is empty, so a vector has no more items than bytes.
    ghost some: { (item : Self.Item) → fits item → 0 < length (bytes item) };
}
