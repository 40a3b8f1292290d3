// Bytes, and bytes with their number in front.

ghost use Rattle.std.specs.Prelude.{◌≡◌, ◌^◌, ◌<◌, ◌++◌, ◌∷◌, [], length, OnOk};
ghost use Rattle.leb_bytes.specs.Unsigned.{u32_bytes};
ghost use Rattle.wasm_syntax.specs.Encoding.Shortest.{sized_bytes};

use base::NoMemory;
use leb_bytes::push_u32;

/// Appends a byte.
#[inline]
pub(crate) fn push_byte(out: &mut Vec<u8>, byte: u8) -> Result<(), NoMemory>
    ensures { OnOk result (out.new.items ≡ out.old.items ++ byte ∷ []) }
{
    out.push(byte)?;
    Ok(())
}

/// Appends two bytes.
#[inline]
pub(crate) fn push_pair(out: &mut Vec<u8>, first: u8, second: u8) -> Result<(), NoMemory>
    ensures { OnOk result (out.new.items ≡ out.old.items ++ first ∷ second ∷ []) }
{
    out.push(first)?;
    out.push(second)?;
    Ok(())
}

/// Appends a byte and a number after it.
#[inline]
pub(crate) fn push_marked(out: &mut Vec<u8>, mark: u8, number: u32) -> Result<(), NoMemory>
    ensures { OnOk result (out.new.items ≡ out.old.items ++ mark ∷ u32_bytes number) }
{
    out.push(mark)?;
    push_u32(out, number)
}

/// Appends bytes after their number.
pub(crate) fn push_sized(out: &mut Vec<u8>, bytes: &[u8]) -> Result<(), NoMemory>
    requires { length bytes.now < 2 ^ 32 }
    ensures { OnOk result (out.new.items ≡ out.old.items ++ sized_bytes bytes.now) }
{
    push_u32(out, bytes.len() as u32)?;
    out.extend_from_slice(bytes)?;
    Ok(())
}
