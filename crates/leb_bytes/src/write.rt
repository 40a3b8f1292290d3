//! Writing numbers in their shortest encoding.
ghost use Rattle.std.specs.Prelude.{◌≡◌, ◌++◌, OnOk, OnErr};
ghost use Rattle.leb_bytes.specs.Signed.{fits_seven_bits, low_bits, s64_bytes};
ghost use Rattle.leb_bytes.specs.Unsigned.{u32_bytes};

use base::NoMemory;

/// The most bytes that a u32 needs.
const MAX_U32_BYTES: usize = 5;

/// The most bytes that an s64 needs.
const MAX_S64_BYTES: usize = 10;

/// Appends the shortest encoding of a u32.
///
/// # Errors
/// `NoMemory` if the list can't grow; it is then as it was.
#[inline]
pub fn push_u32(out: &mut Vec<u8>, number: u32) -> Result<(), NoMemory>
    ensures ok { OnOk result (out.new.items ≡ out.old.items ++ u32_bytes number) }
    ensures refused { OnErr result (out.new.items ≡ out.old.items) }
{
    out.reserve(MAX_U32_BYTES)?;
    let mut rest = number;
    'bytes: while rest >= 0x80 {
        out.push_reserved((rest % 0x80) as u8 + 0x80);
        rest /= 0x80;
    }
    out.push_reserved(rest as u8);
    Ok(())
}

/// Appends the shortest encoding of an s64, which is that of an s32 if the number is one.
///
/// # Errors
/// `NoMemory` if the list can't grow; it is then as it was.
#[inline]
pub fn push_i64(out: &mut Vec<u8>, number: i64) -> Result<(), NoMemory>
    ensures ok { OnOk result (out.new.items ≡ out.old.items ++ s64_bytes number) }
    ensures refused { OnErr result (out.new.items ≡ out.old.items) }
{
    out.reserve(MAX_S64_BYTES)?;
    let mut rest = number;
    'bytes: while !fits_seven_bits(rest) {
        out.push_reserved(low_bits(rest) + 0x80);
        rest >>= 7;
    }
    out.push_reserved(low_bits(rest));
    Ok(())
}

/// Whether a last byte can hold the whole number, with its sign.
#[inline(always)]
fn fits_seven_bits(number: i64) -> bool
    ensures { result ≡ fits_seven_bits number }
{
    (-0x40..0x40).contains(&number)
}

/// The low seven bits.
#[inline(always)]
fn low_bits(number: i64) -> u8
    ensures { result ≡ low_bits number }
{
    (number & 0x7f) as u8
}
