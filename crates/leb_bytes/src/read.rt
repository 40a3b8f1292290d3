//! Reading numbers.
ghost use Rattle.std.specs.Prelude.{◌≡◌, ◌+◌, ◌^◌, ◌<◌, ◌≤◌, length, drop, Some, None, MatchOption, [], ◌∷◌, pos, ◌+ℤ◌, ◌*ℤ◌};
ghost use Rattle.std.specs.Option.{option_map};
ghost use Rattle.leb_bytes.specs.Place.{IsReadFrom};
ghost use Rattle.leb_bytes.specs.Signed.{EncodesS32, EncodesS64, first_s32, first_s64, first_signed};
ghost use Rattle.leb_bytes.specs.Unsigned.{EncodesU32, first_u32, first_unsigned};

use thiserror::Error;

/// No number of the kind is encoded at the place.
#[derive(Clone, Copy, PartialEq, Eq, Debug, Error)]
#[error("no LEB128 number")]
pub struct BadLeb;

/// Reads the u32 at a place, and gives it with the place after it. It may be longer than needed.
///
/// # Errors
/// `BadLeb` if the bytes from there on begin with no encoding of a u32.
#[inline]
pub fn read_u32(bytes: &[u8], at: usize) -> Result<(u32, usize), BadLeb>
    requires { at ≤ length bytes.now }
    ensures { IsReadFrom EncodesU32 first_u32 bytes.now at result }
{
    match front_u32(&bytes[at..]) {
        Some((number, taken)) => Ok((number, at + taken)),
        None => Err(BadLeb),
    }
}

/// Reads the s32 at a place, and gives it with the place after it. It may be longer than needed.
///
/// # Errors
/// `BadLeb` if the bytes from there on begin with no encoding of an s32.
#[inline]
pub fn read_i32(bytes: &[u8], at: usize) -> Result<(i32, usize), BadLeb>
    requires { at ≤ length bytes.now }
    ensures { IsReadFrom EncodesS32 first_s32 bytes.now at result }
{
    match front_signed(&bytes[at..], 32) {
        Some((number, taken)) => Ok((number as i32, at + taken)),
        None => Err(BadLeb),
    }
}

/// Reads the s64 at a place, and gives it with the place after it. It may be longer than needed.
///
/// # Errors
/// `BadLeb` if the bytes from there on begin with no encoding of an s64.
#[inline]
pub fn read_i64(bytes: &[u8], at: usize) -> Result<(i64, usize), BadLeb>
    requires { at ≤ length bytes.now }
    ensures { IsReadFrom EncodesS64 first_s64 bytes.now at result }
{
    match front_signed(&bytes[at..], 64) {
        Some((number, taken)) => Ok((number, at + taken)),
        None => Err(BadLeb),
    }
}

/// The u32 that a front of the bytes encodes, and how many bytes it takes.
#[inline]
fn front_u32(bytes: &[u8]) -> Option<(u32, usize)>
    ensures { MatchOption result
        (first_unsigned 32 bytes.now ≡ None)
        (λ read. (read.1 ≤ length bytes.now) × (first_unsigned 32 bytes.now ≡ Some (read.0, drop read.1 bytes.now))) }
{
    let mut low: u32 = 0;
    let mut shift: u32 = 0;
    for (before, &byte) in bytes.iter().enumerate() {
        let is_fifth = shift == 28;
        if byte < 0x80 {
            // The fifth byte has four bits.
            if is_fifth && byte >= 0x10 {
                return None;
            }
            return Some((low | u32::from(byte) << shift, before + 1));
        }
        if is_fifth {
            return None;
        }
        low |= u32::from(byte - 0x80) << shift;
        shift += 7;
    }
    None
}

/// The signed number of `width` bits that a front of the bytes encodes, and how many bytes it takes.
#[inline(always)]
fn front_signed(bytes: &[u8], width: u32) -> Option<(i64, usize)>
    requires { (0 < width) × (width ≤ 64) }
    ensures { MatchOption result
        (first_signed width bytes.now ≡ None)
        (λ read. (read.1 ≤ length bytes.now) × (first_signed width bytes.now ≡ Some (read.0, drop read.1 bytes.now))) }
{
    let mut low: u64 = 0;
    let mut shift: u32 = 0;
    for (before, &byte) in bytes.iter().enumerate() {
        let left = width - shift;
        if byte < 0x80 {
            let number = last_signed(low, shift, left, byte)?;
            return Some((number, before + 1));
        }
        if left <= 7 {
            return None;
        }
        low |= u64::from(byte - 0x80) << shift;
        shift += 7;
    }
    None
}

/// The number with these `shift` low bits and a last byte above them, for which `left` bits are left.
#[inline(always)]
fn last_signed(low: u64, shift: u32, left: u32, byte: u8) -> Option<i64>
    requires bits { low < 2 ^ shift }
    requires left { (0 < left) × (shift + left ≤ 64) }
    requires last { byte < 128 }
    ensures { result ≡ option_map (λ high. pos low +ℤ pos (2 ^ shift) *ℤ high.0) (first_signed left (byte ∷ [])) }
{
    // The sign is the highest bit that is left, and the bits above it equal it.
    let limit = 1u64 << (left - 1).min(6);
    let digit = u64::from(byte);
    if digit < limit {
        return Some((low | digit << shift).cast_signed());
    }
    let negated = 128 - digit;
    if negated <= limit {
        return Some(low.wrapping_sub(negated << shift).cast_signed());
    }
    None
}
