//! Encodings that are written elsewhere: in the standard (Core 1.0, 5.2.2), in the DWARF standard (version 4, 7.6) and
//! in descriptions of LEB128.
use leb_bytes::{BadLeb, push_i64, push_u32, read_i32, read_i64, read_u32};
use std::alloc::Global;
use std::test::Fail;

/// Bytes that encode a number of 32 bits, the number, and where the next byte is.
const UNSIGNED: &[(&[u8], u32, usize)] = &[
    (&[0x00], 0, 1),
    (&[0x7f, 0xff], 127, 1),
    (&[0x80, 0x01], 128, 2),
    (&[0xb9, 0x64], 12_857, 2),
    (&[0xe5, 0x8e, 0x26], 624_485, 3),
    // Longer than needed.
    (&[0x83, 0x00], 3, 2),
    (&[0x80, 0x80, 0x80, 0x80, 0x00], 0, 5),
    (&[0xff, 0xff, 0xff, 0xff, 0x0f], 4_294_967_295, 5),
];

/// The same for numbers with a sign, which are read as numbers of 64 bits too.
const SIGNED: &[(&[u8], i32, usize)] = &[
    (&[0x02], 2, 1),
    (&[0x7e], -2, 1),
    (&[0x3f], 63, 1),
    (&[0x40], -64, 1),
    (&[0xff, 0x00], 127, 2),
    (&[0x81, 0x7f], -127, 2),
    (&[0x80, 0x01], 128, 2),
    (&[0xc0, 0xbb, 0x78], -123_456, 3),
    // Longer than needed.
    (&[0xfe, 0xff, 0x7f], -2, 3),
    (&[0xff, 0xff, 0xff, 0xff, 0x7f], -1, 5),
    (&[0x80, 0x80, 0x80, 0x80, 0x78], -2_147_483_648, 5),
    (&[0xff, 0xff, 0xff, 0xff, 0x07], 2_147_483_647, 5),
];

/// Bytes that encode no number of 32 bits.
const NOT_UNSIGNED: &[&[u8]] = &[
    &[],
    &[0x80],
    &[0xe5, 0x8e],
    // A sixth byte.
    &[0x80, 0x80, 0x80, 0x80, 0x80, 0x00],
    // Unused bits that aren't 0.
    &[0xff, 0xff, 0xff, 0xff, 0x1f],
    &[0x80, 0x80, 0x80, 0x80, 0x10],
];

/// Bytes that encode no number of 32 bits with a sign.
const NOT_SIGNED: &[&[u8]] = &[
    &[],
    &[0xc0, 0xbb],
    // A sixth byte.
    &[0x80, 0x80, 0x80, 0x80, 0x80, 0x00],
    // Unused bits that differ from the sign.
    &[0xff, 0xff, 0xff, 0xff, 0x4f],
    &[0x80, 0x80, 0x80, 0x80, 0x08],
    &[0xff, 0xff, 0xff, 0xff, 0x0f],
];

/// The first bytes that are read as another number.
fn first_other_unsigned() -> Option<&'static [u8]> {
    for &(bytes, number, next) in UNSIGNED {
        if read_u32(bytes, 0) != Ok((number, next)) {
            return Some(bytes);
        }
    }
    None
}

/// The first bytes that are read as another number with a sign, of 32 bits or of 64.
fn first_other_signed() -> Option<&'static [u8]> {
    for &(bytes, number, next) in SIGNED {
        let is_i32 = read_i32(bytes, 0) == Ok((number, next));
        let is_i64 = read_i64(bytes, 0) == Ok((i64::from(number), next));
        if !is_i32 || !is_i64 {
            return Some(bytes);
        }
    }
    None
}

/// The first bytes that are read although they encode no number.
fn first_read_unsigned() -> Option<&'static [u8]> {
    for &bytes in NOT_UNSIGNED {
        if read_u32(bytes, 0) != Err(BadLeb) {
            return Some(bytes);
        }
    }
    None
}

/// The first bytes that are read although they encode no number with a sign.
fn first_read_signed() -> Option<&'static [u8]> {
    for &bytes in NOT_SIGNED {
        if read_i32(bytes, 0) != Err(BadLeb) {
            return Some(bytes);
        }
    }
    None
}

#[test]
fn u32_encodings_are_read(rt: HostRuntime) {
    assert_eq!(rt; first_other_unsigned(), None);
}

#[test]
fn signed_encodings_are_read(rt: HostRuntime) {
    assert_eq!(rt; first_other_signed(), None);
}

#[test]
fn no_number_of_32_bits_is_encoded(rt: HostRuntime) {
    assert_eq!(rt; first_read_unsigned(), None);
    assert_eq!(rt; first_read_signed(), None);
}

/// Bytes, and the number of 64 bits that they encode, with where the next byte is.
const WIDE: &[(&[u8], Result<(i64, usize), BadLeb>)] = &[
    (
        &[0x80, 0x80, 0x80, 0x80, 0x80, 0x80, 0x80, 0x80, 0x80, 0x7f],
        Ok((i64::MIN, 10)),
    ),
    (
        &[0xff, 0xff, 0xff, 0xff, 0xff, 0xff, 0xff, 0xff, 0xff, 0x00],
        Ok((i64::MAX, 10)),
    ),
    // Unused bits that differ from the sign.
    (
        &[0x80, 0x80, 0x80, 0x80, 0x80, 0x80, 0x80, 0x80, 0x80, 0x7e],
        Err(BadLeb),
    ),
    (
        &[0xff, 0xff, 0xff, 0xff, 0xff, 0xff, 0xff, 0xff, 0xff, 0x01],
        Err(BadLeb),
    ),
    // An eleventh byte.
    (
        &[
            0x80, 0x80, 0x80, 0x80, 0x80, 0x80, 0x80, 0x80, 0x80, 0x80, 0x00,
        ],
        Err(BadLeb),
    ),
];

/// The first bytes that are read as another number of 64 bits, or are read although they encode none.
fn first_other_wide() -> Option<&'static [u8]> {
    for &(bytes, want) in WIDE {
        if read_i64(bytes, 0) != want {
            return Some(bytes);
        }
    }
    None
}

#[test]
fn the_ends_of_s64(rt: HostRuntime) {
    assert_eq!(rt; first_other_wide(), None);
}

/// Whether three numbers are read one after the other, and none behind them.
fn are_read_in_turn() -> bool {
    let bytes = [0xe5, 0x8e, 0x26, 0x78, 0x00];
    read_u32(&bytes, 0) == Ok((624_485, 3))
        && read_i32(&bytes, 3) == Ok((-8, 4))
        && read_i64(&bytes, 4) == Ok((0, 5))
        && read_i64(&bytes, 5) == Err(BadLeb)
}

#[test]
fn numbers_are_read_one_after_another(rt: HostRuntime) {
    assert!(rt; are_read_in_turn());
}

/// The bytes of numbers, one after another.
fn encoded_unsigned(alloc: Global, numbers: &[u32]) -> Result<Vec<u8>, Fail> {
    let mut out = Vec::new(alloc);
    for number in numbers {
        push_u32(&mut out, *number)?;
    }
    Ok(out)
}

/// The bytes of numbers with a sign, one after another.
fn encoded_signed(alloc: Global, numbers: &[i64]) -> Result<Vec<u8>, Fail> {
    let mut out = Vec::new(alloc);
    for number in numbers {
        push_i64(&mut out, *number)?;
    }
    Ok(out)
}

const UNSIGNED_NUMBERS: &[u32] = &[0, 127, 128, 12_857, 624_485, 4_294_967_295];

const UNSIGNED_BYTES: &[u8] = &[
    0x00, 0x7f, 0x80, 0x01, 0xb9, 0x64, 0xe5, 0x8e, 0x26, 0xff, 0xff, 0xff, 0xff, 0x0f,
];

const SIGNED_NUMBERS: &[i64] = &[2, -2, 63, -64, 127, -127, -128, -123_456, -2_147_483_648];

const SIGNED_BYTES: &[u8] = &[
    0x02, 0x7e, 0x3f, 0x40, 0xff, 0x00, 0x81, 0x7f, 0x80, 0x7f, 0xc0, 0xbb, 0x78, 0x80, 0x80, 0x80,
    0x80, 0x78,
];

const END_BYTES: &[u8] = &[
    0x80, 0x80, 0x80, 0x80, 0x80, 0x80, 0x80, 0x80, 0x80, 0x7f, 0xff, 0xff, 0xff, 0xff, 0xff, 0xff,
    0xff, 0xff, 0xff, 0x00,
];

/// Whether numbers have these bytes.
fn are_encoded_unsigned(alloc: Global, numbers: &[u32], bytes: &[u8]) -> Result<bool, Fail> {
    Ok(encoded_unsigned(alloc, numbers)?.as_slice() == bytes)
}

/// Whether numbers with a sign have these bytes.
fn are_encoded_signed(alloc: Global, numbers: &[i64], bytes: &[u8]) -> Result<bool, Fail> {
    Ok(encoded_signed(alloc, numbers)?.as_slice() == bytes)
}

#[test]
fn the_shortest_bytes_are_appended(rt: HostRuntime) -> Result<(), Fail> {
    assert!(rt; are_encoded_unsigned(rt.alloc(), UNSIGNED_NUMBERS, UNSIGNED_BYTES)?);
    assert!(rt; are_encoded_signed(rt.alloc(), SIGNED_NUMBERS, SIGNED_BYTES)?);
    assert!(rt; are_encoded_signed(rt.alloc(), &[i64::MIN, i64::MAX], END_BYTES)?);
    Ok(())
}
