// The pieces of a line, each pushed where room is left for it, so that no piece tests the room again.

ghost use Rattle.std.specs.Prelude.{◌≡◌, ◌+◌, ◌*◌, ◌/◌, ◌%◌, ◌<◌, ◌≤◌, ◌∷◌, ◌++◌, [], length, vec_len, vec_capacity};
ghost use Rattle.history_spec.specs.Line.{found_text, hex_digits, number_text, with_space, value_text, values_text};

use itoa::Buffer;
use wasm_syntax::{Val, ValType};

/// The two hexadecimal digits of each byte.
static PAIRS: [u8; 512] = *b"000102030405060708090a0b0c0d0e0f\
    101112131415161718191a1b1c1d1e1f\
    202122232425262728292a2b2c2d2e2f\
    303132333435363738393a3b3c3d3e3f\
    404142434445464748494a4b4c4d4e4f\
    505152535455565758595a5b5c5d5e5f\
    606162636465666768696a6b6c6d6e6f\
    707172737475767778797a7b7c7d7e7f\
    808182838485868788898a8b8c8d8e8f\
    909192939495969798999a9b9c9d9e9f\
    a0a1a2a3a4a5a6a7a8a9aaabacadaeaf\
    b0b1b2b3b4b5b6b7b8b9babbbcbdbebf\
    c0c1c2c3c4c5c6c7c8c9cacbcccdcecf\
    d0d1d2d3d4d5d6d7d8d9dadbdcdddedf\
    e0e1e2e3e4e5e6e7e8e9eaebecedeeef\
    f0f1f2f3f4f5f6f7f8f9fafbfcfdfeff";

/// The two digits of each number below 100 in decimal.
static TENS: [u8; 200] = *b"0001020304050607080910111213141516171819\
    2021222324252627282930313233343536373839\
    4041424344454647484950515253545556575859\
    6061626364656667686970717273747576777879\
    8081828384858687888990919293949596979899";

/// Pushes bytes.
#[inline(always)]
pub(crate) fn push_bytes(out: &mut Vec<u8>, bytes: &[u8])
    requires room { vec_len out.old + length bytes.now ≤ vec_capacity out.old }
    ensures items { out.new.items ≡ out.old.items ++ bytes.now }
    ensures len { vec_len out.new ≡ vec_len out.old + length bytes.now }
    ensures capacity { vec_capacity out.new ≡ vec_capacity out.old }
{
    'bytes: for byte in bytes {
        out.push_reserved(*byte);
    }
}

/// Pushes a number in decimal, after a space.
#[inline(always)]
pub(crate) fn push_number(out: &mut Vec<u8>, number: u32)
    requires room { vec_len out.old + 11 ≤ vec_capacity out.old }
    ensures items { out.new.items ≡ out.old.items ++ number_text number }
    ensures len { vec_len out.new ≤ vec_len out.old + 11 }
    ensures capacity { vec_capacity out.new ≡ vec_capacity out.old }
{
    if number < 10 {
        push_bytes(out, &one_digit(number));
    } else if number < 100 {
        push_tens(out, number);
    } else if number < 1000 {
        push_hundreds(out, number);
    } else {
        push_long_number(out, number);
    }
}

/// The text of a number of one digit, after a space.
#[inline(always)]
fn one_digit(number: u32) -> [u8; 2]
    requires { number < 10 }
    ensures { result ≡ number_text number }
{
    [b' ', b'0' + number as u8]
}

/// Pushes a number of two digits, after a space.
#[inline(always)]
fn push_tens(out: &mut Vec<u8>, number: u32)
    requires least { 10 ≤ number }
    requires most { number < 100 }
    requires room { vec_len out.old + 3 ≤ vec_capacity out.old }
    ensures items { out.new.items ≡ out.old.items ++ number_text number }
    ensures len { vec_len out.new ≡ vec_len out.old + 3 }
    ensures capacity { vec_capacity out.new ≡ vec_capacity out.old }
{
    push_bytes(out, b" ");
    push_two_digits(out, number);
}

/// Pushes a number of three digits, after a space.
#[inline(always)]
fn push_hundreds(out: &mut Vec<u8>, number: u32)
    requires least { 100 ≤ number }
    requires most { number < 1000 }
    requires room { vec_len out.old + 4 ≤ vec_capacity out.old }
    ensures items { out.new.items ≡ out.old.items ++ number_text number }
    ensures len { vec_len out.new ≡ vec_len out.old + 4 }
    ensures capacity { vec_capacity out.new ≡ vec_capacity out.old }
{
    push_bytes(out, &[b' ', b'0' + (number / 100) as u8]);
    push_two_digits(out, number % 100);
}

/// Pushes the two digits of a number below 100.
#[inline(always)]
fn push_two_digits(out: &mut Vec<u8>, number: u32)
    requires most { number < 100 }
    requires room { vec_len out.old + 2 ≤ vec_capacity out.old }
    ensures items { out.new.items ≡ out.old.items ++ (48 + number / 10) ∷ (48 + number % 10) ∷ [] }
    ensures len { vec_len out.new ≡ vec_len out.old + 2 }
    ensures capacity { vec_capacity out.new ≡ vec_capacity out.old }
{
    let place = number as usize * 2;
    out.push_reserved(TENS[place]);
    out.push_reserved(TENS[place + 1]);
}

/// Pushes a number of any length in decimal, after a space.
#[inline(always)]
fn push_long_number(out: &mut Vec<u8>, number: u32)
    requires room { vec_len out.old + 11 ≤ vec_capacity out.old }
    ensures items { out.new.items ≡ out.old.items ++ number_text number }
    ensures len { vec_len out.new ≤ vec_len out.old + 11 }
    ensures capacity { vec_capacity out.new ≡ vec_capacity out.old }
{
    let mut buffer = Buffer::new();
    push_bytes(out, b" ");
    push_bytes(out, buffer.format(number).as_bytes());
}

/// Pushes what an instruction found, if it found something.
#[inline(always)]
pub(crate) fn push_found(out: &mut Vec<u8>, found: Option<u32>)
    requires room { vec_len out.old + 17 ≤ vec_capacity out.old }
    ensures items { out.new.items ≡ out.old.items ++ found_text found }
    ensures len { vec_len out.new ≤ vec_len out.old + 17 }
    ensures capacity { vec_capacity out.new ≡ vec_capacity out.old }
{
    if let Some(number) = found {
        push_bytes(out, b" found");
        push_number(out, number);
    }
}

/// Pushes values, each after a space.
#[inline(always)]
pub(crate) fn push_values(out: &mut Vec<u8>, values: &[Val])
    requires room { vec_len out.old + 25 * length values.now ≤ vec_capacity out.old }
    ensures items { out.new.items ≡ out.old.items ++ values_text values.now }
    ensures len { vec_len out.new ≤ vec_len out.old + 25 * length values.now }
    ensures capacity { vec_capacity out.new ≡ vec_capacity out.old }
{
    'values: for value in values {
        push_value(out, *value);
    }
}

/// Pushes a value after a space: its type, and its bits in hexadecimal.
#[inline(always)]
pub(crate) fn push_value(out: &mut Vec<u8>, value: Val)
    requires room { vec_len out.old + 25 ≤ vec_capacity out.old }
    ensures items { out.new.items ≡ out.old.items ++ with_space (value_text value) }
    ensures len { vec_len out.new ≤ vec_len out.old + 25 }
    ensures capacity { vec_capacity out.new ≡ vec_capacity out.old }
{
    let bits = value.bits;
    match value.ty {
        ValType::I32 => push_short_value(out, b" i32:", bits),
        ValType::I64 => push_long_value(out, b" i64:", bits),
        ValType::F32 => push_short_value(out, b" f32:", bits),
        ValType::F64 => push_long_value(out, b" f64:", bits),
        ValType::FuncRef => push_long_value(out, b" funcref:", bits),
    }
}

/// Pushes a name, and the lowest eight digits of a number in hexadecimal.
#[inline(always)]
fn push_short_value(out: &mut Vec<u8>, name: &[u8], bits: u64)
    requires room { vec_len out.old + (length name.now + 8) ≤ vec_capacity out.old }
    ensures items { out.new.items ≡ out.old.items ++ (name.now ++ hex_digits 8 bits) }
    ensures len { vec_len out.new ≡ vec_len out.old + (length name.now + 8) }
    ensures capacity { vec_capacity out.new ≡ vec_capacity out.old }
{
    push_bytes(out, name);
    push_eight_digits(out, bits);
}

/// Pushes a name, and sixteen digits of a number in hexadecimal.
#[inline(always)]
fn push_long_value(out: &mut Vec<u8>, name: &[u8], bits: u64)
    requires room { vec_len out.old + (length name.now + 16) ≤ vec_capacity out.old }
    ensures items { out.new.items ≡ out.old.items ++ (name.now ++ hex_digits 16 bits) }
    ensures len { vec_len out.new ≡ vec_len out.old + (length name.now + 16) }
    ensures capacity { vec_capacity out.new ≡ vec_capacity out.old }
{
    push_bytes(out, name);
    push_eight_digits(out, bits / 4294967296);
    push_eight_digits(out, bits);
}

/// Pushes the lowest eight digits of a number in hexadecimal.
#[inline(always)]
fn push_eight_digits(out: &mut Vec<u8>, bits: u64)
    requires room { vec_len out.old + 8 ≤ vec_capacity out.old }
    ensures items { out.new.items ≡ out.old.items ++ hex_digits 8 bits }
    ensures len { vec_len out.new ≡ vec_len out.old + 8 }
    ensures capacity { vec_capacity out.new ≡ vec_capacity out.old }
{
    push_digits_of(out, (bits / 16777216 % 256) as u8);
    push_digits_of(out, (bits / 65536 % 256) as u8);
    push_digits_of(out, (bits / 256 % 256) as u8);
    push_digits_of(out, (bits % 256) as u8);
}

/// Pushes the two digits of a byte in hexadecimal.
#[inline(always)]
fn push_digits_of(out: &mut Vec<u8>, byte: u8)
    requires room { vec_len out.old + 2 ≤ vec_capacity out.old }
    ensures items { out.new.items ≡ out.old.items ++ hex_digits 2 byte }
    ensures len { vec_len out.new ≡ vec_len out.old + 2 }
    ensures capacity { vec_capacity out.new ≡ vec_capacity out.old }
{
    let place = byte as usize * 2;
    out.push_reserved(PAIRS[place]);
    out.push_reserved(PAIRS[place + 1]);
}
