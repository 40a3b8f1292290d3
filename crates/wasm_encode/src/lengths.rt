// The number of bytes of numbers and sized contents.

ghost use Rattle.std.specs.Prelude.{◌≡◌, ℕ, ◌-◌, ◌≤◌, List, length};
ghost use Rattle.leb_bytes.specs.Signed.{s64_bytes};
ghost use Rattle.leb_bytes.specs.Unsigned.{u32_bytes};
ghost use Rattle.wasm_encode.specs.Lengths.{byte_count, at_most_u64, magnitude};
ghost use Rattle.wasm_syntax.specs.Encoding.Shortest.{sized_bytes};

/// Seven bits hold numbers less than this: a byte of an unsigned number.
const SEVEN_BITS: u64 = 0x80;

/// Six bits hold numbers less than this: the last byte of a signed number, without its sign.
const SIX_BITS: u64 = 0x40;

/// The number of bytes of the shortest encoding of a u32 (Core 1.0, 5.2.2); five past the u32s, too.
pub(crate) fn u32_length(number: u64) -> u64
    ensures length { result ≡ length (u32_bytes number) }
    ensures few { result ≤ 5 }
{
    byte_count(number, SEVEN_BITS, 5)
}

/// The number of bytes of the shortest encoding of an s64 (Core 1.0, 5.2.2).
pub(crate) fn i64_length(number: i64) -> u64
    ensures length { result ≡ length (s64_bytes number) }
    ensures few { result ≤ 10 }
{
    byte_count(magnitude(number), SIX_BITS, 10)
}

/// The number of bytes of seven bits that a number takes, the last of them for what is less than `last`;
/// at most `most`.
fn byte_count(number: u64, last: u64, most: u64) -> u64
    requires { 1 ≤ most }
    ensures { result ≡ byte_count (most - 1) last number }
{
    let mut count = 1;
    let mut left = number;
    'bytes: while count < most {
        if left < last {
            return count;
        }
        left /= SEVEN_BITS;
        count += 1;
    }
    count
}

/// What a number has besides its sign, in two's complement.
fn magnitude(number: i64) -> u64
    ensures { result ≡ magnitude number }
{
    if number < 0 {
        (-(number + 1)) as u64
    } else {
        number as u64
    }
}

/// How many bytes these have with their number in front.
pub(crate) fn sized_length(content: u64) -> u64
    ensures { (bytes : List ℕ) → content ≡ at_most_u64 (length bytes)
        → result ≡ at_most_u64 (length (sized_bytes bytes)) }
{
    u32_length(content).saturating_add(content)
}
