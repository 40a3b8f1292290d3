//! What holds of the encodings, for the crates above.
ghost use Rattle.std.specs.Prelude.{ℕ, ℤ, List, ◌<◌, ◌^◌, FitsSigned};
ghost use Rattle.std.specs.Int.{w32, w64, cast_unsigned};
ghost use Rattle.leb_bytes.specs.Encoding.{IsEncoding, IsWithin};
ghost use Rattle.leb_bytes.specs.Signed.{EncodesI32, EncodesI64, EncodesS32, EncodesS64, first_i32, first_i64, first_s32, first_s64, i32_bytes, i64_bytes, s64_bytes};
ghost use Rattle.leb_bytes.specs.Unsigned.{EncodesU32, first_u32, u32_bytes};

/// The encodings of a u32.
pub fn u32_encoding()
    ensures range { IsWithin EncodesU32 (λ n. n < 2 ^ 32) 5 }
    ensures encoding { IsEncoding EncodesU32 first_u32 (λ n. n < 2 ^ 32) u32_bytes }
{}

/// The encodings of an s32.
pub fn s32_encoding()
    ensures range { IsWithin EncodesS32 (λ z. FitsSigned w32 z) 5 }
    ensures encoding { IsEncoding EncodesS32 first_s32 (λ z. FitsSigned w32 z) s64_bytes }
{}

/// The encodings of an s64.
pub fn s64_encoding()
    ensures range { IsWithin EncodesS64 (λ z. FitsSigned w64 z) 10 }
    ensures encoding { IsEncoding EncodesS64 first_s64 (λ z. FitsSigned w64 z) s64_bytes }
{}

/// The encodings of an i32 by its bits, which are those of an s32.
pub fn i32_encoding()
    ensures of_signed { (bytes : List ℕ) (z : ℤ) → EncodesS32 bytes z → EncodesI32 bytes (cast_unsigned w32 z) }
    ensures encoding { IsEncoding EncodesI32 first_i32 (λ bits. bits < 2 ^ 32) i32_bytes }
{}

/// The encodings of an i64 by its bits, which are those of an s64.
pub fn i64_encoding()
    ensures of_signed { (bytes : List ℕ) (z : ℤ) → EncodesS64 bytes z → EncodesI64 bytes (cast_unsigned w64 z) }
    ensures encoding { IsEncoding EncodesI64 first_i64 (λ bits. bits < 2 ^ 64) i64_bytes }
{}
