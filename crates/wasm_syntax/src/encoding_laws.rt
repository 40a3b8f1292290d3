//! What holds of the binary encoding, for the crates above.
ghost use Rattle.wasm_syntax.specs.Encoding.Laws.{NumberLaws, BytesEncodeOne, EncodedIsRead, ReadIsEncoded, FaultPlaceIsFound, HasOneFaultPlace, EncodesAgain, NoneIsShorter, EncodedIsEncodable, EncodableIsEncoded, EncodableInCore, CoreIsInReplay, ReplayIsInCore};

use leb_bytes::{i32_encoding, i64_encoding, u32_encoding};

/// What the encoding of modules requires of that of numbers.
fn number_encoding()
    ensures { NumberLaws }
{
    u32_encoding();
    i32_encoding();
    i64_encoding();
}

/// The encodings of a module (Core 1.0, 5.5.15): bytes encode at most one module of a form, and the
/// plain program reads just what they encode.
pub fn module_encoding()
    ensures one { BytesEncodeOne }
    ensures read { EncodedIsRead }
    ensures encoded { ReadIsEncoded }
{
    number_encoding();
}

/// The place of a fault: bytes have one, and the plain program gives it.
pub fn fault_places()
    ensures found { FaultPlaceIsFound }
    ensures one { HasOneFaultPlace }
{
    number_encoding();
}

/// The shortest encoding of a module: it is an encoding if the module has any, and if the module is
/// encodable and the bytes are fewer than 2^32, so that counts and sizes fit.
pub fn shortest_encoding()
    ensures again { EncodesAgain }
    ensures least { NoneIsShorter }
    ensures encodable { EncodedIsEncodable }
    ensures encodes { EncodableIsEncoded }
{
    number_encoding();
}

/// The two forms: what is encodable in the form Core is of that form, and is encodable in the form
/// of replay binaries if its segments are of table 0; what is encodable there and of the form
/// Core is encodable in it.
pub fn encoding_forms()
    ensures core { EncodableInCore }
    ensures in_replay { CoreIsInReplay }
    ensures in_core { ReplayIsInCore }
{}
