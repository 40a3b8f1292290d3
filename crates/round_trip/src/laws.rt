// Laws, each the contract of a function that does nothing.

ghost use Rattle.round_trip.specs.RoundTrip.{DistinctEncodings, EncodableRoundTrips, EncodedRoundTrips};

use wasm_syntax::{module_encoding, shortest_encoding};

/// The round trip: the shortest encoding of a module is one of this module and of no other of the
/// form, and the module is read from it. This holds of each module that has any encoding in the
/// form, and so of each that was decoded; and of each encodable one whose bytes are fewer than 2^32.
/// Two modules of a form have different shortest encodings.
pub fn round_trip()
    ensures encoded { EncodedRoundTrips }
    ensures encodable { EncodableRoundTrips }
    ensures distinct { DistinctEncodings }
{
    module_encoding();
    shortest_encoding();
}
