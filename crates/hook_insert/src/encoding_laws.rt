// Laws on the encoding of instrumented modules and on their meters, each the contract of a function; the
// statements are in `specs/`.

ghost use Rattle.hook_insert.specs.EncodingLaws.{FilesAreOfWords, InstrumentedAreEncodable, InstrumentedMetersFit, WeightsAreOfMeter};

use instrumented_module_laws::encodable_have_words;
use record_replay_spec::{bodies_are_instrumented, instrumented_keep_indices};
use wasm_syntax::{bodies_are_read, encoding_forms, lists_of_encoding, shortest_encoding};

/// A module that few enough bytes encode in the form Core meets the assumptions of the other laws.
pub fn files_are_of_words()
    ensures { FilesAreOfWords }
{
    shortest_encoding();
    lists_of_encoding();
    encodable_have_words();
}

/// The instrumented module of a valid and short module that has an encoding has one (Core 1.0, 5).
pub fn instrumented_are_encodable()
    ensures { InstrumentedAreEncodable }
{
    encoding_forms();
    bodies_are_read();
    bodies_are_instrumented();
}

/// The weights of the instrumented module of a valid module fit it, and under them its run counts turns by its
/// meter.
pub fn instrumented_meters_fit()
    ensures fits { InstrumentedMetersFit }
    ensures meter { WeightsAreOfMeter }
{
    bodies_are_read();
    instrumented_keep_indices();
}
