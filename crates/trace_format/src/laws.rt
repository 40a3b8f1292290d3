// Laws of the files, for the crates above.

ghost use Rattle.trace_format.specs.Laws.{EventsAreRead, LogsAreDistinguished, LogsAreWritable, NumberLaws, SegmentsAreRead, TapesAreDistinguished, TapesAreWritable};

use leb_bytes::u32_encoding;

/// The files of logs: bytes encode at most one log, and a log that they encode, in either version, can be
/// written.
pub fn log_files()
    ensures apart { LogsAreDistinguished }
    ensures writable { LogsAreWritable }
{
    event_readers();
}

/// The files of tapes: bytes encode at most one tape, and a tape that they encode, in either version, can be
/// written.
pub fn tape_files()
    ensures apart { TapesAreDistinguished }
    ensures writable { TapesAreWritable }
{
    segment_readers();
}

/// The plain readers of a log's events read exactly their encodings.
pub(crate) fn event_readers()
    ensures numbers { NumberLaws }
    ensures events { EventsAreRead }
{
    number_laws();
}

/// The plain readers of a tape's segments read exactly their encodings.
pub(crate) fn segment_readers()
    ensures { SegmentsAreRead }
{
    number_laws();
}

/// What the files need of the encoding of numbers.
fn number_laws()
    ensures { NumberLaws }
{
    u32_encoding();
}
