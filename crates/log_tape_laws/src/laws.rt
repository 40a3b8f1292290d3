// The law on the tapes of logs that are encoded; the statement is in `specs/WrittenTapes.antt`.

ghost use Rattle.log_tape_laws.specs.WrittenTapes.{LogTapesAreWritable};

/// The tape of a log that fewer than 2^32 bytes encode can be written, and weighs no more than these bytes.
pub fn log_tapes_are_writable()
    ensures { LogTapesAreWritable }
{}
