// `show`: the lines of a file.

ghost use Rattle.std.specs.Prelude.{◌≡◌, true, false};
ghost use Rattle.r3_faults.specs.Answers.{IsCaused, IsExact};
ghost use Rattle.r3_show.specs.FileLines.{IsShowRefusal, IsShown, IsShownAs, IsUnshownAs, begins_as_tape, fault_of};

use r3_faults::Fault;
use std::alloc::Global;
use trace_bytes::tags::TAPE_MAGIC;
use trace_format::{FormatFault, lines_of_log, lines_of_tape, log_files, tape_files};

/// The lines of a file: of the tape that its bytes encode if it begins as a tape does, otherwise of the log.
/// Besides the file and the lines, one event or segment at a time is in memory.
///
/// # Errors
///
/// `TraceVersion` and `BadTrace` name why the bytes encode neither; each is reported if and only if it applies.
/// `Memory` if memory is out.
pub fn show(alloc: Global, trace: &[u8]) -> Result<Vec<u8>, Fault>
    ensures { IsExact (IsShown trace.now) (IsShowRefusal trace.now) result }
{
    log_files();
    tape_files();
    if begins_as_tape(trace) {
        tape_lines(alloc, trace)
    } else {
        log_lines(alloc, trace)
    }
}

/// Whether a file begins as a tape does.
fn begins_as_tape(trace: &[u8]) -> bool
    ensures { result ≡ begins_as_tape trace.now }
{
    trace.starts_with(&TAPE_MAGIC)
}

/// The lines of a tape.
fn tape_lines(alloc: Global, trace: &[u8]) -> Result<Vec<u8>, Fault>
    ensures { IsCaused (IsShownAs true trace.now) (IsUnshownAs true trace.now) result }
{
    match lines_of_tape(alloc, trace) {
        Ok(lines) => Ok(lines),
        Err(cause) => Err(fault_of(cause)),
    }
}

/// The lines of a log.
fn log_lines(alloc: Global, trace: &[u8]) -> Result<Vec<u8>, Fault>
    ensures { IsCaused (IsShownAs false trace.now) (IsUnshownAs false trace.now) result }
{
    match lines_of_log(alloc, trace) {
        Ok(lines) => Ok(lines),
        Err(cause) => Err(fault_of(cause)),
    }
}

/// The fault that names why a file is refused.
pub fn fault_of(cause: FormatFault) -> Fault
    ensures { result ≡ fault_of cause }
{
    match cause {
        FormatFault::Version { found } => Fault::TraceVersion {
            found: u64::from(found),
        },
        FormatFault::Bad { at } => Fault::BadTrace { at },
        FormatFault::Memory => Fault::Memory,
    }
}
