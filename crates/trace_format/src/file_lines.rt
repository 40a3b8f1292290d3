// The lines of whole files. They are in memory, with one event or one segment at a time.

ghost use Rattle.std.specs.Prelude.{◌≤◌, length, MatchResult, Err, codes};
ghost use Rattle.history_spec.specs.Line.{line, outcome_text};
ghost use Rattle.trace_format.specs.Reading as plain;
ghost use Rattle.trace_format.specs.Answers.{IsItemsFault, IsLogAnswer, IsLogRead, IsTapeAnswer, IsTapeRead};
ghost use Rattle.trace_format.specs.Files.{Shrinks};
ghost use Rattle.trace_format.specs.Lines.{IsEndShown, IsTextRead, log_content_text, tape_content_text};
ghost use Rattle.trace_format.specs.Results.{IsLogText, IsTapeText};

use crate::files::FormatFault;
use crate::headers::{HEADER_BYTES, end_of_log, end_of_tape, header_of, log_start};
use crate::items::{FileItem, put_whole_items};
use crate::laws::{event_readers, segment_readers};
use crate::texts::header_line;
use base::NoMemory;
use history_lines::{print_outcome, put};
use std::alloc::Global;
use trace_bytes::tags::{LOG_MAGIC, TAPE_MAGIC};
use trace_model::{Event, Outcome, Segment};

/// The lines of the log that the bytes of a file encode, in either version. Besides the file and the lines, one
/// event at a time is in memory.
///
/// # Errors
/// The version if it is not known; otherwise the place where the file is faulty; or out of memory.
pub fn lines_of_log(alloc: Global, bytes: &[u8]) -> Result<Vec<u8>, FormatFault>
    ensures { IsLogText bytes.now result }
{
    event_readers();
    log_lines_in(alloc, bytes)
}

/// The lines of the tape that the bytes of a file encode, in either version. Besides the file and the lines, one
/// segment at a time is in memory.
///
/// # Errors
/// The version if it is not known; otherwise the place where the file is faulty; or out of memory.
pub fn lines_of_tape(alloc: Global, bytes: &[u8]) -> Result<Vec<u8>, FormatFault>
    ensures { IsTapeText bytes.now result }
{
    segment_readers();
    tape_lines_in(alloc, bytes)
}

/// The lines of a log, as the plain readers read it.
#[tactic(auto, unfolding(crate::specs::Reading::first_log_header))]
fn log_lines_in(alloc: Global, bytes: &[u8]) -> Result<Vec<u8>, FormatFault>
    ensures { IsTextRead (IsLogRead bytes.now) (λ fault. IsLogAnswer bytes.now (Err fault)) log_content_text result }
{
    event_readers();
    let (version, digest) = header_of(&LOG_MAGIC, bytes)?;
    let Some((_, start)) = log_start(bytes) else {
        return Err(FormatFault::Bad { at: 0 });
    };
    let mut out = header_line(alloc, b"log", &digest)?;
    match put_items_after::<Event>(alloc, &mut out, version, bytes, start) {
        Ok(()) => Ok(out),
        Err(fault) => Err(fault),
    }
}

/// The lines of a tape, as the plain readers read it.
fn tape_lines_in(alloc: Global, bytes: &[u8]) -> Result<Vec<u8>, FormatFault>
    ensures { IsTextRead (IsTapeRead bytes.now) (λ fault. IsTapeAnswer bytes.now (Err fault)) tape_content_text result }
{
    segment_readers();
    let (version, digest) = header_of(&TAPE_MAGIC, bytes)?;
    let mut out = header_line(alloc, b"tape", &digest)?;
    match put_items_after::<Segment>(alloc, &mut out, version, bytes, &bytes[HEADER_BYTES..]) {
        Ok(()) => Ok(out),
        Err(fault) => Err(fault),
    }
}

impl FileItem for Event {
    type End = Outcome;

    ghost last = { plain.first_outcome };

    ghost end_text = { λ outcome. line (outcome_text outcome) };

    fn end(bytes: &[u8], left: &[u8]) -> Result<Outcome, FormatFault> {
        end_of_log(bytes, left)
    }

    fn put_end(out: &mut Vec<u8>, end: Outcome) -> Result<(), NoMemory> {
        print_outcome(out, end)
    }
}

impl FileItem for Segment {
    type End = ();

    ghost last = { plain.first_close };

    ghost end_text = { λ _. line (codes "close") };

    fn end(bytes: &[u8], left: &[u8]) -> Result<(), FormatFault> {
        end_of_tape(bytes, left)
    }

    fn put_end(out: &mut Vec<u8>, _end: ()) -> Result<(), NoMemory> {
        put(out, b"close\n")
    }
}

/// Appends the lines of the items that begin at the start, and of the end after them.
fn put_items_after<K: FileItem>(
    alloc: Global,
    out: &mut Vec<u8>,
    version: u8,
    bytes: &[u8],
    start: &[u8],
) -> Result<(), FormatFault>
    requires within { length start.now ≤ length bytes.now }
    requires shrinks { Shrinks (K.first version) }
    ensures { MatchResult result
        (λ _. IsEndShown (K.first version) K.last K.lines K.end_text start.now out.old.items out.new.items)
        (λ fault. IsItemsFault (K.first version) K.last bytes.now start.now fault) }
{
    let left = put_whole_items::<K>(alloc, out, version, start)?;
    match K::end(bytes, left) {
        Ok(end) => {
            K::put_end(out, end)?;
            Ok(())
        }
        Err(fault) => Err(fault),
    }
}
