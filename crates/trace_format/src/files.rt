// Reading whole files.

ghost use Rattle.std.specs.Prelude.{◌≡◌, ◌≤◌, length, MatchResult};
ghost use Rattle.trace_format.specs.Reading as plain;
ghost use Rattle.trace_format.specs.Answers.{AreEnded, IsItemsFault, IsLogAnswer, IsTapeAnswer};
ghost use Rattle.trace_format.specs.Results.{IsLogContent, IsTapeContent};
ghost use Rattle.trace_format.specs.declared.files.FormatFault.TheVariants.{Memory};

use crate::headers::{Digest, HEADER_BYTES, end_of_log, end_of_tape, header_of, log_start};
use crate::items::whole_items;
use crate::laws::{event_readers, segment_readers};
use base::NoMemory;
use std::alloc::Global;
use thiserror::Error;
use trace_bytes::tags::{LOG_MAGIC, TAPE_MAGIC};
use trace_model::{Event, Events, Log, Segment, Segments, Tape};

/// Why a file was not read.
#[derive(Clone, Copy, PartialEq, Eq, Debug, Error)]
pub enum FormatFault {
    /// The version of the file is not known.
    #[error("version {found}")]
    Version { found: u8 },
    /// The file encodes nothing. `at` is 0 if the file does not begin with a whole header. Otherwise it is the
    /// length, in bytes, of the longest prefix that is the header and whole events or segments, with their end
    /// if it is there.
    #[error("bad at {at}")]
    Bad { at: u64 },
    /// Out of memory.
    #[error("out of memory")]
    Memory,
}

impl From<NoMemory> for FormatFault {
    ghost from_gives = { λ _ fault. fault ≡ Memory };

    fn from(_refused: NoMemory) -> FormatFault {
        FormatFault::Memory
    }
}

/// Reads the file of a log, of either version.
///
/// # Errors
/// The version if it is not known; otherwise the place where the file is faulty; or out of memory.
pub fn read_log(alloc: Global, bytes: &[u8]) -> Result<(Digest, Log), FormatFault>
    ensures { IsLogContent bytes.now result }
{
    event_readers();
    log_in(alloc, bytes)
}

/// Reads the file of a tape, of either version.
///
/// # Errors
/// The version if it is not known; otherwise the place where the file is faulty; or out of memory.
pub fn read_tape(alloc: Global, bytes: &[u8]) -> Result<(Digest, Tape), FormatFault>
    ensures { IsTapeContent bytes.now result }
{
    segment_readers();
    tape_in(alloc, bytes)
}

/// The log of a file, as the plain readers read it.
#[tactic(auto, unfolding(crate::specs::Reading::first_log_header))]
fn log_in(alloc: Global, bytes: &[u8]) -> Result<(Digest, Log), FormatFault>
    ensures { IsLogAnswer bytes.now result }
{
    let (version, digest) = header_of(&LOG_MAGIC, bytes)?;
    let Some((imports, start)) = log_start(bytes) else {
        return Err(FormatFault::Bad { at: 0 });
    };
    match log_after(alloc, version, imports, bytes, start) {
        Ok(log) => Ok((digest, log)),
        Err(fault) => Err(fault),
    }
}

/// The log whose events begin at the start.
fn log_after(
    alloc: Global,
    version: u8,
    imports: u32,
    bytes: &[u8],
    start: &[u8],
) -> Result<Log, FormatFault>
    requires { length start.now ≤ length bytes.now }
    ensures { MatchResult result
        (λ log. (log.imports ≡ imports)
        × AreEnded (plain.first_event version) plain.first_outcome start.now log.events log.outcome)
        (λ fault. IsItemsFault (plain.first_event version) plain.first_outcome bytes.now start.now fault) }
{
    event_readers();
    let (events, left) = whole_items::<Event>(alloc, version, start)?;
    match end_of_log(bytes, left) {
        Ok(outcome) => Ok(Log {
            imports,
            events: Events::from_vec(events),
            outcome,
        }),
        Err(fault) => Err(fault),
    }
}

/// The tape of a file, as the plain readers read it.
fn tape_in(alloc: Global, bytes: &[u8]) -> Result<(Digest, Tape), FormatFault>
    ensures { IsTapeAnswer bytes.now result }
{
    let (version, digest) = header_of(&TAPE_MAGIC, bytes)?;
    match tape_after(alloc, version, bytes, &bytes[HEADER_BYTES..]) {
        Ok(tape) => Ok((digest, tape)),
        Err(fault) => Err(fault),
    }
}

/// The tape whose segments begin at the start.
fn tape_after(alloc: Global, version: u8, bytes: &[u8], start: &[u8]) -> Result<Tape, FormatFault>
    requires { length start.now ≤ length bytes.now }
    ensures { MatchResult result
        (λ tape. AreEnded (plain.first_segment version) plain.first_close start.now tape.segments tt)
        (λ fault. IsItemsFault (plain.first_segment version) plain.first_close bytes.now start.now fault) }
{
    segment_readers();
    let (segments, left) = whole_items::<Segment>(alloc, version, start)?;
    match end_of_tape(bytes, left) {
        Ok(()) => Ok(Tape {
            segments: Segments::from_vec(segments),
        }),
        Err(fault) => Err(fault),
    }
}
