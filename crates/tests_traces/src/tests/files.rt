// Files in hexadecimal, and the results of reading them.

use sample_inputs::traces::{DIGEST, LOG, TAPE};
use std::alloc::Global;
use std::test::Fail;
use trace_format::{
    FormatFault, lines_of_log, lines_of_tape, log_files, read_log, read_tape, show_log, show_tape,
    tape_files, write_log, write_tape,
};

/// The kind of a file.
#[derive(Clone, Copy, PartialEq, Eq)]
pub enum Kind {
    Log,
    Tape,
}

impl Kind {
    /// The first bytes of a file of this kind, in hexadecimal.
    pub fn magic(self) -> &'static str {
        match self {
            Kind::Log => LOG,
            Kind::Tape => TAPE,
        }
    }

    /// The first word of the first line.
    fn word(self) -> &'static str {
        match self {
            Kind::Log => "log",
            Kind::Tape => "tape",
        }
    }

    /// The lines of a file that is read whole before it is shown.
    fn read_lines(self, alloc: Global, bytes: &[u8]) -> Result<Vec<u8>, FormatFault> {
        match self {
            Kind::Log => {
                let (digest, log) = read_log(alloc, bytes)?;
                Ok(show_log(alloc, &digest, &log)?)
            }
            Kind::Tape => {
                let (digest, tape) = read_tape(alloc, bytes)?;
                Ok(show_tape(alloc, &digest, &tape)?)
            }
        }
    }

    /// The lines of a file that is shown while it is read.
    pub fn shown_lines(self, alloc: Global, bytes: &[u8]) -> Result<Vec<u8>, FormatFault> {
        match self {
            Kind::Log => lines_of_log(alloc, bytes),
            Kind::Tape => lines_of_tape(alloc, bytes),
        }
    }

    /// Why a file is not read; `None` if it is read.
    pub fn fault(self, alloc: Global, bytes: &[u8]) -> Option<FormatFault> {
        match self {
            Kind::Log => read_log(alloc, bytes).err(),
            Kind::Tape => read_tape(alloc, bytes).err(),
        }
    }

    /// The file that is written of a file's content.
    pub fn written_again(self, alloc: Global, bytes: &[u8]) -> Result<Vec<u8>, FormatFault> {
        match self {
            Kind::Log => log_again(alloc, bytes),
            Kind::Tape => tape_again(alloc, bytes),
        }
    }
}

/// The file that is written of a log's file.
fn log_again(alloc: Global, bytes: &[u8]) -> Result<Vec<u8>, FormatFault> {
    log_files();
    let (digest, log) = read_log(alloc, bytes)?;
    Ok(write_log(alloc, digest.as_bytes(), &log)?)
}

/// The file that is written of a tape's file.
fn tape_again(alloc: Global, bytes: &[u8]) -> Result<Vec<u8>, FormatFault> {
    tape_files();
    let (digest, tape) = read_tape(alloc, bytes)?;
    Ok(write_tape(alloc, digest.as_bytes(), &tape)?)
}

/// Appends the bytes that hexadecimal digits give.
fn append(alloc: Global, bytes: &mut Vec<u8>, digits: &str) -> Result<(), Fail> {
    bytes.extend_from_slice(hex::decode(alloc, digits)?.as_slice())?;
    Ok(())
}

/// Appends the first bytes of a file, its version and its digest.
fn append_header(
    alloc: Global,
    bytes: &mut Vec<u8>,
    magic: &str,
    version: &str,
) -> Result<(), Fail> {
    append(alloc, bytes, magic)?;
    append(alloc, bytes, version)?;
    append(alloc, bytes, DIGEST)
}

/// The bytes of a file.
pub fn file(alloc: Global, magic: &str, version: &str, body: &str) -> Result<Vec<u8>, Fail> {
    let mut bytes = Vec::new(alloc);
    append_header(alloc, &mut bytes, magic, version)?;
    append(alloc, &mut bytes, body)?;
    Ok(bytes)
}

/// Compares the results for a file, read and shown, and shown at once: its lines after the first, or why it is
/// refused.
pub fn check_answers(
    alloc: Global,
    kind: Kind,
    name: &str,
    version: &str,
    body: &str,
    want: Result<&str, FormatFault>,
) -> Result<(), Fail> {
    let bytes = file(alloc, kind.magic(), version, body)?;
    if !are_answers(alloc, kind, bytes.as_slice(), want)? {
        return Err(Fail::new(format_args!("{} {name}", kind.word())));
    }
    Ok(())
}

/// Whether the results for a file, read and shown, and shown at once, are the expected one.
fn are_answers(
    alloc: Global,
    kind: Kind,
    bytes: &[u8],
    want: Result<&str, FormatFault>,
) -> Result<bool, Fail> {
    Ok(
        agree(alloc, kind, kind.read_lines(alloc, bytes), want)?
            && agree(alloc, kind, kind.shown_lines(alloc, bytes), want)?,
    )
}

/// Whether the result is the expected one.
fn agree(
    alloc: Global,
    kind: Kind,
    answer: Result<Vec<u8>, FormatFault>,
    want: Result<&str, FormatFault>,
) -> Result<bool, Fail> {
    match (answer, want) {
        (Ok(lines), Ok(text)) => Ok(
            lines.as_slice() == expected_lines(alloc, kind, text)?.as_slice(),
        ),
        (Err(fault), Err(cause)) => Ok(fault == cause),
        _ => Ok(false),
    }
}

/// The first line of a file, and the lines after it.
fn expected_lines(alloc: Global, kind: Kind, text: &str) -> Result<Vec<u8>, Fail> {
    let mut lines = Vec::new(alloc);
    append_lines(&mut lines, kind, text)?;
    Ok(lines)
}

fn append_lines(lines: &mut Vec<u8>, kind: Kind, text: &str) -> Result<(), Fail> {
    lines.extend_from_slice(kind.word().as_bytes())?;
    lines.extend_from_slice(b" ")?;
    lines.extend_from_slice(DIGEST.as_bytes())?;
    lines.extend_from_slice(b"\n")?;
    lines.extend_from_slice(text.as_bytes())?;
    Ok(())
}
