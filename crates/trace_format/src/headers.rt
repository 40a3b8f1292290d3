// The starts and ends of files.

ghost use Rattle.std.specs.Prelude.{◌≡◌, ◌≤◌, ◌-◌, ℕ, List, length, IfSome, MatchOption, MatchResult};
ghost use Rattle.trace_format.specs.Reading as plain;
ghost use Rattle.trace_format.specs.declared.files.FormatFault.TheVariants.{Bad};
ghost use Rattle.wasm_syntax.specs.Encoding.Readers.{first_raw};
ghost use Rattle.trace_bytes.specs.declared.tags.TheConstants.{DIGEST_BYTES, LOG_MAGIC};
ghost use Rattle.trace_format.specs.Answers.{IsEndAnswer, IsHeaderFault, IsHeaderThere, IsLogStart, IsLogStartFault, header_length};
ghost use Rattle.trace_format.specs.ReadResults.{Finds};

use crate::events::first_outcome;
use crate::files::FormatFault;
use crate::laws::event_readers;
use crate::numbers::{first_byte, first_number};
use std::marker::Model;
use trace_bytes::tags::{DIGEST_BYTES, TAG_CLOSE, VERSION_1, VERSION_2};
use trace_model::Outcome;

/// The length of a header in bytes: the magic number, the version and the digest.
pub(crate) const HEADER_BYTES: usize = 5 + DIGEST_BYTES;

/// A SHA-256 digest; contracts see its bytes.
#[derive(Clone, Copy, PartialEq, Eq, Debug)]
pub struct Digest {
    bytes: [u8; DIGEST_BYTES],
}

impl Model for Digest {
    ghost use Rattle.std.specs.Prelude.{ℕ, List};

    ghost Value = { List ℕ };

    ghost view = { λ digest. digest.bytes };

    ghost inverse = { λ bytes. record { bytes = bytes } };
}

impl Digest {
    /// The digest of these bytes.
    pub fn of(bytes: [u8; DIGEST_BYTES]) -> Digest
        ensures { result ≡ bytes }
    {
        Digest { bytes }
    }

    /// The bytes of the digest.
    pub fn as_bytes(&self) -> &[u8; DIGEST_BYTES]
        ensures { result.now ≡ self.now }
    {
        &self.bytes
    }
}

/// Reads a digest.
fn first_digest(bytes: &[u8]) -> Option<(Digest, &[u8])>
    ensures { Finds (λ read. (read.0, read.1.now)) result (first_raw DIGEST_BYTES bytes.now) }
{
    match bytes.split_first_chunk::<DIGEST_BYTES>() {
        Some((digest, rest)) => Some((Digest::of(*digest), rest)),
        None => None,
    }
}

/// The start of a file: its version and its digest.
///
/// # Errors
/// The version if it is not known, or the place 0 if there is no header.
#[tactic(auto, unfolding(crate::specs::Reading::first_header))]
pub(crate) fn header_of(magic: &[u8; 4], bytes: &[u8]) -> Result<(u8, Digest), FormatFault>
    ensures { MatchResult result
        (λ read. IsHeaderThere magic.now bytes.now (read.0, read.1))
        (λ fault. IsHeaderFault magic.now bytes.now fault) }
{
    let Some(after) = bytes.strip_prefix(magic) else {
        return Err(FormatFault::Bad { at: 0 });
    };
    let Some((version, rest)) = first_byte(after) else {
        return Err(FormatFault::Bad { at: 0 });
    };
    if version != VERSION_1 && version != VERSION_2 {
        return Err(FormatFault::Version { found: version });
    }
    match first_digest(rest) {
        Some((digest, _)) => Ok((version, digest)),
        None => Err(FormatFault::Bad { at: 0 }),
    }
}

/// The number of imported functions, which follows the header of a log, and the bytes after it.
pub(crate) fn log_start(bytes: &[u8]) -> Option<(u32, &[u8])>
    requires { header_length ≤ length bytes.now }
    ensures start { (version : ℕ) (digest : List ℕ) → IsHeaderThere LOG_MAGIC bytes.now (version, digest)
        → MatchOption result (IsLogStartFault bytes.now (Bad 0))
        (λ read. IsLogStart bytes.now version digest read.0 read.1.now) }
    ensures shorter { IfSome result (λ read. length read.1.now ≤ length bytes.now) }
{
    event_readers();
    match first_number(&bytes[HEADER_BYTES..]) {
        Some((imports, start)) => Some((imports, start)),
        None => None,
    }
}

/// The outcome that ends a log, if nothing follows it.
pub(crate) fn end_of_log(bytes: &[u8], left: &[u8]) -> Result<Outcome, FormatFault>
    requires { length left.now ≤ length bytes.now }
    ensures { IsEndAnswer plain.first_outcome bytes.now left.now result }
{
    match first_outcome(left) {
        Some((outcome, [])) => Ok(outcome),
        Some((_, more)) => Err(fault_before(bytes, more)),
        None => Err(fault_before(bytes, left)),
    }
}

/// The end of a tape, if nothing follows it.
pub(crate) fn end_of_tape(bytes: &[u8], left: &[u8]) -> Result<(), FormatFault>
    requires { length left.now ≤ length bytes.now }
    ensures { IsEndAnswer plain.first_close bytes.now left.now result }
{
    match left.strip_prefix(&[TAG_CLOSE]) {
        Some([]) => Ok(()),
        Some(more) => Err(fault_before(bytes, more)),
        None => Err(fault_before(bytes, left)),
    }
}

/// The fault of a file that is faulty where these last bytes begin.
fn fault_before(bytes: &[u8], left: &[u8]) -> FormatFault
    requires { length left.now ≤ length bytes.now }
    ensures { result ≡ Bad (length bytes.now - length left.now) }
{
    FormatFault::Bad {
        at: (bytes.len() - left.len()) as u64,
    }
}
