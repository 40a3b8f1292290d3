// Writing whole lists of bytes.

ghost use Rattle.std.specs.Prelude.{◌≡◌, ℕ, ◌≤◌, List, map, OnOk, OnErr};
ghost use Rattle.std.specs.List.{flat_map};
ghost use Rattle.r3_outside.specs.Count.{Rose};
ghost use Rattle.r3_outside.specs.Growth.{Grew, GrewByPrefix};

use crate::Sink;
use thiserror::Error;

/// Why bytes were not written whole.
#[derive(Clone, Copy, PartialEq, Eq, Debug, Error)]
pub enum PutFault {
    #[error("a write failed")]
    Failed,
}

/// Writes all of `bytes`, by as many calls as it needs, and takes no memory.
///
/// # Errors
///
/// `Failed` if a write failed; a first part of the bytes is then written.
pub fn put_all<S: Sink>(sink: &mut S, bytes: &[u8]) -> Result<(), PutFault>
    ensures faults_never_fall { S.faults sink.old ≤ S.faults sink.new }
    ensures failed { OnErr result (Rose (S.faults sink.old) (S.faults sink.new)) }
    ensures failed_none { OnOk result (S.faults sink.new ≡ S.faults sink.old) }
    ensures wrote { OnOk result (Grew (S.written sink.old) (S.written sink.new) bytes.now) }
    ensures wrote_prefix { OnErr result (GrewByPrefix (S.written sink.old) (S.written sink.new) bytes.now) }
{
    let mut done = 0;
    'pieces: while done < bytes.len() {
        match sink.write(&bytes[done..]) {
            Ok(count) => done += count,
            Err(_) => return Err(PutFault::Failed),
        }
    }
    Ok(())
}

/// Writes all parts, one after the other, as `put_all` writes one.
///
/// # Errors
///
/// `Failed` if a write failed; a first part of all their bytes is then written.
pub fn put_parts<S: Sink>(sink: &mut S, parts: &[&[u8]]) -> Result<(), PutFault>
    ensures faults_never_fall { S.faults sink.old ≤ S.faults sink.new }
    ensures failed { OnErr result (Rose (S.faults sink.old) (S.faults sink.new)) }
    ensures failed_none { OnOk result (S.faults sink.new ≡ S.faults sink.old) }
    ensures wrote { OnOk result
        (Grew (S.written sink.old) (S.written sink.new) (flat_map (λ part. part.now) parts.now)) }
    ensures wrote_prefix { OnErr result
        (GrewByPrefix (S.written sink.old) (S.written sink.new) (flat_map (λ part. part.now) parts.now)) }
{
    'parts: for part in parts {
        put_all(sink, part)?;
    }
    Ok(())
}
