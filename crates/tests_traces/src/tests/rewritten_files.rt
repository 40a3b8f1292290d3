//! Files that are read and written again.

use crate::tests::files::Kind::{self, Log, Tape};
use crate::tests::files::file;
use sample_inputs::traces::{EACH_EFFECT, EACH_EVENT, LOG_OF_TWO_ANSWERS, TAPE_OF_TWO_ANSWERS};
use std::alloc::Global;
use std::test::Fail;

/// Files by their name, their kind, their version, and the bytes after the digest.
const FILES: &[(&str, Kind, &str, &str)] = &[
    ("a log of the first version", Log, "01", LOG_OF_TWO_ANSWERS),
    ("a log", Log, "02", LOG_OF_TWO_ANSWERS),
    ("each kind of event", Log, "02", EACH_EVENT),
    (
        "a tape of the first version",
        Tape,
        "01",
        TAPE_OF_TWO_ANSWERS,
    ),
    ("a tape", Tape, "02", TAPE_OF_TWO_ANSWERS),
    ("each kind of effect", Tape, "02", EACH_EFFECT),
];

/// Whether a file is written again in the second version.
fn is_written_again(alloc: Global, kind: Kind, version: &str, body: &str) -> Result<bool, Fail> {
    let bytes = file(alloc, kind.magic(), version, body)?;
    let written = kind.written_again(alloc, bytes.as_slice())?;
    Ok(written == file(alloc, kind.magic(), "02", body)?)
}

#[test]
fn files_are_written_in_the_second_version(rt: HostRuntime) -> Result<(), Fail> {
    for &(name, kind, version, body) in FILES {
        assert!(rt;
            is_written_again(rt.alloc(), kind, version, body)?,
            "{name}"
        );
    }
    Ok(())
}
