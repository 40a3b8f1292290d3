//! Calls of `show`, `replay` and `load` whose first read or second write fails.

use crate::tests::calls::{outcome_cut, outcome_of};
use r3_outside::MemFiles;
use sample_inputs::examples::REPLAY_TWO_ANSWERS;
use sample_inputs::traces::{DIGEST, LOG, LOG_OF_TWO_ANSWERS};
use std::alloc::Global;
use std::test::Fail;

/// The log of two answers.
fn log_of_two_answers(alloc: Global) -> Result<Vec<u8>, Fail> {
    let mut bytes = Vec::new(alloc);
    for part in [LOG, "02", DIGEST, LOG_OF_TWO_ANSWERS] {
        bytes.extend_from_slice(hex::decode(alloc, part)?.as_slice())?;
    }
    Ok(bytes)
}

/// The log of two answers and their replay module as files. Some reads fail.
fn files_of_both(alloc: Global, failing: &[u64]) -> Result<MemFiles, Fail> {
    let failing = Vec::from_slice(alloc, failing)?;
    let mut files = MemFiles::new(alloc, failing);
    files.add("t", log_of_two_answers(alloc)?.as_slice())?;
    files.add("r.wasm", hex::decode(alloc, REPLAY_TWO_ANSWERS)?.as_slice())?;
    Ok(files)
}

/// Calls, and the line of error if their first read fails.
const UNREAD: &[(&[&str], &str)] = &[
    (&["show", "t"], "read: t\n"),
    (&["replay", "r.wasm", "19"], "read: r.wasm\n"),
];

#[test]
fn the_first_read_of_show_and_replay_fails(rt: HostRuntime) -> Result<(), Fail> {
    for &(words, line) in UNREAD {
        let mut files = files_of_both(rt.alloc(), &[0])?;
        let answer = outcome_of(rt.alloc(), words, &mut files)?;
        assert!(rt; answer.is_refused(3, line), "{line}");
    }
    Ok(())
}

/// Calls, the reads that fail, and the bytes printed before the second call of the sink, which takes ten bytes in a
/// call. No file is read by `load`.
const CUT_SHORT: &[(&[&str], &[u64], &[u8])] = &[
    (&["show", "t"], &[], b"log 000102"),
    (&["replay", "r.wasm", "19"], &[], b"host-call "),
    (&["load", "1"], &[0], b"turns 19\ne"),
];

#[test]
fn the_second_write_of_show_replay_and_load_fails(rt: HostRuntime) -> Result<(), Fail> {
    for &(words, failing, printed) in CUT_SHORT {
        let mut files = files_of_both(rt.alloc(), failing)?;
        let answer = outcome_cut(rt.alloc(), words, &mut files)?;
        assert!(rt; answer.is_cut(printed));
    }
    Ok(())
}
