//! Files and sinks that fail, and files that are too long.

use crate::tests::calls::{Outcome, files_of, outcome_cut, outcome_into, outcome_of, texts_of};
use r3_core::r3_in_memory;
use r3_outside::{MemFiles, MemSink, SureFiles, SureSink};
use sample_inputs::examples::TWO_ANSWERS;
use sample_inputs::scripts::ANSWERS;
use std::alloc::Global;
use std::test::Fail;

const WORDS: [&str; 4] = ["make", "m.wasm", "s.json", "4"];

/// The outcome of a call if reads fail, by their numbers.
fn outcome_of_failing_reads(
    alloc: Global,
    failing: &[u64],
    words: &[&str],
) -> Result<Outcome, Fail> {
    let failing = Vec::from_slice(alloc, failing)?;
    let mut files = files_of(alloc, TWO_ANSWERS, ANSWERS, failing)?;
    outcome_of(alloc, words, &mut files)
}

/// Whether a call whose read of this number fails prints nothing and has the status of a failed read; None if it does
/// its job.
fn is_read_fault(alloc: Global, call: u64) -> Result<Option<bool>, Fail> {
    let answer = outcome_of_failing_reads(alloc, &[call], &WORDS)?;
    if answer.status == 0 {
        return Ok(None);
    }
    Ok(Some(answer.status == 3 && answer.printed.is_empty()))
}

/// The number of the first read whose failure is no fault of the call.
fn first_done(alloc: Global) -> Result<Option<u64>, Fail> {
    for call in 0..9u64 {
        match is_read_fault(alloc, call)? {
            Some(true) => {}
            Some(false) => return Err(Fail::from("another outcome of a failed read")),
            None => return Ok(Some(call)),
        }
    }
    Ok(None)
}

#[test]
fn each_failing_read_is_a_read_fault(rt: HostRuntime) -> Result<(), Fail> {
    assert_eq!(rt; first_done(rt.alloc())?, Some(4));
    Ok(())
}

/// The reads that fail, the words of a call, and its line.
const UNREAD: &[(&[u64], [&str; 4], &str)] = &[
    (&[0], WORDS, "read: m.wasm\n"),
    (
        &[],
        ["make", "m.wasm", "a\\b\n\u{e9}~", "4"],
        "read: a\\5cb\\0a\\c3\\a9~\n",
    ),
];

#[test]
fn a_file_that_is_not_read_is_named(rt: HostRuntime) -> Result<(), Fail> {
    for &(failing, words, line) in UNREAD {
        let answer = outcome_of_failing_reads(rt.alloc(), failing, &words)?;
        assert!(rt; answer.is_refused(3, line), "{line}");
    }
    Ok(())
}

/// Adds a file of as many bytes as a file may have, and one of a byte more.
fn add_long_files(alloc: Global, files: &mut MemFiles) -> Result<(), Fail> {
    let mut zeros = vec![in alloc; 0u8; 8_388_608]?;
    files.add("long", zeros.as_slice())?;
    zeros.push(0)?;
    files.add("longer", zeros.as_slice())?;
    Ok(())
}

/// The files of a module and of a script, the status of `make`, and its line.
const LONG: &[(&str, &str, u8, &str)] = &[
    ("longer", "s.json", 4, "too long: longer 8388608\n"),
    ("m.wasm", "longer", 4, "too long: longer 8388608\n"),
    ("long", "s.json", 5, "malformed: at 0\n"),
    ("m.wasm", "long", 9, "script: not json\n"),
];

/// The first of these lines that `make` does not print.
fn first_other_line(alloc: Global, files: &mut MemFiles) -> Result<Option<&'static str>, Fail> {
    for &(module, script, status, line) in LONG {
        let answer = outcome_of(alloc, &["make", module, script, "4"], files)?;
        if !answer.is_refused(status, line) {
            return Ok(Some(line));
        }
    }
    Ok(None)
}

#[test]
fn files_at_and_past_their_limit(rt: HostRuntime) -> Result<(), Fail> {
    let alloc = rt.alloc();
    let mut files = files_of(alloc, TWO_ANSWERS, ANSWERS, Vec::new(alloc))?;
    add_long_files(alloc, &mut files)?;
    assert!(rt; first_other_line(alloc, &mut files)? == None);
    Ok(())
}

/// Words, and the bytes printed before the second call of the sink, which takes ten bytes in a call: the
/// preamble and the beginning of a section with the types; the beginning of the first line.
const CUT_SHORT: &[(&str, &str, &[u8])] = &[
    ("make", "4", b"\0asm\x01\0\0\0\x01\x20"),
    ("history", "100", b"host-call "),
];

fn outcome_of_second_write(alloc: Global, command: &str, turns: &str) -> Result<Outcome, Fail> {
    let mut files = files_of(alloc, TWO_ANSWERS, ANSWERS, Vec::new(alloc))?;
    outcome_cut(alloc, &[command, "m.wasm", "s.json", turns], &mut files)
}

#[test]
fn the_second_write_fails(rt: HostRuntime) -> Result<(), Fail> {
    for &(command, turns, printed) in CUT_SHORT {
        assert!(rt;
            outcome_of_second_write(rt.alloc(), command, turns)?.is_cut(printed),
            "{command}"
        );
    }
    Ok(())
}

/// The outcome of `make` if each write takes ten bytes, and the write of this number fails.
fn outcome_of_failing_write(
    alloc: Global,
    files: &mut MemFiles,
    call: u64,
) -> Result<Outcome, Fail> {
    let out = MemSink::new(alloc, 10, vec![in alloc; call]?);
    outcome_into(alloc, &WORDS, files, out)
}

/// Whether what was printed before each failed write is written, up to the first that is no fault, since all is
/// written before it.
fn are_cut(alloc: Global, files: &mut MemFiles, whole: &[u8]) -> Result<bool, Fail> {
    for call in 0..100u64 {
        let answer = outcome_of_failing_write(alloc, files, call)?;
        if answer.status == 0 {
            return Ok(answer.printed.as_slice() == whole);
        }
        let before = (call as usize * 10).min(whole.len());
        if !answer.is_cut(&whole[..before]) {
            return Ok(false);
        }
    }
    Ok(false)
}

#[test]
fn each_failing_write_leaves_what_was_written_before(rt: HostRuntime) -> Result<(), Fail> {
    let alloc = rt.alloc();
    let mut files = files_of(alloc, TWO_ANSWERS, ANSWERS, Vec::new(alloc))?;
    let whole = outcome_of(alloc, &WORDS, &mut files)?;
    assert!(rt; are_cut(alloc, &mut files, whole.printed.as_slice())?);
    Ok(())
}

fn add_sure_files(alloc: Global, files: &mut SureFiles) -> Result<(), Fail> {
    files.add("m.wasm", hex::decode(alloc, TWO_ANSWERS)?.as_slice())?;
    files.add("s.json", ANSWERS.as_bytes())?;
    Ok(())
}

/// Whether a call over files that do not fail does its job, without a line of error.
fn does_its_job(alloc: Global, files: &mut SureFiles) -> Result<bool, Fail> {
    let words = texts_of(alloc, &WORDS)?;
    let mut out = SureSink::new(alloc);
    let mut err = SureSink::new(alloc);
    let status = r3_in_memory(alloc, words.as_slice(), files, &mut out, &mut err);
    Ok(status == 0 && err.bytes() == Some(b"".as_slice()))
}

#[test]
fn sure_files_and_sinks_do_the_job(rt: HostRuntime) -> Result<(), Fail> {
    let mut files = SureFiles::new(rt.alloc());
    add_sure_files(rt.alloc(), &mut files)?;
    assert!(rt; does_its_job(rt.alloc(), &mut files)?);
    Ok(())
}
