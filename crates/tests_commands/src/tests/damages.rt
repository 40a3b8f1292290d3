//! Damage and failure, case by case: prefixes of a module, reads that fail, bytes of output that are refused.

use crate::tests::calls::{
    Outcome, files_of, outcome_into, outcome_of, outcome_of_command, texts_of,
};
use r3_core::r3;
use r3_outside::{MemFiles, MemSink};
use sample_inputs::examples::{C_BUFFERS, TWO_ANSWERS};
use sample_inputs::scripts::ANSWERS;
use std::alloc::Global;
use std::test::Fail;

/// A script for `C_BUFFERS`, in which the host writes the buffer and the count of `read`.
const BUFFERS: &str = concat!(
    r#"{"imports":{"env":{"read":{"calls":[{"do":[{"write":{"arg":0},"bytes":"68690a00"},"#,
    r#"{"write":{"arg":2},"bytes":"03000000"}],"return":{"i32":0}}]}}},"main":[{"call":"run"}]}"#
);

/// The places at which the header of `C_BUFFERS` ends, and each of its sections but the last.
const ENDS: [usize; 9] = [8, 27, 41, 46, 53, 58, 68, 86, 95];

/// The greatest of the places that is not past the length; 0 if the length is before all of them.
fn place_within(places: &[usize], length: usize) -> usize {
    let mut found = 0;
    for place in places {
        if *place <= length {
            found = *place;
        }
    }
    found
}

/// The status and the line for a prefix of `C_BUFFERS`. Some prefixes are modules, without the exports that the
/// script names.
fn refusal_of_front(alloc: Global, length: usize) -> Result<(u8, String), Fail> {
    let at = place_within(&ENDS, length);
    Ok(match length {
        8 | 27 => (9, String::from_str(alloc, "script: unknown env\n")?),
        41 => (9, String::from_str(alloc, "script: no access memory\n")?),
        _ => (5, format!(in alloc; "malformed: at {at}\n")?),
    })
}

fn add_front(files: &mut MemFiles, front: &[u8]) -> Result<(), Fail> {
    files.add("m.wasm", front)?;
    files.add("s.json", BUFFERS.as_bytes())?;
    Ok(())
}

/// The outcome of `make` on a prefix of `C_BUFFERS`.
fn outcome_of_front(alloc: Global, front: &[u8]) -> Result<Outcome, Fail> {
    let mut files = MemFiles::new(alloc, Vec::new(alloc));
    add_front(&mut files, front)?;
    outcome_of(alloc, &["make", "m.wasm", "s.json", "29"], &mut files)
}

fn is_front_refused(alloc: Global, front: &[u8]) -> Result<bool, Fail> {
    let (status, line) = refusal_of_front(alloc, front.len())?;
    let answer = outcome_of_front(alloc, front)?;
    Ok(answer.is_refused(status, line.as_str()))
}

/// The length of the first proper prefix with another outcome.
fn first_other_front(alloc: Global, whole: &[u8]) -> Result<Option<usize>, Fail> {
    for length in 0..whole.len() {
        if !is_front_refused(alloc, &whole[..length])? {
            return Ok(Some(length));
        }
    }
    Ok(None)
}

#[test]
fn every_proper_front_of_a_module(rt: HostRuntime) -> Result<(), Fail> {
    let whole = hex::decode(rt.alloc(), C_BUFFERS)?;
    assert_eq!(rt; first_other_front(rt.alloc(), whole.as_slice())?, None);
    assert!(rt; outcome_of_command(rt.alloc(), "make", C_BUFFERS, BUFFERS, "29")?.is_done());
    Ok(())
}

/// The lines for failed reads of `make` by their numbers: each file is read twice, the second time at its end.
const UNREAD: [&str; 4] = [
    "read: m.wasm\n",
    "read: m.wasm\n",
    "read: s.json\n",
    "read: s.json\n",
];

/// The outcome of `make` if a read fails, by its number.
fn outcome_of_failing_read(alloc: Global, call: u64) -> Result<Outcome, Fail> {
    let mut files = files_of(alloc, TWO_ANSWERS, ANSWERS, vec![in alloc; call]?)?;
    outcome_of(alloc, &["make", "m.wasm", "s.json", "4"], &mut files)
}

#[test]
fn each_read_that_fails_names_its_file(rt: HostRuntime) -> Result<(), Fail> {
    for (call, line) in UNREAD.iter().enumerate() {
        assert!(rt;
            outcome_of_failing_read(rt.alloc(), call as u64)?.is_refused(3, line),
            "{line}"
        );
    }
    assert!(rt; outcome_of_failing_read(rt.alloc(), 4)?.is_done());
    Ok(())
}

const HISTORY: [&str; 4] = ["history", "m.wasm", "s.json", "4"];

/// The outcome of `history` if each write takes a byte, and the write of this number fails.
fn outcome_of_failing_write(
    alloc: Global,
    files: &mut MemFiles,
    byte: usize,
) -> Result<Outcome, Fail> {
    let out = MemSink::new(alloc, 1, vec![in alloc; byte as u64]?);
    outcome_into(alloc, &HISTORY, files, out)
}

/// The number of the first write whose failure has another outcome.
fn first_other_cut(
    alloc: Global,
    files: &mut MemFiles,
    whole: &[u8],
) -> Result<Option<usize>, Fail> {
    for byte in 0..whole.len() {
        if !outcome_of_failing_write(alloc, files, byte)?.is_cut(&whole[..byte]) {
            return Ok(Some(byte));
        }
    }
    Ok(None)
}

#[test]
fn each_byte_of_a_history_that_is_refused(rt: HostRuntime) -> Result<(), Fail> {
    let alloc = rt.alloc();
    let mut files = files_of(alloc, TWO_ANSWERS, ANSWERS, Vec::new(alloc))?;
    let whole = outcome_of(alloc, &HISTORY, &mut files)?;
    assert!(rt; whole.printed.len() > 100);
    assert!(rt; first_other_cut(alloc, &mut files, whole.printed.as_slice())? == None);
    Ok(())
}

/// Whether the line of error of a call without its words is cut after three bytes.
fn is_usage_cut(alloc: Global) -> Result<bool, Fail> {
    let words = texts_of(alloc, &["make"])?;
    let mut err = MemSink::new(alloc, 1, vec![in alloc; 3]?);
    let mut files = MemFiles::new(alloc, Vec::new(alloc));
    let mut out = MemSink::new(alloc, 1, Vec::new(alloc));
    let status = r3(alloc, words.as_slice(), &mut files, &mut out, &mut err);
    Ok(status == 2 && err.bytes() == b"usa".as_slice() && out.bytes().is_empty())
}

#[test]
fn a_line_of_error_that_is_cut(rt: HostRuntime) -> Result<(), Fail> {
    assert!(rt; is_usage_cut(rt.alloc())?);
    Ok(())
}
