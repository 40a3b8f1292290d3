//! Files of logs, and the files of tapes that they are reduced to.

use r3_reduce::{Fault, reduce_log};
use sample_inputs::traces::{DIGEST, LOG, LOG_OF_TWO_ANSWERS, TAPE, TAPE_OF_TWO_ANSWERS};
use std::alloc::Global;
use std::test::Fail;
use wasm_syntax::limits::MAX_TRACE_BYTES;

/// The places at which the header of `LOG_OF_TWO_ANSWERS` ends, and each of its events.
const ENDS: [u64; 7] = [38, 41, 44, 51, 54, 61, 63];

/// The number of calls of the import in the log of a heavy tape, in each of which the host makes a segment that
/// weighs 3.
const CALLS: usize = 700_000;

/// A call of the import, which returns a number, and a byte that is found after it.
const CALL_EVENTS: &str = "03010004017f01000000070001ff";

/// The segment of such a call.
const CALL_SEGMENT: &str = "010001070001ff21017f01000000";

/// A file with these first bytes, in a version, with the digest and the bytes after it.
fn file(alloc: Global, magic: &str, version: u8, body: &str) -> Result<Vec<u8>, Fail> {
    let mut bytes = hex::decode(alloc, magic)?;
    bytes.push(version)?;
    bytes.extend_from_slice(hex::decode(alloc, DIGEST)?.as_slice())?;
    bytes.extend_from_slice(hex::decode(alloc, body)?.as_slice())?;
    Ok(bytes)
}

/// The file of a log.
fn log_file(alloc: Global, version: u8, body: &str) -> Result<Vec<u8>, Fail> {
    file(alloc, LOG, version, body)
}

/// A file in which a part is repeated `CALLS` times, between a start and an end.
fn repeated(
    alloc: Global,
    magic: &str,
    start: &str,
    part: &str,
    end: &str,
) -> Result<Vec<u8>, Fail> {
    let mut bytes = file(alloc, magic, 2, start)?;
    let call = hex::decode(alloc, part)?;
    for _ in 0..CALLS {
        bytes.extend_from_slice(call.as_slice())?;
    }
    bytes.extend_from_slice(hex::decode(alloc, end)?.as_slice())?;
    Ok(bytes)
}

/// What `reduce` returns for the file of a log.
fn reduced(alloc: Global, log: &[u8]) -> Result<Result<Vec<u8>, Fault>, Fail> {
    if log.len() as u64 > MAX_TRACE_BYTES {
        return Err(Fail::from("too many bytes"));
    }
    Ok(reduce_log(alloc, log))
}

/// The place of the fault of a cut log.
fn place(length: u64) -> u64 {
    let mut at = 0;
    for end in ENDS {
        if end <= length {
            at = end;
        }
    }
    at
}

#[test]
fn logs_of_both_versions_are_reduced(rt: HostRuntime) -> Result<(), Fail> {
    let alloc = rt.alloc();
    let tape = file(alloc, TAPE, 2, TAPE_OF_TWO_ANSWERS)?;
    for version in [1, 2] {
        let log = log_file(alloc, version, LOG_OF_TWO_ANSWERS)?;
        match reduced(alloc, log.as_slice())? {
            Ok(bytes) => assert!(rt; bytes.as_slice() == tape.as_slice()),
            Err(_) => return Err(Fail::new(format_args!("version {version}"))),
        }
    }
    Ok(())
}

#[test]
fn a_tape_too_heavy_for_a_replay_module_is_written(rt: HostRuntime) -> Result<(), Fail> {
    let alloc = rt.alloc();
    let log = repeated(alloc, LOG, "01010100", CALL_EVENTS, "020110")?;
    let tape = repeated(alloc, TAPE, "0000200100", CALL_SEGMENT, "0200222f")?;
    match reduced(alloc, log.as_slice())? {
        Ok(bytes) => assert!(rt; bytes.as_slice() == tape.as_slice()),
        Err(_) => return Err(Fail::from("no tape")),
    }
    Ok(())
}

#[test]
fn a_cut_log_is_refused(rt: HostRuntime) -> Result<(), Fail> {
    let alloc = rt.alloc();
    let log = log_file(alloc, 1, LOG_OF_TWO_ANSWERS)?;
    assert!(rt; log.len() == 64);
    for length in 0..64 {
        let Some(front) = log.get(..length) else {
            return Err(Fail::new(format_args!("{length} bytes")));
        };
        match reduced(alloc, front)? {
            Err(Fault::BadTrace { at }) => assert!(rt; at == place(length as u64)),
            _ => return Err(Fail::new(format_args!("{length} bytes"))),
        }
    }
    Ok(())
}

#[test]
fn another_version_is_refused(rt: HostRuntime) -> Result<(), Fail> {
    let alloc = rt.alloc();
    let log = log_file(alloc, 3, LOG_OF_TWO_ANSWERS)?;
    match reduced(alloc, log.as_slice())? {
        Err(Fault::TraceVersion { found }) => assert!(rt; found == 3),
        _ => return Err(Fail::new(format_args!("taken"))),
    }
    Ok(())
}

#[test]
fn an_unbalanced_log_is_refused(rt: HostRuntime) -> Result<(), Fail> {
    let alloc = rt.alloc();
    let log = log_file(alloc, 1, "01010100020210")?;
    match reduced(alloc, log.as_slice())? {
        Err(Fault::Unbalanced { event }) => assert!(rt; event == 1),
        _ => return Err(Fail::new(format_args!("taken"))),
    }
    Ok(())
}
