//! Every proper prefix of a log and of a tape is refused, at the end of its whole parts.

use crate::tests::files::{Kind, file};
use sample_inputs::traces::{LOG_OF_TWO_ANSWERS, TAPE_OF_TWO_ANSWERS};
use std::alloc::Global;
use std::test::Fail;
use trace_format::FormatFault;

/// The places at which the header of the log ends, and each of its events.
const LOG_PLACES: [u64; 7] = [38, 41, 44, 51, 54, 61, 63];

/// The places at which the header of the tape ends, and each of its segments.
const TAPE_PLACES: [u64; 5] = [37, 42, 52, 62, 65];

/// The greatest of the places that is not past the length; 0 if the length is before all of them.
fn place_within(places: &[u64], length: usize) -> u64 {
    let mut found = 0;
    for place in places {
        if *place <= length as u64 {
            found = *place;
        }
    }
    found
}

#[test]
fn of_a_log(rt: HostRuntime) -> Result<(), Fail> {
    check_prefixes(rt.alloc(), Kind::Log, LOG_OF_TWO_ANSWERS, 64, &LOG_PLACES)
}

#[test]
fn of_a_tape(rt: HostRuntime) -> Result<(), Fail> {
    check_prefixes(
        rt.alloc(),
        Kind::Tape,
        TAPE_OF_TWO_ANSWERS,
        66,
        &TAPE_PLACES,
    )
}

/// Compares the faults of the proper prefixes of a file of this length, in both versions.
fn check_prefixes(
    alloc: Global,
    kind: Kind,
    body: &str,
    whole: usize,
    places: &[u64],
) -> Result<(), Fail> {
    for version in ["01", "02"] {
        let bytes = file(alloc, kind.magic(), version, body)?;
        if bytes.len() != whole {
            return Err(Fail::new(format_args!("a file of {} bytes", bytes.len())));
        }
        check_fronts(alloc, kind, bytes.as_slice(), places)?;
    }
    Ok(())
}

/// Compares the faults of the proper prefixes of a file.
fn check_fronts(alloc: Global, kind: Kind, bytes: &[u8], places: &[u64]) -> Result<(), Fail> {
    for length in 0..bytes.len() {
        let at = place_within(places, length);
        if kind.fault(alloc, &bytes[..length]) != Some(FormatFault::Bad { at }) {
            return Err(Fail::new(format_args!("the first {length} bytes")));
        }
    }
    Ok(())
}
