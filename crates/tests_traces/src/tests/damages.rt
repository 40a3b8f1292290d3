//! Files that are refused: their version, or the place of their fault.

use crate::tests::files::Kind::{self, Log, Tape};
use crate::tests::files::{check_answers, file};
use sample_inputs::traces::{LOG_OF_TWO_ANSWERS, TAPE_OF_TWO_ANSWERS};
use std::alloc::Global;
use std::test::Fail;
use trace_format::FormatFault;
use trace_format::FormatFault::{Bad, Version};

/// Files of unknown versions: their kind, their version in hexadecimal and as a number, the bytes after the
/// digest.
const VERSIONS: &[(Kind, &str, u8, &str)] = &[
    (Log, "03", 3, LOG_OF_TWO_ANSWERS),
    (Log, "00", 0, "0010"),
    (Log, "ff", 255, ""),
    (Tape, "03", 3, TAPE_OF_TWO_ANSWERS),
];

/// Faulty files: their kind, their version, and the place of their fault; the name of each, and the bytes after
/// the digest. The header of a log with few imported functions has 38 bytes, that of a tape 37.
const FAULTS: &[(Kind, &str, u64, &[(&str, &str)])] = &[
    (
        Log,
        "01",
        38,
        &[("a table in the first version", "010a0510")],
    ),
    (
        Log,
        "02",
        0,
        &[
            ("no number of imports", ""),
            ("a long number of imports", "810010"),
        ],
    ),
    (
        Log,
        "02",
        38,
        &[
            ("a long number in an event", "0102810010"),
            ("a number past 32 bits", "0102808080801010"),
            ("an unknown tag", "010b10"),
            ("bytes that are none", "01070000000010"),
            ("fewer bytes than their count", "01070003aabb"),
            ("fewer values than their count", "010101027f0500000010"),
            ("an option by another byte", "01030210"),
            ("a value of a type that is no number's", "0104017010"),
            ("no outcome at all", "01"),
        ],
    ),
    (
        Log,
        "02",
        40,
        &[
            ("no outcome", "010206"),
            ("a byte after the outcome", "01061000"),
        ],
    ),
    (Log, "02", 39, &[("two outcomes", "011010")]),
    (Log, "02", 43, &[("a fault after events", "010502060213")]),
    (
        Tape,
        "01",
        37,
        &[("a table in the first version", "00010a05222f")],
    ),
    (
        Tape,
        "02",
        37,
        &[
            ("a size that is seen", "000106222f"),
            ("an unknown origin", "0300222f"),
            ("an unknown next", "0000242f"),
            ("fewer effects than their count", "00020501222f"),
            ("a long number", "00010581002f"),
            ("nothing", ""),
        ],
    ),
    (Tape, "02", 40, &[("no end", "000022")]),
    (Tape, "02", 41, &[("two ends", "0000222f2f")]),
];

#[test]
fn other_versions_are_refused(rt: HostRuntime) -> Result<(), Fail> {
    for &(kind, version, found, body) in VERSIONS {
        check_answers(
            rt.alloc(),
            kind,
            version,
            version,
            body,
            Err(Version { found }),
        )?;
    }
    Ok(())
}

#[test]
fn faulty_files_are_refused(rt: HostRuntime) -> Result<(), Fail> {
    for &(kind, version, at, files) in FAULTS {
        for &(name, body) in files {
            check_answers(rt.alloc(), kind, name, version, body, Err(Bad { at }))?;
        }
    }
    Ok(())
}

/// The first bytes of each kind of file and of a module, and its version.
const A_LOG: (&str, &str, &str) = ("72336c67", "02", LOG_OF_TWO_ANSWERS);

const A_TAPE: (&str, &str, &str) = ("72337470", "02", TAPE_OF_TWO_ANSWERS);

// malformed: no version
const A_MODULE: (&str, &str, &str) = ("0061736d", "01", "");

/// Why a file is not shown as one of a kind; None if it is.
fn fault_as(
    alloc: Global,
    kind: Kind,
    other: (&str, &str, &str),
) -> Result<Option<FormatFault>, Fail> {
    let bytes = file(alloc, other.0, other.1, other.2)?;
    Ok(kind.shown_lines(alloc, bytes.as_slice()).err())
}

#[test]
fn one_kind_is_not_the_other(rt: HostRuntime) -> Result<(), Fail> {
    assert!(rt; fault_as(rt.alloc(), Tape, A_LOG)? == Some(Bad { at: 0 }));
    assert!(rt; fault_as(rt.alloc(), Log, A_TAPE)? == Some(Bad { at: 0 }));
    assert!(rt; fault_as(rt.alloc(), Log, A_MODULE)? == Some(Bad { at: 0 }));
    Ok(())
}
