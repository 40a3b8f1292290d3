//! Logs that are balanced, and the first event that is not allowed.

use crate::tests::files::file;
use sample_inputs::traces::{LOG, LOG_OF_TWO_ANSWERS};
use std::alloc::Global;
use std::test::Fail;
use trace_format::read_log;
use trace_model::{BalanceFault, check_balance};

/// The first event of logs that is not allowed, `None` if they are balanced; the name of each, and the bytes
/// after its digest. Function 0 is imported.
const ROWS: &[(Option<u64>, &[(&str, &str)])] = &[
    (
        None,
        &[
            ("two answers", LOG_OF_TWO_ANSWERS),
            ("nothing", "0110"),
            ("a called function", "0101010003010101010002010400020110"),
            (
                "two that the host calls within an import",
                "01010100030100010100020101010002010400020110",
            ),
            ("a size that is seen", "01010100050206020110"),
            ("a trap in a function", "0101010011"),
            ("a trap at a call", "01010100030011"),
            ("a trap of the host", "0101010003010012"),
        ],
    ),
    (
        Some(0),
        &[
            ("an import begins", "0101000010"),
            ("a call without a function", "0103010010"),
            ("a return to nobody", "01040010"),
            ("a global without a function", "0109007f0000000010"),
            ("a trap without one", "0111"),
        ],
    ),
    (
        Some(1),
        &[
            ("another function ends", "01010100020210"),
            ("the run ends within a function", "0101010010"),
            (
                "a function within another, without a call",
                "0101010001010010",
            ),
            ("a size that is seen without growth", "010101000610"),
        ],
    ),
    (
        Some(2),
        &[
            (
                "another function than the called one",
                "0101010003010101020010",
            ),
            (
                "a called function that does not begin",
                "01010100030101040010",
            ),
            ("a return of a call of nobody", "010101000300040010"),
            ("a growth while the host works", "01010100030100050210"),
            (
                "one within a call of a defined function",
                "0101010003010112",
            ),
        ],
    ),
    (
        Some(4),
        &[
            (
                "one that begins twice",
                "010101000301010101000201010100020110",
            ),
            (
                "a trap after a call within an import",
                "01010100030100010100020111",
            ),
        ],
    ),
];

/// Whether a log is balanced, or the first event that is not allowed.
fn balance_of(alloc: Global, body: &str) -> Result<Result<(), BalanceFault>, Fail> {
    let bytes = file(alloc, LOG, "02", body)?;
    match read_log(alloc, bytes.as_slice()) {
        Ok((_, log)) => Ok(check_balance(alloc, &log)),
        Err(_) => Err(Fail::from("a log that is not read")),
    }
}

#[test]
fn the_first_event_out_of_order(rt: HostRuntime) -> Result<(), Fail> {
    for &(unordered, rows) in ROWS {
        let want = match unordered {
            None => Ok(()),
            Some(event) => Err(BalanceFault::Event(event)),
        };
        for &(name, body) in rows {
            assert!(rt; balance_of(rt.alloc(), body)? == want, "{name}");
        }
    }
    Ok(())
}
