//! The lines of logs and of tapes.

use crate::tests::files::Kind::{self, Log, Tape};
use crate::tests::files::check_answers;
use sample_inputs::traces::{
    EACH_EFFECT, EACH_EVENT, LINES_OF_EACH_EFFECT, LINES_OF_EACH_EVENT, LINES_OF_NESTED_CALL,
    LOG_LINES_OF_TWO_ANSWERS, LOG_OF_TWO_ANSWERS, TAPE_LINES_OF_TWO_ANSWERS, TAPE_OF_TWO_ANSWERS,
};
use std::test::Fail;

/// Files: their kind, their name, their version, the bytes after the digest, and their lines after the first.
const FILES: &[(Kind, &str, &str, &str, &str)] = &[
    (
        Log,
        "two answers",
        "02",
        LOG_OF_TWO_ANSWERS,
        LOG_LINES_OF_TWO_ANSWERS,
    ),
    (
        Log,
        "two answers in the first version",
        "01",
        LOG_OF_TWO_ANSWERS,
        LOG_LINES_OF_TWO_ANSWERS,
    ),
    (Log, "no events", "02", "0012", "host-trapped\n"),
    (
        Log,
        "each kind of event",
        "02",
        EACH_EVENT,
        LINES_OF_EACH_EVENT,
    ),
    (
        Log,
        "the greatest number",
        "02",
        "0002ffffffff0f10",
        "leave 4294967295\nended\n",
    ),
    (
        Tape,
        "two answers",
        "02",
        TAPE_OF_TWO_ANSWERS,
        TAPE_LINES_OF_TWO_ANSWERS,
    ),
    (
        Tape,
        "two answers in the first version",
        "01",
        TAPE_OF_TWO_ANSWERS,
        TAPE_LINES_OF_TWO_ANSWERS,
    ),
    (
        Tape,
        "a call within an import",
        "02",
        "000020010001000020020001000021017f020000000201070001042101\
         7f010000000200222f",
        LINES_OF_NESTED_CALL,
    ),
    (
        Tape,
        "each kind of effect",
        "02",
        EACH_EFFECT,
        LINES_OF_EACH_EFFECT,
    ),
    (
        Tape,
        "a call with arguments",
        "02",
        "00002003027f01000000\
         7e02000000000000002f",
        "segment begin\ncall 3 i32:00000001 i64:0000000000000002\nclose\n",
    ),
    (Tape, "no segments", "02", "2f", "close\n"),
];

#[test]
fn files_have_their_lines(rt: HostRuntime) -> Result<(), Fail> {
    for &(kind, name, version, body, lines) in FILES {
        check_answers(rt.alloc(), kind, name, version, body, Ok(lines))?;
    }
    Ok(())
}
