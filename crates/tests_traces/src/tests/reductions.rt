//! Logs, and the tapes that they are reduced to.

use base::Outcome;
use sample_inputs::traces::{LINES_OF_NESTED_CALL, LOG_OF_TWO_ANSWERS, TAPE_LINES_OF_TWO_ANSWERS};
use std::alloc::Global;
use std::test::Fail;
use trace_format::{Digest, read_log, show_tape};
use trace_model::{Event, EventSink, Tape};
use trace_reduce::{NoMemory, ReduceFault, Reducer, ReducerFault, reduce};
use wasm_syntax::{Bytes, Val, ValType, Vals};

/// A log's file up to its digest, in hexadecimal.
const HEADER: &str = "72336c6702000102030405060708090a0b0c0d0e0f101112131415161718191a1b1c1d1e1f";

/// The first line of a tape.
const FIRST_LINE: &str = "tape 000102030405060708090a0b0c0d0e0f101112131415161718191a1b1c1d1e1f\n";

/// Logs in which function 0 is imported: the bytes after the digest, and the lines of the tape or why there is
/// none.
const ROWS: &[(&str, &str, Result<&str, ReduceFault>)] = &[
    (
        "two answers",
        LOG_OF_TWO_ANSWERS,
        Ok(TAPE_LINES_OF_TWO_ANSWERS),
    ),
    ("nothing", "0110", Ok("segment begin\nend\nclose\n")),
    (
        "bytes that are found",
        "010101000301000400070a02ccdd020110",
        Ok(
            "segment begin\ncall 1\nsegment import 0\nbytes 10 ccdd\nreturn\nsegment back\nend\n\
             close\n",
        ),
    ),
    (
        "a growth that nothing sees",
        "0101010003010004000502020110",
        Ok("segment begin\ncall 1\nsegment import 0\nreturn\nsegment back\nend\nclose\n"),
    ),
    (
        "a growth that is seen",
        "010101000301000400050206020110",
        Ok("segment begin\ncall 1\nsegment import 0\ngrow 2\nreturn\nsegment back\nend\nclose\n"),
    ),
    (
        "a trap at the call of an entry of another type",
        "0101010003010004000800010303010311",
        Ok("segment begin\ncall 1\nsegment import 0\nentry 0 3\nreturn\nclose\n"),
    ),
    (
        "a trap at the call of an entry that holds an import",
        "0101010003010004000800010003010011",
        Ok("segment begin\ncall 1\nsegment import 0\nentry 0 0\nreturn\nclose\n"),
    ),
    (
        "a trap of the host",
        "0101010003010012",
        Ok("segment begin\ncall 1\nsegment import 0\ntrap\nclose\n"),
    ),
    (
        "a trap in a function that the host calls within an import",
        "0101010003010001020011",
        Ok("segment begin\ncall 1\nsegment import 0\ncall 2\nclose\n"),
    ),
    (
        "windows of a function that the host calls within an import",
        "0101010003010001010007040109020104000704010802\
         0110",
        Ok(
            "segment begin\ncall 1\nsegment import 0\nbytes 4 09\ncall 1\nsegment back\n\
             bytes 4 08\nreturn\nsegment back\nend\nclose\n",
        ),
    ),
    (
        "buffers on a C stack",
        "0101010003010004017f0000000007f0870403\
         68690a07f8870401030301020102017f6b690a00020204017fd6d21400020110",
        Ok(
            "segment begin\ncall 1\nsegment import 0\nbytes 66544 68690a\nbytes 66552 03\n\
             return i32:00000000\nsegment back\nend\nclose\n",
        ),
    ),
    (
        "much that is found, out of order and some of it twice",
        "01010100030100040007080201020903\
         7f0900000007040105080700050206\
         07050306070803010101010008020101020104\
         000709020304\
         0a0609017f080000000807010105030607140100\
         0a07020110",
        Ok(
            "segment begin\ncall 1\nsegment import 0\ngrow 2\ntable 6\nbytes 4 05060708010204\n\
             bytes 20 00\nentry 2 1\nentry 7 none\nglobal 1 i32:00000008\nglobal 3 i32:00000009\n\
             return\nsegment back\nend\nclose\n",
        ),
    ),
    (
        "bytes at the greatest address and past it",
        "01010100030100040007ffffffff0f02aabb07feffffff0f02ccdd020110",
        Ok(
            "segment begin\ncall 1\nsegment import 0\nbytes 4294967294 ccaabb\nreturn\n\
             segment back\nend\nclose\n",
        ),
    ),
    (
        "another function ends",
        "01010100020210",
        Err(ReduceFault::Unbalanced { event: 1 }),
    ),
    (
        "the run ends within a function",
        "0101010010",
        Err(ReduceFault::Unbalanced { event: 1 }),
    ),
];

/// Whether a tape has these lines.
fn is_shown(alloc: Global, digest: &Digest, tape: &Tape, text: &str) -> Result<bool, Fail> {
    let mut lines = Vec::new(alloc);
    lines.extend_from_slice(FIRST_LINE.as_bytes())?;
    lines.extend_from_slice(text.as_bytes())?;
    Ok(show_tape(alloc, digest, tape)?.as_slice() == lines.as_slice())
}

/// Whether a row has the expected result.
fn check_row(alloc: Global, body: &str, want: Result<&str, ReduceFault>) -> Result<bool, Fail> {
    let mut bytes = hex::decode(alloc, HEADER)?;
    bytes.extend_from_slice(hex::decode(alloc, body)?.as_slice())?;
    let Ok((digest, log)) = read_log(alloc, bytes.as_slice()) else {
        return Ok(false);
    };
    match (reduce(alloc, &log), want) {
        (Ok(tape), Ok(text)) => is_shown(alloc, &digest, &tape, text),
        (Err(fault), Err(cause)) => Ok(fault == cause),
        _ => Ok(false),
    }
}

#[test]
fn logs_are_reduced(rt: HostRuntime) -> Result<(), Fail> {
    let alloc = rt.alloc();
    for &(name, body, want) in ROWS {
        if !check_row(alloc, body, want)? {
            return Err(Fail::new(format_args!("{name}")));
        }
    }
    Ok(())
}

/// A 32-bit integer.
fn number(bits: u64) -> Val {
    Val {
        ty: ValType::I32,
        bits,
    }
}

/// Takes the events of a run in which the host calls a function within an import.
fn take_nested_call(alloc: Global, reducer: &mut Reducer) -> Result<(), NoMemory> {
    let mut bytes = Vec::new(alloc);
    bytes.push(4)?;
    reducer.event(Event::Enter {
        func: 1,
        args: Vals::new(alloc),
    })?;
    reducer.event(Event::Pre { callee: Some(0) })?;
    reducer.event(Event::Enter {
        func: 2,
        args: Vals::new(alloc),
    })?;
    reducer.event(Event::Pre { callee: Some(0) })?;
    reducer.event(Event::Post {
        result: Some(number(2)),
    })?;
    reducer.event(Event::Leave { func: 2 })?;
    reducer.event(Event::Post {
        result: Some(number(1)),
    })?;
    reducer.event(Event::Bytes {
        addr: 0,
        bytes: Bytes::from_vec(bytes),
    })?;
    reducer.event(Event::Leave { func: 1 })
}

/// The result for these events with this limit of the tape's weight.
fn nested_call(alloc: Global, most: u64) -> Result<Tape, ReducerFault> {
    let mut reducer = Reducer::new(alloc, 1, most);
    take_nested_call(alloc, &mut reducer).map_err(|_| ReducerFault::Memory)?;
    reducer.finish(Outcome::Ended)
}

#[test]
fn a_tape_may_weigh_the_most(rt: HostRuntime) -> Result<(), Fail> {
    let alloc = rt.alloc();
    let Ok(tape) = nested_call(alloc, 8) else {
        return Err(Fail::new(format_args!("no tape")));
    };
    assert!(rt; tape.weight() == 8);
    let bytes = hex::decode(alloc, HEADER)?;
    let Some((_, digest)) = bytes.as_slice().split_last_chunk::<32>() else {
        return Err(Fail::new(format_args!("no digest")));
    };
    assert!(rt; is_shown(alloc, &Digest::of(*digest), &tape, LINES_OF_NESTED_CALL)?);
    Ok(())
}

#[test]
fn a_heavier_tape_is_refused(rt: HostRuntime) -> Result<(), Fail> {
    let alloc = rt.alloc();
    for most in [7, 3, 0] {
        let Err(fault) = nested_call(alloc, most) else {
            return Err(Fail::new(format_args!("a tape")));
        };
        assert!(rt; fault == ReducerFault::TooHeavy { weight: 8 });
    }
    Ok(())
}

#[test]
fn another_function_ends(rt: HostRuntime) -> Result<(), Fail> {
    let alloc = rt.alloc();
    let mut reducer = Reducer::new(alloc, 1, 8);
    assert!(rt; reducer.imports() == 1);
    reducer.event(Event::Enter {
        func: 1,
        args: Vals::new(alloc),
    })?;
    reducer.event(Event::Leave { func: 2 })?;
    reducer.event(Event::Seen)?;
    let Err(fault) = reducer.finish(Outcome::Ended) else {
        return Err(Fail::new(format_args!("a tape")));
    };
    assert!(rt; fault == ReducerFault::Unbalanced { event: 1 });
    Ok(())
}
