//! Cuts of a tape.

use checkpoint::{CutFault, cut};
use std::alloc::{AllocError, Global};
use std::test::Fail;
use trace_format::{Digest, show_tape};
use trace_model::{Effect, Next, Origin, Segment, Tape};
use wasm_syntax::List;

/// How a segment ends.
#[derive(Clone, Copy)]
enum Ending {
    Call,
    Return,
    End,
}

/// The segments of a tape with two top-level calls, each with its number. The first function calls the import, and
/// within that call the host calls another function; the second function calls the import too.
const SEGMENTS: &[(u8, Origin, Ending)] = &[
    (0, Origin::Begin, Ending::Call),
    (1, Origin::Import(0), Ending::Call),
    (2, Origin::Back, Ending::Return),
    (3, Origin::Back, Ending::Call),
    (4, Origin::Import(0), Ending::Return),
    (5, Origin::Back, Ending::End),
];

/// The first line of a tape.
const FIRST_LINE: &str = "tape 0000000000000000000000000000000000000000000000000000000000000000\n";

/// The lines of the tape.
const WHOLE: &str = "segment begin\nbytes 0 00\ncall 1\nsegment import 0\nbytes 1 01\ncall 1\n\
    segment back\nbytes 2 02\nreturn\nsegment back\nbytes 3 03\ncall 1\n\
    segment import 0\nbytes 4 04\nreturn\nsegment back\nbytes 5 05\nend\nclose\n";

/// The lines of its cut at the second top-level call.
const FROM_SECOND_CALL: &str = "segment begin\nbytes 3 03\ncall 1\n\
    segment import 0\nbytes 4 04\nreturn\nsegment back\nbytes 5 05\nend\nclose\n";

/// A segment whose only effect is a byte, which is the segment's number, at the address of this number.
fn segment(
    alloc: Global,
    number: u8,
    origin: Origin,
    ending: Ending,
) -> Result<Segment, AllocError> {
    let byte = Effect::Bytes {
        addr: u32::from(number),
        bytes: List::from_vec(Vec::from_array(alloc, [number])?),
    };
    let mut effects = Vec::new(alloc);
    effects.push(byte)?;
    let next = match ending {
        Ending::Call => Next::Call {
            func: 1,
            args: List::new(alloc),
        },
        Ending::Return => Next::Return { result: None },
        Ending::End => Next::End,
    };
    Ok(Segment {
        origin,
        effects: List::from_vec(effects),
        next,
    })
}

/// The tape.
fn whole_tape(alloc: Global) -> Result<Tape, AllocError> {
    let mut segments = Vec::new(alloc);
    'segments: for &(number, origin, ending) in SEGMENTS {
        segments.push(segment(alloc, number, origin, ending)?)?;
    }
    Ok(Tape {
        segments: List::from_vec(segments),
    })
}

/// Whether the cut of the tape at a top-level call has these lines.
fn cut_has_lines(alloc: Global, k: u32, lines: &str) -> Result<bool, Fail> {
    let Ok(found) = cut(alloc, &whole_tape(alloc)?, k) else {
        return Err(Fail::from("there is no cut"));
    };
    let text = show_tape(alloc, &Digest::of([0; 32]), &found)?;
    let mut want = Vec::new(alloc);
    want.extend_from_slice(FIRST_LINE.as_bytes())?;
    want.extend_from_slice(lines.as_bytes())?;
    Ok(text.as_slice() == want.as_slice())
}

#[test]
fn the_cut_at_the_first_call_is_the_whole_tape(rt: HostRuntime) -> Result<(), Fail> {
    assert!(rt; cut_has_lines(rt.alloc(), 0, WHOLE)?);
    Ok(())
}

#[test]
fn a_cut_begins_with_the_segment_that_makes_the_call(rt: HostRuntime) -> Result<(), Fail> {
    assert!(rt; cut_has_lines(rt.alloc(), 1, FROM_SECOND_CALL)?);
    Ok(())
}

#[test]
fn a_tape_with_too_few_calls_has_no_cut(rt: HostRuntime) -> Result<(), Fail> {
    let alloc = rt.alloc();
    let too_few = cut(alloc, &whole_tape(alloc)?, 2).err();
    assert!(rt; too_few == Some(CutFault::NoCall { calls: 2 }));
    let empty = Tape {
        segments: List::new(alloc),
    };
    let none = cut(alloc, &empty, 0).err();
    assert!(rt; none == Some(CutFault::NoCall { calls: 0 }));
    Ok(())
}
