//! Replays with no turns, which the function of `replay` allows and the words of a call do not.

use r3_core::{Fault, replay_text};
use sample_inputs::examples::REPLAY_TWO_ANSWERS;
use std::alloc::Global;
use std::test::Fail;

/// The fault of a replay that would take a turn; None if it takes none and has these lines.
fn answer_to(alloc: Global, module: &str, lines: &str) -> Result<Option<Fault>, Fail> {
    let binary = hex::decode(alloc, module)?;
    if binary.len() > 1_000 {
        return Err(Fail::from("a module of more than 1,000 bytes"));
    }
    match replay_text(alloc, binary.as_slice(), 0) {
        Ok(text) if text.as_slice() == lines.as_bytes() => Ok(None),
        Ok(_) => Err(Fail::from("other lines")),
        Err(fault) => Ok(Some(fault)),
    }
}

/// Replay modules whose `_start` has an instruction.
const WITH_TURNS: &[&str] = &[
    REPLAY_TWO_ANSWERS,
    // (module (func (export "_start") unreachable)), with the layout of an original without functions
    "0061736d0100000001040160000003020100070a01065f737461727400000a05010300000b000c0972332e6c61796f75740000",
];

#[test]
fn a_first_turn_is_too_many(rt: HostRuntime) -> Result<(), Fail> {
    for module in WITH_TURNS {
        let answer = answer_to(rt.alloc(), module, "")?;
        assert!(rt; matches!(answer, Some(Fault::Spent { turns: 0 })));
    }
    Ok(())
}

/// Replay modules whose `_start` has no instruction, and the lines of their replays.
const WITHOUT_TURNS: &[(&str, &str)] = &[
    (
        // (module (func (export "_start"))), with the layout of an original without functions
        "0061736d0100000001040160000003020100070a01065f737461727400000a040102000b000c0972332e6c61796f75740000",
        "ended\n",
    ),
    (
        // (module (func (export "_start"))), with the layout of an original with one function
        "0061736d0100000001040160000003020100070a01065f737461727400000a040102000b000c0972332e6c61796f75740001",
        "host-call 0\nhost-return 0\nended\n",
    ),
];

#[test]
fn no_instruction_takes_no_turn(rt: HostRuntime) -> Result<(), Fail> {
    for &(module, lines) in WITHOUT_TURNS {
        let answer = answer_to(rt.alloc(), module, lines)?;
        assert!(rt; answer.is_none());
    }
    Ok(())
}
