//! The logs of steps, and calls out of order.

use crate::rows::{OUT_OF_ORDER, ROWS};
use crate::steps::{Step, call, new_store, recorder_after};
use base::Outcome;
use hook_names::{Hook, HookFault};
use recorder::Recorder;
use std::alloc::Global;
use std::test::Fail;
use trace_format::{Digest, show_log};
use trace_model::Events;

/// The first line of a log.
const FIRST_LINE: &str = "log 0000000000000000000000000000000000000000000000000000000000000000\n";

/// The steps before a call that is out of order: with the function entered, two loads of a known byte.
const BEFORE: &[Step] = &[
    Step::Call(Hook::Enter, &[1]),
    Step::Call(Hook::Load, &[0, 0, 1]),
    Step::Call(Hook::Load, &[0, 0, 1]),
];

/// Whether the log has these lines.
fn has_lines(alloc: Global, recorder: Recorder<Events>, lines: &str) -> Result<bool, Fail> {
    let log = recorder.finish(Outcome::Ended);
    let text = show_log(alloc, &Digest::of([0; 32]), &log)?;
    let mut want = Vec::new(alloc);
    want.extend_from_slice(FIRST_LINE.as_bytes())?;
    want.extend_from_slice(lines.as_bytes())?;
    Ok(text.as_slice() == want.as_slice())
}

#[test]
fn logs_have_these_lines(rt: HostRuntime) -> Result<(), Fail> {
    for &(name, steps, lines) in ROWS {
        let recorder = recorder_after(rt.alloc(), steps)?;
        if !has_lines(rt.alloc(), recorder, lines)? {
            return Err(Fail::new(format_args!("{name}")));
        }
    }
    Ok(())
}

/// Whether a call after these steps is refused as out of order, with its number.
fn is_disorder(alloc: Global, before: &[Step], kind: Hook, bits: &[u64]) -> Result<bool, Fail> {
    let mut recorder = recorder_after(alloc, before)?;
    let store = new_store(alloc)?;
    match call(&mut recorder, &store, kind, bits) {
        Err(HookFault::Order { number }) => Ok(number == before.len() as u64),
        _ => Ok(false),
    }
}

#[test]
fn calls_out_of_order_are_reported_by_their_numbers(rt: HostRuntime) -> Result<(), Fail> {
    for &(name, kind, bits) in OUT_OF_ORDER {
        let after_one = is_disorder(rt.alloc(), &BEFORE[..1], kind, bits)?;
        if !after_one || !is_disorder(rt.alloc(), BEFORE, kind, bits)? {
            return Err(Fail::new(format_args!("{name}")));
        }
    }
    Ok(())
}
