//! What a recorder knew when it was frozen.

use crate::steps::Step::{self, Call, Freeze, Grow, SetEntry, Write};
use crate::steps::recorder_after;
use hook_names::Hook;
use recorder::Frozen;
use std::alloc::Global;
use std::test::Fail;

/// Two bytes are found in the memory, and a function in the table; later others are found, and more pages.
const ONCE: &[Step] = &[
    Write(8, &[1, 2]),
    Call(Hook::Enter, &[1]),
    Call(Hook::Load, &[8, 0, 4]),
    SetEntry,
    Call(Hook::Ipre, &[0]),
    Call(Hook::Enter, &[1]),
    Freeze,
    Grow,
    Write(9, &[7]),
    Call(Hook::Load, &[8, 0, 4]),
    Call(Hook::Size, &[]),
];

/// The recorder is frozen again after other bytes are found; later others are found.
const TWICE: &[Step] = &[
    Call(Hook::Enter, &[1]),
    Freeze,
    Write(9, &[7]),
    Call(Hook::Load, &[8, 0, 4]),
    Freeze,
    Write(9, &[5]),
    Call(Hook::Load, &[8, 0, 4]),
];

/// What was known when the recorder was frozen last in these steps.
fn frozen_in(alloc: Global, steps: &[Step]) -> Result<Frozen, Fail> {
    let (_, frozen) = recorder_after(alloc, steps)?.close_frozen();
    match frozen {
        Some(frozen) => Ok(frozen),
        None => Err(Fail::from("nothing was frozen")),
    }
}

#[test]
fn later_calls_do_not_change_what_is_frozen(rt: HostRuntime) -> Result<(), Fail> {
    let frozen = frozen_in(rt.alloc(), ONCE)?;
    assert!(rt; frozen.byte(8) == 1);
    assert!(rt; frozen.byte(9) == 2);
    assert!(rt; frozen.byte(10) == 0);
    assert!(rt; frozen.block(0).get(9).copied() == Some(2));
    assert!(rt; frozen.block(1).is_empty());
    assert!(rt; frozen.pages() == 1);
    assert!(rt; frozen.entries() == 2);
    // the function of the original, which is before the hooks are counted
    assert!(rt; frozen.entry(0) == Some(1));
    assert!(rt; frozen.entry(1) == None);
    Ok(())
}

#[test]
fn a_second_freeze_replaces_the_first(rt: HostRuntime) -> Result<(), Fail> {
    let frozen = frozen_in(rt.alloc(), TWICE)?;
    assert!(rt; frozen.byte(8) == 0);
    assert!(rt; frozen.byte(9) == 7);
    Ok(())
}

#[test]
fn nothing_is_frozen_before_the_first_freeze(rt: HostRuntime) -> Result<(), Fail> {
    let (events, frozen) = recorder_after(rt.alloc(), &TWICE[..1])?.close_frozen();
    assert!(rt; events.as_slice().len() == 1);
    assert!(rt; frozen.is_none());
    Ok(())
}

#[test]
fn a_recorder_is_at_the_top_if_no_function_is_open(rt: HostRuntime) -> Result<(), Fail> {
    let steps = [Call(Hook::Enter, &[1]), Call(Hook::Leave, &[1])];
    assert!(rt; recorder_after(rt.alloc(), &[])?.at_top());
    assert!(rt; !recorder_after(rt.alloc(), &steps[..1])?.at_top());
    assert!(rt; recorder_after(rt.alloc(), &steps)?.at_top());
    Ok(())
}
