//! What is known of a memory.

ghost use Rattle.std.specs.Prelude.{◌+◌, ◌≤◌, length};
ghost use Rattle.wasm_syntax.specs.declared.limits.TheConstants.{PAGE_SIZE};

use crate::modules::{checked_module, no_supply};
use shadow_memory::{Difference, ShadowMemory};
use std::alloc::Global;
use std::test::Fail;

/// The bytes in the memory, around the end of its first 4,096 bytes.
const BYTES: [u8; 8] = [1, 2, 3, 4, 5, 6, 7, 8];

/// What is known of a memory of one page with bytes from an offset on.
#[tactic(auto, using(crate::proofs::Linking::links))]
fn shadow_of(alloc: Global, offset: u32, bytes: &[u8]) -> Result<ShadowMemory, Fail>
    requires { offset + length bytes.now ≤ PAGE_SIZE }
{
    let checked = checked_module(alloc, offset, bytes)?;
    let supply = no_supply(alloc);
    Ok(ShadowMemory::of_opening(alloc, &checked, &supply)?)
}

/// The address of the first row, an address, a byte and whether another one is known there, that is not so.
fn first_other(shadow: &ShadowMemory, rows: &[(u64, u8, bool)]) -> Option<u64> {
    for &(addr, byte, is_other) in rows {
        if shadow.differs(addr, byte) != is_other {
            return Some(addr);
        }
    }
    None
}

/// The address of the first row, an address and a byte, that is frozen otherwise.
fn first_other_frozen(shadow: &ShadowMemory, rows: &[(u64, u8)]) -> Option<u64> {
    for &(addr, byte) in rows {
        if shadow.frozen_byte(addr) != byte {
            return Some(addr);
        }
    }
    None
}

/// What is known after two bytes were taken.
const NEIGHBOURS: &[(u64, u8, bool)] = &[
    (4_091, 0, false),
    (4_092, 1, false),
    (4_094, 3, false),
    (4_095, 0xaa, false),
    (4_096, 0xbb, false),
    (4_095, 4, true),
    (4_096, 5, true),
    (4_097, 6, false),
    (4_099, 8, false),
    (4_100, 0, false),
    (65_536, 0, false),
];

/// Whether all but two taken bytes are those of the opening.
fn keeps_the_others(alloc: Global) -> Result<bool, Fail> {
    let mut shadow = shadow_of(alloc, 4_092, &BYTES)?;
    shadow.take(4_095, 0xaa)?;
    shadow.take(4_096, 0xbb)?;
    let is_so = first_other(&shadow, NEIGHBOURS) == None;
    Ok(is_so && shadow.known_pages() == 1 && shadow.noticed_pages() == 1)
}

#[test]
fn neighbours_of_taken_bytes_are_those_of_the_opening(rt: HostRuntime) -> Result<(), Fail> {
    assert!(rt; keeps_the_others(rt.alloc())?);
    Ok(())
}

/// Bytes that are read, with two runs of others than those known.
const READ: [u8; 8] = [1, 2, 9, 9, 9, 6, 0, 8];

/// What is known when the first run is taken.
const AFTER_FIRST: &[(u64, u8, bool)] = &[(4_096, 9, false), (4_098, 0, true)];

/// Whether the runs are found one after another, and then none.
fn takes_both_runs(alloc: Global) -> Result<bool, Fail> {
    let mut shadow = shadow_of(alloc, 4_092, &BYTES)?;
    let first = shadow.take_difference(4_092, &READ)?;
    let is_so = first_other(&shadow, AFTER_FIRST) == None;
    let second = shadow.take_difference(4_092, &READ)?;
    let third = shadow.take_difference(4_092, &READ)?;
    let are_found = first == Some(Difference { start: 2, end: 5 })
        && second == Some(Difference { start: 6, end: 7 });
    Ok(is_so && are_found && third == None)
}

#[test]
fn differences_are_found_and_taken_one_after_another(rt: HostRuntime) -> Result<(), Fail> {
    assert!(rt; takes_both_runs(rt.alloc())?);
    Ok(())
}

/// What is known after a run of 9,000 bytes from 4,000 on was taken.
const LONG_RUN: &[(u64, u8, bool)] = &[
    (3_999, 0, false),
    (4_000, 7, false),
    (8_192, 7, false),
    (12_999, 7, false),
    (13_000, 0, false),
];

/// The first address at which something else is known after this run was taken.
fn first_other_of_long_run(alloc: Global) -> Result<Option<u64>, Fail> {
    let bytes = Vec::from_elem(alloc, 7u8, 9_000)?;
    let mut shadow = shadow_of(alloc, 4_092, &BYTES)?;
    shadow.take_run(4_000, bytes.as_slice())?;
    Ok(first_other(&shadow, LONG_RUN))
}

#[test]
fn a_run_is_taken_over_several_pages(rt: HostRuntime) -> Result<(), Fail> {
    assert!(rt; first_other_of_long_run(rt.alloc())? == None);
    Ok(())
}

/// What is frozen before two other bytes are taken, and what is known then.
const FROZEN: &[(u64, u8)] = &[(4_094, 3), (4_095, 4), (4_096, 5), (9_000, 0)];

const TAKEN_LATER: &[(u64, u8, bool)] = &[(4_095, 0xaa, false), (4_096, 5, false)];

/// Whether frozen bytes stay while others are taken.
fn keeps_the_frozen(alloc: Global) -> Result<bool, Fail> {
    let mut shadow = shadow_of(alloc, 4_092, &BYTES)?;
    shadow.freeze()?;
    shadow.take(4_095, 0xaa)?;
    shadow.take(9_000, 0xbb)?;
    shadow.set_known(3);
    let is_frozen = first_other_frozen(&shadow, FROZEN) == None && shadow.frozen_pages() == 1;
    let is_known = first_other(&shadow, TAKEN_LATER) == None && shadow.known_pages() == 3;
    Ok(is_frozen && is_known)
}

#[test]
fn frozen_bytes_stay_while_others_are_taken(rt: HostRuntime) -> Result<(), Fail> {
    assert!(rt; keeps_the_frozen(rt.alloc())?);
    Ok(())
}

/// Whether a second freeze replaces the first.
fn is_frozen_again(alloc: Global) -> Result<bool, Fail> {
    let mut shadow = shadow_of(alloc, 4_092, &BYTES)?;
    shadow.freeze()?;
    shadow.take(4_095, 0xaa)?;
    shadow.set_known(2);
    shadow.freeze()?;
    shadow.take(4_095, 0xbb)?;
    let is_frozen = first_other_frozen(&shadow, &[(4_095, 0xaa), (4_096, 5)]) == None;
    let is_known = first_other(&shadow, &[(4_095, 0xbb, false)]) == None;
    Ok(is_frozen && shadow.frozen_pages() == 2 && is_known)
}

#[test]
fn a_second_freeze_replaces_the_first(rt: HostRuntime) -> Result<(), Fail> {
    assert!(rt; is_frozen_again(rt.alloc())?);
    Ok(())
}

/// Whether the blocks of frozen bytes are these, with none at places that were not touched.
fn has_frozen_blocks(shadow: &ShadowMemory) -> bool {
    let first = shadow.frozen_block(0);
    first.len() == 4_096
        && first.last().copied() == Some(4)
        && shadow.frozen_block(1).first().copied() == Some(5)
        && shadow.frozen_block(2).get(808).copied() == Some(0xbb)
        && shadow.frozen_block(3).is_empty()
}

/// Whether there are blocks of frozen bytes after a freeze, and none before it.
fn freezes_blocks(alloc: Global) -> Result<bool, Fail> {
    let mut shadow = shadow_of(alloc, 4_092, &BYTES)?;
    let is_none = shadow.frozen_block(0).is_empty();
    shadow.take(9_000, 0xbb)?;
    shadow.freeze()?;
    Ok(is_none && has_frozen_blocks(&shadow))
}

#[test]
fn frozen_blocks_are_those_of_touched_places(rt: HostRuntime) -> Result<(), Fail> {
    assert!(rt; freezes_blocks(rt.alloc())?);
    Ok(())
}
