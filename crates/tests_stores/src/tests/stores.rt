//! Accesses, moves, fills and growths at the ends of a memory and of a table.

ghost use Rattle.std.specs.Prelude.{◌≤◌};
ghost use Rattle.wasm_syntax.specs.declared.limits.TheConstants.{MAX_ENTRIES, MAX_PAGES};

use std::alloc::Global;
use std::test::Fail;
use wasm_store::{OutOfBounds, OutOfTable, Store};
use wasm_syntax::{Limits, NoMemory, Val, ValType};

/// A store with a memory and a table of four entries.
fn store_of(
    alloc: Global,
    pages: u32,
    max: Option<u32>,
    globals: Vec<Val>,
) -> Result<Store, NoMemory>
    requires { pages ≤ MAX_PAGES }
{
    let entries = Limits { min: 4, max: None };
    Store::new(
        alloc,
        Some(Limits { min: pages, max }),
        Some(entries),
        globals,
    )
}

/// The result of a growth, 9,999 if the memory does not grow.
fn grow_answer(store: &mut Store, pages: u32) -> Result<u32, NoMemory> {
    if !store.has_memory() {
        return Ok(9_999);
    }
    match store.grow(pages)? {
        Some(old) => Ok(old),
        None => Ok(9_999),
    }
}

/// A store with a table alone.
fn table_of(alloc: Global, min: u32, max: Option<u32>) -> Result<Store, NoMemory>
    requires { min ≤ MAX_ENTRIES }
{
    Store::new(alloc, None, Some(Limits { min, max }), Vec::new(alloc))
}

/// The result of a growth of the table, 9,999 if the table does not grow.
fn grow_table_answer(store: &mut Store, entries: u32, func: Option<u32>) -> Result<u32, NoMemory> {
    if !store.has_table() {
        return Ok(9_999);
    }
    let answer = match func {
        Some(_) => store.grow_table_with(entries, func)?,
        None => store.grow_table(entries)?,
    };
    match answer {
        Some(old) => Ok(old),
        None => Ok(9_999),
    }
}

/// The number that a few bytes encode, None if they are not within the memory.
fn number_at(store: &Store, addr: u64, width: u32) -> Option<u64> {
    match width {
        1 => store.load_at(addr, 1).ok(),
        2 => store.load_at(addr, 2).ok(),
        4 => store.load_at(addr, 4).ok(),
        8 => store.load_at(addr, 8).ok(),
        _ => None,
    }
}

/// Whether a number of this width in bytes was written.
fn is_stored(store: &mut Store, addr: u64, width: u32, bits: u64) -> bool {
    match width {
        1 => store.store_at(addr, 1, bits).is_ok(),
        4 => store.store_at(addr, 4, bits).is_ok(),
        8 => store.store_at(addr, 8, bits).is_ok(),
        _ => false,
    }
}

/// What is done with a memory, and its result, which is the last part.
#[derive(Clone, Copy)]
enum Step {
    /// Reads a number of this width in bytes at an address.
    Read(u64, u32, Option<u64>),
    /// Writes a number of this width in bytes at an address.
    Write(u64, u32, u64, bool),
    Put(u64, &'static [u8], Result<(), OutOfBounds>),
    /// Moves bytes to an address from another one.
    Move(u64, u64, u64, Result<(), OutOfBounds>),
    Fill(u64, u8, u64, Result<(), OutOfBounds>),
    /// Grows the memory; 9,999 if it does not grow.
    Grow(u32, u32),
    Pages(u32),
}

use Step::{Fill, Grow, Move, Pages, Put, Read, Write};

/// The result of what is done within the bounds, and of what is not.
const DONE: Result<(), OutOfBounds> = Ok(());

const PAST: Result<(), OutOfBounds> = Err(OutOfBounds);

/// Whether a step has its result.
fn holds(store: &mut Store, step: Step) -> Result<bool, NoMemory> {
    Ok(match step {
        Read(addr, width, want) => number_at(store, addr, width) == want,
        Write(addr, width, bits, want) => is_stored(store, addr, width, bits) == want,
        Put(addr, bytes, want) => store.put_bytes(addr, bytes) == want,
        Move(to, from, count, want) => store.move_bytes(to, from, count) == want,
        Fill(to, byte, count, want) => store.fill_bytes(to, byte, count) == want,
        Grow(pages, want) => grow_answer(store, pages)? == want,
        Pages(want) => store.pages() == want,
    })
}

/// The number of the first step with another result, on a memory of a page.
fn first_other(alloc: Global, max: Option<u32>, steps: &[Step]) -> Result<Option<usize>, NoMemory> {
    let mut store = store_of(alloc, 1, max, Vec::new(alloc))?;
    first_other_in(&mut store, steps)
}

fn first_other_in(store: &mut Store, steps: &[Step]) -> Result<Option<usize>, NoMemory> {
    for (number, step) in steps.iter().enumerate() {
        if !holds(store, *step)? {
            return Ok(Some(number));
        }
    }
    Ok(None)
}

const ACCESSES: &[Step] = &[
    Write(65_532, 4, 0xFFFF_FFFF_0403_0201, true),
    Read(65_532, 4, Some(0x0403_0201)),
    Read(65_528, 8, Some(0x0403_0201_0000_0000)),
    Read(65_534, 2, Some(0x0403)),
    Read(65_535, 1, Some(4)),
    Read(65_533, 4, None),
    Read(65_536, 1, None),
    Read(0x1_0000_0000, 1, None),
    Read(u64::MAX, 8, None),
    Write(65_529, 8, 1, false),
    Put(65_534, &[1, 2, 3], PAST),
    Read(65_532, 4, Some(0x0403_0201)),
];

#[test]
fn an_access_ends_at_the_last_byte_at_most(rt: HostRuntime) -> Result<(), Fail> {
    assert_eq!(rt; first_other(rt.alloc(), None, ACCESSES)?, None);
    Ok(())
}

const OVERLAPS: &[Step] = &[
    Put(8, &[1, 2, 3, 4, 5, 6], DONE),
    Move(10, 8, 4, DONE),
    Read(8, 8, Some(0x0000_0403_0201_0201)),
    Move(8, 9, 5, DONE),
    Read(8, 8, Some(0x0000_0404_0302_0102)),
    Move(65_533, 8, 4, PAST),
    Move(8, 65_533, 4, PAST),
];

#[test]
fn overlapping_bytes_are_moved_both_ways(rt: HostRuntime) -> Result<(), Fail> {
    assert_eq!(rt; first_other(rt.alloc(), None, OVERLAPS)?, None);
    Ok(())
}

const AT_THE_LAST_BYTE: &[Step] = &[
    Put(8, &[1, 2, 3, 4], DONE),
    Move(65_532, 8, 4, DONE),
    Read(65_528, 8, Some(0x0403_0201_0000_0000)),
    Move(12, 65_534, 2, DONE),
    Read(8, 8, Some(0x0000_0403_0403_0201)),
    Fill(65_533, 0xAB, 3, DONE),
    Read(65_528, 8, Some(0xABAB_AB01_0000_0000)),
    Fill(65_533, 0xCD, 4, PAST),
    Read(65_528, 8, Some(0xABAB_AB01_0000_0000)),
    Fill(9, 0xFF, 2, DONE),
    Read(8, 8, Some(0x0000_0403_04FF_FF01)),
];

#[test]
fn a_move_and_a_fill_end_at_the_last_byte_at_most(rt: HostRuntime) -> Result<(), Fail> {
    assert_eq!(rt; first_other(rt.alloc(), None, AT_THE_LAST_BYTE)?, None);
    Ok(())
}

const NO_BYTES: &[Step] = &[
    Fill(65_536, 1, 0, DONE),
    Fill(65_537, 1, 0, PAST),
    Move(65_536, 0, 0, DONE),
    Move(0, 65_536, 0, DONE),
    Move(65_537, 0, 0, PAST),
    Move(0, 65_537, 0, PAST),
];

#[test]
fn no_bytes_are_moved_and_filled_at_the_end_and_not_past_it(rt: HostRuntime) -> Result<(), Fail> {
    assert_eq!(rt; first_other(rt.alloc(), None, NO_BYTES)?, None);
    Ok(())
}

const FAR_ENDS: &[Step] = &[
    Fill(1, 1, 0xFFFF_FFFF, PAST),
    Fill(0xFFFF_FFFF, 1, 2, PAST),
    Fill(0x1_0000_0000, 1, 0, PAST),
    Fill(2, 1, u64::MAX, PAST),
    Move(1, 0, 0xFFFF_FFFF, PAST),
    Move(0, 0xFFFF_FFFF, 2, PAST),
    Move(0xFFFF_FFFF, 0, 2, PAST),
    Read(0, 8, Some(0)),
];

#[test]
fn the_end_of_a_range_does_not_wrap(rt: HostRuntime) -> Result<(), Fail> {
    assert_eq!(rt; first_other(rt.alloc(), None, FAR_ENDS)?, None);
    Ok(())
}

/// On a memory of at most three pages, and of at most 65,536.
const GROWTHS: &[Step] = &[
    Write(65_535, 1, 7, true),
    Grow(1, 1),
    Read(65_535, 4, Some(7)),
    Grow(2, 9_999),
    Grow(u32::MAX, 9_999),
    Grow(1, 2),
    Pages(3),
];

const GROWTHS_OF_THE_LARGEST: &[Step] = &[Grow(4_096, 9_999), Grow(0, 1)];

#[test]
fn a_memory_grows_to_its_maximum(rt: HostRuntime) -> Result<(), Fail> {
    assert!(rt; first_other(rt.alloc(), Some(3), GROWTHS)? == None);
    assert!(rt; first_other(rt.alloc(), Some(65_536), GROWTHS_OF_THE_LARGEST)? == None);
    Ok(())
}

/// What is done with a table, and its result, which is the last part.
#[derive(Clone, Copy)]
enum TableStep {
    /// Grows the table by entries that are empty or hold a function; 9,999 if it does not grow.
    Append(u32, Option<u32>, u32),
    Size(u32),
    Entry(u32, Result<Option<u32>, OutOfTable>),
    Entries(&'static [Option<u32>]),
}

use TableStep::{Append, Entries, Entry, Size};

/// Whether a step has its result.
fn holds_of_table(store: &mut Store, step: TableStep) -> Result<bool, NoMemory> {
    Ok(match step {
        Append(entries, func, want) => grow_table_answer(store, entries, func)? == want,
        Size(want) => store.table_size() == want,
        Entry(index, want) => store.entry(index) == want,
        Entries(want) => store.entries() == want,
    })
}

/// The number of the first step with another result.
fn first_other_of_table(store: &mut Store, steps: &[TableStep]) -> Result<Option<usize>, NoMemory> {
    for (number, step) in steps.iter().enumerate() {
        if !holds_of_table(store, *step)? {
            return Ok(Some(number));
        }
    }
    Ok(None)
}

/// On a table of one entry, which may have five.
const TABLE_GROWTHS: &[TableStep] = &[
    Append(2, Some(7), 1),
    Append(3, Some(8), 9_999),
    Append(u32::MAX, None, 9_999),
    Size(3),
    Append(2, None, 3),
    Append(0, Some(8), 5),
    Append(1, None, 9_999),
    Entries(&[None, Some(7), Some(7), None, None]),
    Entry(5, Err(OutOfTable)),
];

/// On an empty table without a maximum.
const GROWTHS_TO_A_MILLION: &[TableStep] = &[
    Append(1_000_001, None, 9_999),
    Append(1_000_000, Some(3), 0),
    Entry(999_999, Ok(Some(3))),
    Entry(1_000_000, Err(OutOfTable)),
    Append(0, None, 1_000_000),
    Append(1, None, 9_999),
];

/// On a table of 999,999 entries.
const GROWTHS_BY_ONE: &[TableStep] = &[Append(2, None, 9_999), Append(1, None, 999_999)];

/// The number of the first step with another result, on a table with this number of entries.
fn first_other_of_new_table(
    alloc: Global,
    min: u32,
    max: Option<u32>,
    steps: &[TableStep],
) -> Result<Option<usize>, NoMemory>
    requires { min ≤ MAX_ENTRIES }
{
    let mut store = table_of(alloc, min, max)?;
    first_other_of_table(&mut store, steps)
}

#[test]
fn a_table_grows_to_its_maximum(rt: HostRuntime) -> Result<(), Fail> {
    assert!(rt; first_other_of_new_table(rt.alloc(), 1, Some(5), TABLE_GROWTHS)? == None);
    Ok(())
}

#[test]
fn a_table_grows_to_a_million_entries_at_most(rt: HostRuntime) -> Result<(), Fail> {
    let last = Some(u32::MAX);
    assert!(rt; first_other_of_new_table(rt.alloc(), 0, None, GROWTHS_TO_A_MILLION)? == None);
    assert!(rt; first_other_of_new_table(rt.alloc(), 999_999, last, GROWTHS_BY_ONE)? == None);
    Ok(())
}

const VALUE: Val = Val {
    ty: ValType::I32,
    bits: 5,
};

/// Whether entries within the table are set, and none past its end.
fn are_set(store: &mut Store) -> bool {
    store.put_funcs(1, &[7, 8]).is_ok()
        && store.set_entry(2, None).is_ok()
        && store.put_funcs(3, &[7, 8]) == Err(OutOfTable)
        && store.set_entry(4, Some(1)) == Err(OutOfTable)
}

/// On a copy of that store.
const COPIED: &[TableStep] = &[
    Entry(1, Ok(Some(7))),
    Entry(2, Ok(None)),
    Entry(4, Err(OutOfTable)),
    Size(4),
];

/// Whether the copy of a store has its entries and globals.
fn is_copied(store: &Store) -> Result<bool, NoMemory> {
    let mut copy = store.clone()?;
    let has_globals = copy.globals() == [VALUE].as_slice();
    Ok(has_globals && first_other_of_table(&mut copy, COPIED)? == None)
}

#[test]
fn entries_and_globals_are_set_and_copied(rt: HostRuntime) -> Result<(), Fail> {
    let alloc = rt.alloc();
    let mut store = store_of(alloc, 0, None, vec![in alloc; VALUE]?)?;
    assert!(rt; are_set(&mut store));
    assert!(rt; is_copied(&store)?);
    Ok(())
}

/// Whether a store has no memory and no table, and nothing of them is found.
fn has_no_parts(store: &mut Store) -> bool {
    !store.has_memory()
        && !store.has_table()
        && store.pages() == 0
        && store.table_size() == 0
        && store.put_bytes(0, &[]).is_ok()
        && store.put_bytes(1, &[]) == Err(OutOfBounds)
        && number_at(store, 0, 1) == None
        && store.entry(0) == Err(OutOfTable)
}

#[test]
fn a_store_may_have_no_memory_and_no_table(rt: HostRuntime) -> Result<(), Fail> {
    let alloc = rt.alloc();
    let mut store = Store::new(alloc, None, None, Vec::new(alloc))?;
    assert!(rt; has_no_parts(&mut store));
    Ok(())
}
