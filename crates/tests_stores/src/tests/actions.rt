//! Actions of the host, each once, and the faults of a script by their kinds.

use history_spec::FaultKind;
use host_actions::{ActionEnd, ActionFault, Addresses, Functions, perform};
use host_script::{Action, Address};
use std::alloc::Global;
use std::test::Fail;
use wasm_store::Store;
use wasm_syntax::{FuncType, FuncTypes, Limits, List, NoMemory, Val, ValType};

pub fn i32(bits: u64) -> Val {
    Val {
        ty: ValType::I32,
        bits,
    }
}

/// A store with a page of memory that may not grow to three, and with a table of four entries that
/// may not grow to seven.
fn store(alloc: Global) -> Result<Store, NoMemory> {
    let pages = Limits {
        min: 1,
        max: Some(2),
    };
    let entries = Limits {
        min: 4,
        max: Some(6),
    };
    Store::new(alloc, Some(pages), Some(entries), vec![in alloc; i32(5)]?)
}

/// An imported function and two defined ones: the import takes nothing, the others an i32.
fn functions(alloc: Global) -> Result<Functions, NoMemory> {
    let types = types(alloc)?;
    let indices = List::from_vec(Vec::from_slice(alloc, &[0, 1, 1])?);
    Ok(Functions {
        types,
        indices,
        imported: 1,
    })
}

/// The type of functions without results that take these arguments.
fn type_of(alloc: Global, params: &[ValType]) -> Result<FuncType, NoMemory> {
    let params = List::from_vec(Vec::from_slice(alloc, params)?);
    let results = List::new(alloc);
    Ok(FuncType { params, results })
}

fn types(alloc: Global) -> Result<FuncTypes, NoMemory> {
    let mut types = Vec::new(alloc);
    types.push(type_of(alloc, &[])?)?;
    types.push(type_of(alloc, &[ValType::I32])?)?;
    Ok(List::from_vec(types))
}

/// The result of an action on the memory, out of memory if there is no memory.
fn write_answer(
    store: &mut Store,
    functions: &Functions,
    at: u32,
    bytes: Vec<u8>,
) -> Result<ActionEnd, ActionFault> {
    if !store.has_memory() {
        return Err(ActionFault::Memory);
    }
    let action = Action::Write {
        to: Address::Fixed(at),
        bytes: List::from_vec(bytes),
    };
    let addresses = Addresses::of(&action, &[]);
    perform(store, functions, addresses, &action)
}

fn copy_answer(
    store: &mut Store,
    functions: &Functions,
    args: &[Val; 1],
    plus: u32,
    count: u32,
) -> Result<ActionEnd, ActionFault> {
    if !store.has_memory() || args[0].bits >= 0x1_0000_0000 {
        return Err(ActionFault::Memory);
    }
    let action = Action::Copy {
        to: Address::Arg { number: 0, plus },
        source: Address::Fixed(8),
        count,
    };
    let addresses = Addresses::of(&action, args);
    perform(store, functions, addresses, &action)
}

fn grow_answer(
    store: &mut Store,
    functions: &Functions,
    pages: u32,
) -> Result<ActionEnd, ActionFault> {
    if !store.has_memory() {
        return Err(ActionFault::Memory);
    }
    let action = Action::Grow { pages };
    perform(store, functions, Addresses::of(&action, &[]), &action)
}

fn grow_table_answer(
    store: &mut Store,
    functions: &Functions,
    entries: u32,
) -> Result<ActionEnd, ActionFault> {
    if !store.has_table() {
        return Err(ActionFault::Memory);
    }
    let action = Action::GrowTable { entries };
    perform(store, functions, Addresses::of(&action, &[]), &action)
}

fn set_answer(
    store: &mut Store,
    functions: &Functions,
    index: u32,
    func: Option<u32>,
) -> Result<ActionEnd, ActionFault> {
    if !store.has_table() {
        return Err(ActionFault::Memory);
    }
    let action = Action::SetTable { index, func };
    perform(store, functions, Addresses::of(&action, &[]), &action)
}

/// An action of the host, in short.
#[derive(Clone, Copy)]
enum Step {
    Write(u32, &'static [u8]),
    /// Copies a number of bytes from 8 to the place at the argument, and as many further on.
    Copy(u64, u32, u32),
    Grow(u32),
    GrowTable(u32),
    Set(u32, Option<u32>),
    Call(u32, &'static [Val]),
}

use Step::{Call, Grow, GrowTable, Set, Write};

type Answer = Result<ActionEnd, ActionFault>;

const CHANGED: Answer = Ok(ActionEnd::Changed);

const OUTSIDE: Answer = Err(ActionFault::Fault {
    kind: FaultKind::Outside,
});

const GROW_REFUSED: Answer = Err(ActionFault::Fault {
    kind: FaultKind::GrowRefused,
});

const TABLE_OUTSIDE: Answer = Err(ActionFault::Fault {
    kind: FaultKind::TableOutside,
});

const EMPTY_ENTRY: Answer = Err(ActionFault::Fault {
    kind: FaultKind::EmptyEntry,
});

const ENTRY_TYPE: Answer = Err(ActionFault::Fault {
    kind: FaultKind::EntryType,
});

const CALLS_OWN: Answer = Err(ActionFault::Fault {
    kind: FaultKind::CallsOwn,
});

/// The result of an action.
fn answer(
    alloc: Global,
    store: &mut Store,
    functions: &Functions,
    step: Step,
) -> Result<Answer, NoMemory> {
    Ok(match step {
        Write(at, bytes) => write_answer(store, functions, at, Vec::from_slice(alloc, bytes)?),
        Step::Copy(arg, plus, count) => copy_answer(store, functions, &[i32(arg)], plus, count),
        Grow(pages) => grow_answer(store, functions, pages),
        GrowTable(entries) => grow_table_answer(store, functions, entries),
        Set(index, func) => set_answer(store, functions, index, func),
        Call(index, args) => call_result(store, functions, index, Vec::from_slice(alloc, args)?),
    })
}

/// The number of the first action with another result.
fn first_other(
    alloc: Global,
    store: &mut Store,
    steps: &[(Step, Answer)],
) -> Result<Option<usize>, NoMemory> {
    let functions = functions(alloc)?;
    for (number, (step, want)) in steps.iter().enumerate() {
        if answer(alloc, store, &functions, *step)? != *want {
            return Ok(Some(number));
        }
    }
    Ok(None)
}

const COPIES: &[(Step, Answer)] = &[
    (Write(8, &[1, 2, 3, 4]), CHANGED),
    (Step::Copy(7, 3, 4), CHANGED),
];

const PAST_THE_END: &[(Step, Answer)] = &[
    (Step::Copy(65_530, 4, 4), OUTSIDE),
    (Write(65_535, &[9, 9]), OUTSIDE),
];

/// Whether bytes are copied over one another, and none past the end.
fn copies_bytes(alloc: Global, store: &mut Store) -> Result<bool, NoMemory> {
    let copies = first_other(alloc, store, COPIES)? == None;
    let is_copied = store.load_at(8, 8) == Ok(0x0000_0403_0201_0201);
    let is_refused = first_other(alloc, store, PAST_THE_END)? == None;
    Ok(copies && is_copied && is_refused && store.load_at(65_535, 1) == Ok(0))
}

#[test]
fn overlapping_bytes_are_copied_as_if_read_first(rt: HostRuntime) -> Result<(), Fail> {
    let mut store = store(rt.alloc())?;
    assert!(rt; copies_bytes(rt.alloc(), &mut store)?);
    Ok(())
}

const GROWTHS: &[(Step, Answer)] = &[(Grow(2), GROW_REFUSED), (Grow(1), CHANGED)];

const SETTINGS: &[(Step, Answer)] = &[(Set(3, Some(2)), CHANGED), (Set(4, None), TABLE_OUTSIDE)];

/// Whether a memory grows to its maximum, and an entry within the table is set.
fn changes_within_bounds(alloc: Global, store: &mut Store) -> Result<bool, NoMemory> {
    let grows = first_other(alloc, store, GROWTHS)? == None && store.pages() == 2;
    let sets = first_other(alloc, store, SETTINGS)? == None;
    Ok(grows && sets && store.entry(3) == Ok(Some(2)))
}

#[test]
fn a_memory_and_a_table_are_changed_within_their_bounds(rt: HostRuntime) -> Result<(), Fail> {
    let mut store = store(rt.alloc())?;
    assert!(rt; changes_within_bounds(rt.alloc(), &mut store)?);
    Ok(())
}

const TABLE_GROWTHS: &[(Step, Answer)] = &[
    (GrowTable(2), CHANGED),
    (GrowTable(0), CHANGED),
    (GrowTable(1), GROW_REFUSED),
];

/// Whether a table of four entries does not grow past its maximum, and grows to it by empty entries.
fn grows_to_six(alloc: Global, store: &mut Store) -> Result<bool, NoMemory> {
    let is_set = store.put_funcs(0, &[1, 2, 1, 2]).is_ok();
    let is_refused = first_other(alloc, store, &[(GrowTable(3), GROW_REFUSED)])? == None;
    let has_four = store.table_size() == 4;
    let grows = first_other(alloc, store, TABLE_GROWTHS)? == None;
    Ok(is_set && is_refused && has_four && grows && has_six(store))
}

/// Whether a table has its four entries and two empty ones, beside a page of memory.
fn has_six(store: &Store) -> bool {
    store.entries() == [Some(1), Some(2), Some(1), Some(2), None, None].as_slice()
        && store.table_size() == 6
        && store.pages() == 1
}

#[test]
fn a_table_grows_by_empty_entries_to_its_maximum(rt: HostRuntime) -> Result<(), Fail> {
    let mut store = store(rt.alloc())?;
    assert!(rt; grows_to_six(rt.alloc(), &mut store)?);
    Ok(())
}

/// Calls of the entries of a table that holds function 2 and the import, and of an entry past its end.
const TABLE_CALLS: &[(Step, Answer)] = &[
    (Call(0, &[FOUR]), Ok(ActionEnd::Enters { func: 2 })),
    (Call(0, &[]), ENTRY_TYPE),
    (Call(1, &[]), CALLS_OWN),
    (Call(2, &[]), EMPTY_ENTRY),
    (Call(9, &[]), TABLE_OUTSIDE),
];

const FOUR: Val = Val {
    ty: ValType::I32,
    bits: 4,
};

/// Whether the entries of a table are called.
fn calls_entries(alloc: Global, store: &mut Store) -> Result<bool, NoMemory> {
    let is_set = store.put_funcs(0, &[2, 0]).is_ok();
    Ok(is_set && first_other(alloc, store, TABLE_CALLS)? == None)
}

#[test]
fn a_function_in_the_table_is_called_where_its_type_fits(rt: HostRuntime) -> Result<(), Fail> {
    let mut store = store(rt.alloc())?;
    assert!(rt; calls_entries(rt.alloc(), &mut store)?);
    Ok(())
}

/// The result of a call of an entry; out of memory if there is no table or the function has no type.
fn call_result(
    store: &mut Store,
    functions: &Functions,
    index: u32,
    args: Vec<Val>,
) -> Result<ActionEnd, ActionFault> {
    if !store.has_table() {
        return Err(ActionFault::Memory);
    }
    if let Ok(Some(func)) = store.entry(index) {
        let Some(ty) = functions.indices.as_slice().get(func as usize) else {
            return Err(ActionFault::Memory);
        };
        if *ty as usize >= functions.types.as_slice().len() {
            return Err(ActionFault::Memory);
        }
    }
    let action = Action::CallTable {
        index,
        args: List::from_vec(args),
    };
    perform(store, functions, Addresses { to: 0, source: 0 }, &action)
}
