//! Lines of a history that is worked out from the standard, of a function that has a buffer on a C
//! stack filled by an import, and lines by the format of kinds that this history does not have.

use crate::tests::actions::i32;
use history_lines::{print_entry, print_outcome, print_step, print_trap};
use history_spec::{Entry, Outcome, TrapKind};
use std::alloc::Global;
use std::test::Fail;
use wasm_syntax::{List, NoMemory, Val, ValType, Vals};

/// Values of the type i32.
fn vals(alloc: Global, numbers: &[u64]) -> Result<Vals, NoMemory> {
    let mut values = Vec::new(alloc);
    for number in numbers {
        values.push(i32(*number))?;
    }
    Ok(List::from_vec(values))
}

/// Appends the lines of an entry.
fn print(out: &mut Vec<u8>, entry: Entry) -> Result<(), NoMemory> {
    print_entry(out, &entry)
}

/// Appends the lines of entries for calls by the host, and of an import within.
fn print_calls(alloc: Global, out: &mut Vec<u8>) -> Result<(), NoMemory> {
    let args = vals(alloc, &[])?;
    print(out, Entry::HostCall { func: 1, args })?;
    let args = vals(alloc, &[0x103f0, 4, 0x103f8])?;
    print(out, Entry::ImportCall { import: 0, args })?;
    let results = vals(alloc, &[0])?;
    print(out, Entry::ImportReturn { import: 0, results })
}

/// Appends the lines of entries for a function that another one calls, and of what the host sees.
fn print_returns(alloc: Global, out: &mut Vec<u8>) -> Result<(), NoMemory> {
    print(out, Entry::Enter { func: 2 })?;
    let results = vals(alloc, &[0x14_d2d6])?;
    print(out, Entry::Exit { func: 2, results })?;
    let results = vals(alloc, &[0x14_d2d6])?;
    print(out, Entry::HostReturn { func: 1, results })?;
    print(out, Entry::HostTrap)
}

const CALL_LINES: &[u8] = b"host-call 1\n\
      import-call 0 i32:000103f0 i32:00000004 i32:000103f8\n\
      import-return 0 i32:00000000\n\
      enter 2\n\
      exit 2 i32:0014d2d6\n\
      host-return 1 i32:0014d2d6\n\
      host-trap\n";

#[test]
fn calls_and_returns_have_their_lines(rt: HostRuntime) -> Result<(), Fail> {
    let mut lines = Vec::new(rt.alloc());
    print_calls(rt.alloc(), &mut lines)?;
    print_returns(rt.alloc(), &mut lines)?;
    assert!(rt; lines.as_slice() == CALL_LINES);
    Ok(())
}

/// Instructions of function 1: their numbers, their operands and results, which are of the type i32, and what they
/// find; their lines.
type StepRow = (
    u32,
    &'static [u64],
    &'static [u64],
    Option<u32>,
    &'static [u8],
);

const STEPS: &[StepRow] = &[
    (
        10,
        &[0x103f0, 4, 0x103f8],
        &[],
        None,
        b"step 1 10 i32:000103f0 i32:00000004 i32:000103f8 ->\n",
    ),
    (
        16,
        &[0xa_6968, 3],
        &[0xa_696b],
        None,
        b"step 1 16 i32:000a6968 i32:00000003 -> i32:000a696b\n",
    ),
    (
        18,
        &[0xa_696b, 1],
        &[],
        Some(2),
        b"step 1 18 i32:000a696b i32:00000001 -> found 2\n",
    ),
];

/// The lines of an instruction.
fn lines_of_step(alloc: Global, row: StepRow) -> Result<Vec<u8>, NoMemory> {
    let (number, operands, results, found, _) = row;
    let operands = vals(alloc, operands)?;
    let results = vals(alloc, results)?;
    let entry = Entry::Step {
        func: 1,
        number,
        operands,
        results,
        found,
    };
    let mut out = Vec::new(alloc);
    print(&mut out, entry)?;
    Ok(out)
}

/// The lines of an instruction of the last function with an operand of each type that is not i32.
fn lines_of_wide_step(alloc: Global) -> Result<Vec<u8>, NoMemory> {
    let wide = [
        Val {
            ty: ValType::I64,
            bits: u64::MAX - 1,
        },
        Val {
            ty: ValType::F32,
            bits: 0x7fc0_0001,
        },
        Val {
            ty: ValType::F64,
            bits: 0x3ff0_0000_0000_0000,
        },
        Val {
            ty: ValType::FuncRef,
            bits: 3,
        },
    ];
    let operands = List::from_vec(Vec::from_slice(alloc, &wide)?);
    let entry = Entry::Step {
        func: 4_294_967_295,
        number: 0,
        operands,
        results: List::new(alloc),
        found: None,
    };
    let mut out = Vec::new(alloc);
    print(&mut out, entry)?;
    Ok(out)
}

const WIDE_LINE: &[u8] =
    b"step 4294967295 0 i64:fffffffffffffffe f32:7fc00001 f64:3ff0000000000000 \
      funcref:0000000000000003 ->\n";

#[test]
fn instructions_have_their_lines(rt: HostRuntime) -> Result<(), Fail> {
    for &row in STEPS {
        assert!(rt; lines_of_step(rt.alloc(), row)?.as_slice() == row.4);
    }
    assert!(rt; lines_of_wide_step(rt.alloc())?.as_slice() == WIDE_LINE);
    Ok(())
}

/// Traps of an instruction with one operand: their kind, what they find, and their lines.
const TRAPS: &[(TrapKind, Option<u32>, &[u8])] = &[
    (
        TrapKind::Unreachable,
        None,
        b"trap 3 7 unreachable i32:00000009\n",
    ),
    (
        TrapKind::DivideByZero,
        None,
        b"trap 3 7 divide i32:00000009\n",
    ),
    (
        TrapKind::Overflow,
        None,
        b"trap 3 7 overflow i32:00000009\n",
    ),
    (
        TrapKind::Memory,
        Some(1),
        b"trap 3 7 memory i32:00000009 found 1\n",
    ),
    (
        TrapKind::Table,
        Some(0),
        b"trap 3 7 table i32:00000009 found 0\n",
    ),
    (TrapKind::Empty, None, b"trap 3 7 empty i32:00000009\n"),
    (
        TrapKind::Signature,
        Some(12),
        b"trap 3 7 signature i32:00000009 found 12\n",
    ),
];

/// The lines of a trap.
fn lines_of_trap(alloc: Global, kind: TrapKind, found: Option<u32>) -> Result<Vec<u8>, NoMemory> {
    let operands = vals(alloc, &[9])?;
    let entry = Entry::Trap {
        func: 3,
        number: 7,
        kind,
        operands,
        found,
    };
    let mut out = Vec::new(alloc);
    print(&mut out, entry)?;
    Ok(out)
}

#[test]
fn traps_have_their_lines(rt: HostRuntime) -> Result<(), Fail> {
    for &(kind, found, expected) in TRAPS {
        assert!(rt; lines_of_trap(rt.alloc(), kind, found)?.as_slice() == expected);
    }
    Ok(())
}

/// Appends the lines of each outcome.
fn print_outcomes(out: &mut Vec<u8>) -> Result<(), NoMemory> {
    print_outcome(out, Outcome::Ended)?;
    print_outcome(out, Outcome::Trapped)?;
    print_outcome(out, Outcome::HostTrapped)
}

#[test]
fn outcomes_have_their_lines(rt: HostRuntime) -> Result<(), Fail> {
    let mut out = Vec::new(rt.alloc());
    print_outcomes(&mut out)?;
    assert!(rt; out.as_slice() == b"ended\ntrapped\nhost-trapped\n".as_slice());
    Ok(())
}

const NUMBERS: &[u32] = &[0, 9, 10, 99, 100, 907, 999, 1000, 65_536, 4_294_967_295];

/// Appends the lines of instructions in which each of the numbers is three times, and of a trap.
fn print_numbers(out: &mut Vec<u8>) -> Result<(), NoMemory> {
    'numbers: for &number in NUMBERS {
        print_step(out, number, number, &[], &[], Some(number))?;
    }
    print_trap(out, 40, 105, TrapKind::Memory, &[i32(0xfffc)], Some(1))
}

const NUMBER_LINES: &[u8] = b"step 0 0 -> found 0\n\
      step 9 9 -> found 9\n\
      step 10 10 -> found 10\n\
      step 99 99 -> found 99\n\
      step 100 100 -> found 100\n\
      step 907 907 -> found 907\n\
      step 999 999 -> found 999\n\
      step 1000 1000 -> found 1000\n\
      step 65536 65536 -> found 65536\n\
      step 4294967295 4294967295 -> found 4294967295\n\
      trap 40 105 memory i32:0000fffc found 1\n";

#[test]
fn numbers_of_each_length_have_their_lines(rt: HostRuntime) -> Result<(), Fail> {
    let mut out = Vec::new(rt.alloc());
    print_numbers(&mut out)?;
    assert!(rt; out.as_slice() == NUMBER_LINES);
    Ok(())
}
