// Whole lines.

ghost use Rattle.std.specs.Prelude.{◌≡◌, ◌+◌, ◌*◌, ◌≤◌, ◌++◌, length, IfSome, OnOk, OnErr, codes, vec_len, vec_capacity};
ghost use Rattle.history_spec.specs.Line.{entry_text, found_text, kind_text, line, number_text, outcome_text, with_space, values_text};
ghost use Rattle.history_spec.specs.declared.entries.Entry.TheVariants.{Step, Trap};
ghost use Rattle.history_lines.specs.Growth.{GrewByFirstPart};

use crate::pieces::{push_bytes, push_found, push_number, push_values};
use crate::words::{put, put_found, put_number, put_values};
use base::NoMemory;
use history_spec::{Entry, Outcome, TrapKind};
use std::mem;
use wasm_syntax::Val;

/// Appends the line of an entry, with its line feed.
///
/// # Errors
/// If an allocation failed; a first part of the line may be appended then.
pub fn print_entry(out: &mut Vec<u8>, entry: &Entry) -> Result<(), NoMemory>
    ensures ok { OnOk result (out.new.items ≡ out.old.items ++ line (entry_text entry.now)) }
    ensures refused { OnErr result
        (GrewByFirstPart out.old.items out.new.items (line (entry_text entry.now))) }
{
    put_entry(out, entry)?;
    put_line_feed(out)
}

/// Appends the line of an instruction, with its line feed.
///
/// # Errors
/// If an allocation failed; a first part of the line may be appended then.
pub fn print_step(
    out: &mut Vec<u8>,
    func: u32,
    number: u32,
    operands: &[Val],
    results: &[Val],
    found: Option<u32>,
) -> Result<(), NoMemory>
    ensures ok { OnOk result
        (out.new.items ≡ out.old.items ++ line (entry_text (Step func number operands.now results.now found))) }
    ensures refused { OnErr result (GrewByFirstPart out.old.items out.new.items
        (line (entry_text (Step func number operands.now results.now found)))) }
{
    put_step(out, func, number, operands, results, found)?;
    put_line_feed(out)
}

/// Appends the line of an instruction that traps, with its line feed.
///
/// # Errors
/// If an allocation failed; a first part of the line may be appended then.
pub fn print_trap(
    out: &mut Vec<u8>,
    func: u32,
    number: u32,
    kind: TrapKind,
    operands: &[Val],
    found: Option<u32>,
) -> Result<(), NoMemory>
    ensures ok { OnOk result
        (out.new.items ≡ out.old.items ++ line (entry_text (Trap func number kind operands.now found))) }
    ensures refused { OnErr result (GrewByFirstPart out.old.items out.new.items
        (line (entry_text (Trap func number kind operands.now found)))) }
{
    put_trap(out, func, number, kind, operands, found)?;
    put_line_feed(out)
}

/// Appends the line of an outcome, with its line feed.
///
/// # Errors
/// If an allocation failed; a first part of the line may be appended then.
pub fn print_outcome(out: &mut Vec<u8>, outcome: Outcome) -> Result<(), NoMemory>
    ensures ok { OnOk result (out.new.items ≡ out.old.items ++ line (outcome_text outcome)) }
    ensures refused { OnErr result
        (GrewByFirstPart out.old.items out.new.items (line (outcome_text outcome))) }
{
    match outcome {
        Outcome::Ended => put(out, b"ended\n"),
        Outcome::Trapped => put(out, b"trapped\n"),
        Outcome::HostTrapped => put(out, b"host-trapped\n"),
    }
}

/// Appends a line feed.
#[inline(always)]
fn put_line_feed(out: &mut Vec<u8>) -> Result<(), NoMemory>
    ensures ok { OnOk result (out.new.items ≡ out.old.items ++ codes "\n") }
    ensures refused { OnErr result (GrewByFirstPart out.old.items out.new.items (codes "\n")) }
{
    put(out, b"\n")
}

/// Appends the text of an entry.
fn put_entry(out: &mut Vec<u8>, entry: &Entry) -> Result<(), NoMemory>
    ensures ok { OnOk result (out.new.items ≡ out.old.items ++ entry_text entry.now) }
    ensures refused { OnErr result
        (GrewByFirstPart out.old.items out.new.items (entry_text entry.now)) }
{
    match entry {
        Entry::HostCall { func, args } => put_call(out, b"host-call", *func, args.as_slice()),
        Entry::HostReturn { func, results } => {
            put_call(out, b"host-return", *func, results.as_slice())
        }
        Entry::ImportCall { import, args } => {
            put_call(out, b"import-call", *import, args.as_slice())
        }
        Entry::ImportReturn { import, results } => {
            put_call(out, b"import-return", *import, results.as_slice())
        }
        Entry::Enter { func } => put_enter(out, *func),
        Entry::Exit { func, results } => put_call(out, b"exit", *func, results.as_slice()),
        Entry::Step {
            func,
            number,
            operands,
            results,
            found,
        } => put_step(
            out,
            *func,
            *number,
            operands.as_slice(),
            results.as_slice(),
            *found,
        ),
        Entry::Trap {
            func,
            number,
            kind,
            operands,
            found,
        } => put_trap(out, *func, *number, *kind, operands.as_slice(), *found),
        Entry::HostTrap => put(out, b"host-trap"),
    }
}

/// Appends the text of a call or a return: its name, the function, and values.
fn put_call(out: &mut Vec<u8>, name: &[u8], func: u32, values: &[Val]) -> Result<(), NoMemory>
    ensures ok { OnOk result
        (out.new.items ≡ out.old.items ++ (name.now ++ (number_text func ++ values_text values.now))) }
    ensures refused { OnErr result (GrewByFirstPart out.old.items out.new.items
        (name.now ++ (number_text func ++ values_text values.now))) }
{
    put(out, name)?;
    put_number(out, func)?;
    put_values(out, values)
}

/// Appends the text of a function that the module enters.
fn put_enter(out: &mut Vec<u8>, func: u32) -> Result<(), NoMemory>
    ensures ok { OnOk result
        (out.new.items ≡ out.old.items ++ (codes "enter" ++ number_text func)) }
    ensures refused { OnErr result
        (GrewByFirstPart out.old.items out.new.items (codes "enter" ++ number_text func)) }
{
    put(out, b"enter")?;
    put_number(out, func)
}

/// Appends what the texts of an instruction and of its trap begin with: a name, the function, and the
/// instruction's number.
fn put_instr(out: &mut Vec<u8>, name: &[u8], func: u32, number: u32) -> Result<(), NoMemory>
    ensures ok { OnOk result
        (out.new.items ≡ out.old.items ++ (name.now ++ (number_text func ++ number_text number))) }
    ensures refused { OnErr result (GrewByFirstPart out.old.items out.new.items
        (name.now ++ (number_text func ++ number_text number))) }
{
    put(out, name)?;
    put_number(out, func)?;
    put_number(out, number)
}

/// Appends the text of an instruction.
fn put_step(
    out: &mut Vec<u8>,
    func: u32,
    number: u32,
    operands: &[Val],
    results: &[Val],
    found: Option<u32>,
) -> Result<(), NoMemory>
    ensures ok { OnOk result (out.new.items
        ≡ out.old.items ++ entry_text (Step func number operands.now results.now found)) }
    ensures refused { OnErr result (GrewByFirstPart out.old.items out.new.items
        (entry_text (Step func number operands.now results.now found))) }
{
    let Some(room) = step_room(operands, results) else {
        return Err(NoMemory);
    };
    out.reserve(room)?;
    let alloc = *out.allocator();
    let mut line = mem::replace(out, Vec::new(alloc));
    push_step(&mut line, func, number, operands, results, found);
    mem::swap(out, &mut line);
    Ok(())
}

/// Room for the text of an instruction, if it is a number of bytes that a memory may have: 46 bytes for words and
/// numbers, and 25 for each value.
#[inline(always)]
fn step_room(operands: &[Val], results: &[Val]) -> Option<usize>
    ensures { IfSome result (λ room. 46 + (25 * length operands.now + 25 * length results.now) ≤ room) }
{
    let values = operands.len().checked_add(results.len())?;
    values.checked_mul(25)?.checked_add(46)
}

/// Pushes the text of an instruction. The compiler keeps the length of the local list that `put_step` passes in a
/// register, which it does for no list behind a reference: the bytes that are pushed might be those of that length.
#[inline(always)]
fn push_step(
    out: &mut Vec<u8>,
    func: u32,
    number: u32,
    operands: &[Val],
    results: &[Val],
    found: Option<u32>,
)
    requires room { vec_len out.old + (46 + (25 * length operands.now + 25 * length results.now))
        ≤ vec_capacity out.old }
    ensures { out.new.items ≡ out.old.items ++ entry_text (Step func number operands.now results.now found) }
{
    push_bytes(out, b"step");
    push_number(out, func);
    push_number(out, number);
    push_values(out, operands);
    push_bytes(out, b" ->");
    push_values(out, results);
    push_found(out, found);
}

/// Appends why an instruction traps, with its operands and what it found.
fn put_cause(
    out: &mut Vec<u8>,
    kind: TrapKind,
    operands: &[Val],
    found: Option<u32>,
) -> Result<(), NoMemory>
    ensures ok { OnOk result (out.new.items ≡ out.old.items
        ++ (with_space (kind_text kind) ++ (values_text operands.now ++ found_text found))) }
    ensures refused { OnErr result (GrewByFirstPart out.old.items out.new.items
        (with_space (kind_text kind) ++ (values_text operands.now ++ found_text found))) }
{
    put_kind(out, kind)?;
    put_values(out, operands)?;
    put_found(out, found)
}

/// Appends the text of an instruction that traps.
fn put_trap(
    out: &mut Vec<u8>,
    func: u32,
    number: u32,
    kind: TrapKind,
    operands: &[Val],
    found: Option<u32>,
) -> Result<(), NoMemory>
    ensures ok { OnOk result (out.new.items
        ≡ out.old.items ++ entry_text (Trap func number kind operands.now found)) }
    ensures refused { OnErr result (GrewByFirstPart out.old.items out.new.items
        (entry_text (Trap func number kind operands.now found))) }
{
    put_instr(out, b"trap", func, number)?;
    put_cause(out, kind, operands, found)
}

/// Appends the name of a trap.
fn put_kind(out: &mut Vec<u8>, kind: TrapKind) -> Result<(), NoMemory>
    ensures ok { OnOk result (out.new.items ≡ out.old.items ++ with_space (kind_text kind)) }
    ensures refused { OnErr result
        (GrewByFirstPart out.old.items out.new.items (with_space (kind_text kind))) }
{
    match kind {
        TrapKind::Unreachable => put(out, b" unreachable"),
        TrapKind::DivideByZero => put(out, b" divide"),
        TrapKind::Overflow => put(out, b" overflow"),
        TrapKind::Memory => put(out, b" memory"),
        TrapKind::Table => put(out, b" table"),
        TrapKind::Empty => put(out, b" empty"),
        TrapKind::Signature => put(out, b" signature"),
    }
}
