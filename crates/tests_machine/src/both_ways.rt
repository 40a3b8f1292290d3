// Calls with the machine alone, by many turns at once and turn by turn.

ghost use Rattle.std.specs.Prelude.{◌≡◌, Ok, IfOk, true};
ghost use Rattle.bench_machine.specs.Positions.{IsIdle, IsRunning};

use base::NoMemory;
use bench_machine::{Instance, instance_of};
use history_lines::print_entry;
use std::alloc::Global;
use std::test::Fail;
use wasm_flat::Meter;
use wasm_interp::{Pause, Turn};
use wasm_syntax::limits::MAX_FILE_BYTES;
use wasm_syntax::{Val, ValType};

/// A call of a function of a module, in hexadecimal, with values of one type, under a script.
#[derive(Clone, Copy)]
pub(crate) struct Case {
    pub(crate) module: &'static str,
    pub(crate) script: &'static str,
    pub(crate) func: u32,
    pub(crate) ty: ValType,
    pub(crate) args: &'static [u64],
}

impl Case {
    /// This case with another function and its arguments.
    pub(crate) fn call(self, func: u32, args: &'static [u64]) -> Case {
        Case { func, args, ..self }
    }
}

/// The result of a call: where the machine pauses, how many turns it took, and the line of the last
/// entry, if there are entries; the bytes of the memory.
#[derive(Drop)]
pub(crate) struct CallOutcome {
    pub(crate) pause: Pause,
    pub(crate) turns: u64,
    pub(crate) line: Vec<u8>,
    pub(crate) bytes: Vec<u8>,
}

/// Values of one type, by their bits.
fn values_of(alloc: Global, ty: ValType, numbers: &[u64]) -> Result<Vec<Val>, NoMemory> {
    let mut values = Vec::new(alloc);
    'numbers: for number in numbers {
        values.push(Val { ty, bits: *number })?;
    }
    Ok(values)
}

/// The instance of a case before the call.
fn idle_instance(alloc: Global, case: Case) -> Result<Instance, Fail>
    ensures { IfOk result (λ instance. IsIdle instance.«module» instance.machine) }
{
    let bytes = hex::decode(alloc, case.module)?;
    if bytes.len() as u64 > MAX_FILE_BYTES {
        return Err(Fail::from("a module that is too long"));
    }
    match instance_of(alloc, &bytes, case.script.as_bytes()) {
        Ok(instance) => Ok(instance),
        Err(_fault) => Err(Fail::from("a module without an instance")),
    }
}

/// An instance in which a function is called.
pub(crate) fn running_instance(alloc: Global, case: Case) -> Result<Instance, Fail>
    ensures { IfOk result (λ instance. IsRunning instance.«module» instance.machine) }
{
    let mut instance = idle_instance(alloc, case)?;
    if call_function(alloc, &mut instance, case)? {
        Ok(instance)
    } else {
        Err(Fail::from("a function that is not called"))
    }
}

/// Whether the function is called in an instance.
fn call_function(alloc: Global, instance: &mut Instance, case: Case) -> Result<bool, NoMemory>
    requires { IsIdle instance.old.«module» instance.old.machine }
    ensures { result ≡ Ok true → IsRunning instance.new.«module» instance.new.machine }
{
    let args = values_of(alloc, case.ty, case.args)?;
    instance.call(alloc, case.func, &args)
}

/// A call by `advance`.
pub(crate) fn outcome_by_advance(
    alloc: Global,
    case: Case,
    turns: u64,
) -> Result<CallOutcome, Fail> {
    let mut instance = running_instance(alloc, case)?;
    advance_outcome(alloc, &mut instance, turns)
}

/// The outcome of a call that goes on by `advance`.
fn advance_outcome(alloc: Global, instance: &mut Instance, turns: u64) -> Result<CallOutcome, Fail>
    requires { IsRunning instance.old.«module» instance.old.machine }
{
    let (pause, left) = instance.advance(&Meter::all_one(), turns)?;
    let bytes = Vec::from_slice(alloc, instance.machine.store().bytes())?;
    Ok(CallOutcome {
        pause,
        turns: turns - left,
        line: Vec::new(alloc),
        bytes,
    })
}

/// The outcome of a case, turn by turn.
pub(crate) fn outcome_by_turns(alloc: Global, case: Case, turns: u64) -> Result<CallOutcome, Fail> {
    let mut instance = running_instance(alloc, case)?;
    turns_outcome(alloc, &mut instance, turns)
}

/// The outcome of a call that goes on turn by turn.
fn turns_outcome(alloc: Global, instance: &mut Instance, turns: u64) -> Result<CallOutcome, Fail>
    requires { IsRunning instance.old.«module» instance.old.machine }
{
    let (pause, taken, line) = end_by_turns(alloc, instance, turns)?;
    let bytes = Vec::from_slice(alloc, instance.machine.store().bytes())?;
    Ok(CallOutcome {
        pause,
        turns: taken,
        line,
        bytes,
    })
}

/// Goes on by single turns: where the machine pauses, how many turns it took, and the last line.
fn end_by_turns(
    alloc: Global,
    instance: &mut Instance,
    turns: u64,
) -> Result<(Pause, u64, Vec<u8>), NoMemory>
    requires { IsRunning instance.old.«module» instance.old.machine }
{
    let mut turn = instance.settle()?;
    'turns: for taken in 0..turns {
        if let Some(pause) = turn.pause {
            return Ok((pause, taken, last_line(alloc, &turn)?));
        }
        turn = instance.turn()?;
    }
    let pause = turn.pause.unwrap_or(Pause::Spent);
    Ok((pause, turns, last_line(alloc, &turn)?))
}

/// The line of the last entry of a turn, if it has entries.
fn last_line(alloc: Global, turn: &Turn) -> Result<Vec<u8>, NoMemory> {
    let mut line = Vec::new(alloc);
    if let Some(entry) = turn.entries.as_slice().last() {
        print_entry(&mut line, entry)?;
    }
    Ok(line)
}
