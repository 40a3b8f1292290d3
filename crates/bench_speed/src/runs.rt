// A run of a function by the machine alone.

ghost use Rattle.std.specs.Prelude.{◌≤◌, IfOk, length};
ghost use Rattle.wasm_syntax.specs.declared.limits.TheConstants.{MAX_FILE_BYTES};
ghost use Rattle.bench_machine.specs.Positions.{IsIdle};

use crate::calls::Call;
use bench_machine::{Instance, MachineFault, NoMemory, instance_of};
use host_link::LinkFault;
use module_index::scope::Scope;
use r3_faults::Fault;
use std::alloc::{AllocError, Global};
use wasm_flat::Meter;
use wasm_interp::Pause;
use wasm_syntax::{ExportKind, Module, Val};

/// The script of a host that supplies nothing and does nothing.
const NOTHING: &[u8] = br#"{"main":[]}"#;

/// Where the machine pauses, and how many turns it took.
pub(crate) fn line_of_run(alloc: Global, bytes: &[u8], call: &Call) -> Result<String, Fault>
    requires { length bytes.now ≤ MAX_FILE_BYTES }
{
    let mut instance = bare_instance(alloc, bytes)?;
    line_in(alloc, &mut instance, call)
}

/// The line of a call in an instance.
fn line_in(alloc: Global, instance: &mut Instance, call: &Call) -> Result<String, Fault>
    requires { IsIdle instance.old.«module» instance.old.machine }
{
    let (func, argument) = function_and_argument(alloc, &instance.module, call)?;
    match run(alloc, instance, func, argument, call.turns)? {
        Some((pause, turns)) => Ok(line_of(alloc, pause, turns)?),
        None => Err(Fault::Usage),
    }
}

/// The function that a call names, and its argument.
fn function_and_argument(alloc: Global, module: &Module, call: &Call) -> Result<(u32, Val), Fault> {
    let Some(func) = func_of(module, call.function) else {
        return Err(Fault::Usage);
    };
    match argument_of(alloc, module, func, call.argument)? {
        Some(argument) => Ok((func, argument)),
        None => Err(Fault::Usage),
    }
}

/// Calls a function, if it takes the argument, and goes on for at most the given number of turns; returns where
/// the machine pauses, and how many turns it took.
fn run(
    alloc: Global,
    instance: &mut Instance,
    func: u32,
    argument: Val,
    turns: u64,
) -> Result<Option<(Pause, u64)>, NoMemory>
    requires { IsIdle instance.old.«module» instance.old.machine }
{
    if !instance.call(alloc, func, &[argument])? {
        return Ok(None);
    }
    let meter = Meter::all_one();
    let (pause, left) = instance.advance(&meter, turns)?;
    Ok(Some((pause, turns - left)))
}

/// The instance of a module to which nothing is supplied.
fn bare_instance(alloc: Global, bytes: &[u8]) -> Result<Instance, Fault>
    requires { length bytes.now ≤ MAX_FILE_BYTES }
    ensures { IfOk result (λ instance. IsIdle instance.«module» instance.machine) }
{
    match instance_of(alloc, bytes, NOTHING) {
        Ok(instance) => Ok(instance),
        Err(fault) => Err(fault_of_machine(fault)),
    }
}

/// Why there is no instance.
fn fault_of_machine(fault: MachineFault) -> Fault {
    match fault {
        MachineFault::Input { fault } => fault,
        MachineFault::Link { fault } => fault_of_link(fault),
        MachineFault::Memory => Fault::Memory,
    }
}

/// The fault of a module that does not link.
fn fault_of_link(fault: LinkFault) -> Fault {
    match fault {
        LinkFault::Missing { import } => Fault::Missing {
            import: u64::from(import),
        },
        LinkFault::Mismatch { import } => Fault::Mismatch {
            import: u64::from(import),
        },
        LinkFault::Segment { number } => Fault::Segment {
            number: u64::from(number),
        },
        LinkFault::Memory => Fault::Memory,
    }
}

/// The function with an export of this name, or of this index.
fn func_of(module: &Module, word: &str) -> Option<u32> {
    'exports: for export in module.exports.as_slice() {
        if let ExportKind::Func(func) = export.kind {
            if export.name.as_str() == word {
                return Some(func);
            }
        }
    }
    word.parse::<u32>().ok()
}

/// A number as a value of the type of a function's only parameter.
fn argument_of(
    alloc: Global,
    module: &Module,
    func: u32,
    number: u64,
) -> Result<Option<Val>, Fault> {
    let scope = Scope::of(alloc, module)?;
    let Some(ty) = scope.func_type(func) else {
        return Ok(None);
    };
    match ty.params.as_slice() {
        [ty] => Ok(Some(Val {
            ty: *ty,
            bits: number,
        })),
        _ => Ok(None),
    }
}

/// The line of a pause after a number of turns.
fn line_of(alloc: Global, pause: Pause, turns: u64) -> Result<String, AllocError> {
    match pause {
        Pause::Import { index } => format!(in alloc; "import {index} after {turns} turns\n"),
        Pause::Returned => format!(in alloc; "returned after {turns} turns\n"),
        Pause::Trapped => format!(in alloc; "trapped after {turns} turns\n"),
        Pause::Spent => format!(in alloc; "spent after {turns} turns\n"),
    }
}
