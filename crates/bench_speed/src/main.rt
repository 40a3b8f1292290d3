//! A program that measures: it runs a function of a module by the machine alone for at most a given number of
//! turns. It prints where the machine pauses and how many turns it took; the run takes most of the time.
#![tactic(auto)]

ghost use Rattle.std.specs.Prelude.{◌≤◌, IfOk, length};
ghost use Rattle.wasm_syntax.specs.declared.limits.TheConstants.{MAX_FILE_BYTES};

mod calls;
mod runs;

use base::NoMemory;
use calls::call_of;
use program_words::words_of_call;
use r3_faults::Fault;
use r3_outside::{DiskFiles, Files, LoadFault, Sink, StdSink, load, put_all};
use runs::line_of_run;
use std::alloc::Global;
use std::process::ExitCode;
use wasm_syntax::Name;
use wasm_syntax::limits::MAX_FILE_BYTES;

/// The most bytes of a module.
const MODULE: u64 = MAX_FILE_BYTES;

fn main(rt: HostRuntime) -> ExitCode {
    let mut out = StdSink::new(rt.stdout());
    let mut err = StdSink::new(rt.stderr());
    let words = words_of_call(&rt);
    let alloc = rt.alloc();
    match run(alloc, words, &mut DiskFiles::new(rt), &mut out) {
        Ok(()) => ExitCode::from(0),
        Err(fault) => {
            let _ = fault.put_line(&mut err);
            ExitCode::from(fault.status())
        }
    }
}

/// Runs what the words ask for, if memory was left for them, and prints the line.
fn run<F: Files, O: Sink>(
    alloc: Global,
    words: Result<Vec<String>, NoMemory>,
    files: &mut F,
    out: &mut O,
) -> Result<(), Fault> {
    let words = words?;
    let line = line_for(alloc, &words, files)?;
    put_all(out, line.as_bytes())?;
    Ok(())
}

/// The line of what the words ask for.
fn line_for<F: Files>(alloc: Global, words: &[String], files: &mut F) -> Result<String, Fault> {
    let call = call_of(words)?;
    let bytes = module_in(alloc, files, call.module)?;
    line_of_run(alloc, &bytes, &call)
}

/// The bytes of a module's file.
fn module_in<F: Files>(alloc: Global, files: &mut F, name: &str) -> Result<Vec<u8>, Fault>
    ensures { IfOk result (λ bytes. length bytes.items ≤ MAX_FILE_BYTES) }
{
    match load(alloc, files, name, MODULE) {
        Ok(bytes) => Ok(bytes),
        Err(fault) => Err(fault_of_load(alloc, fault, name)?),
    }
}

/// Why a module's file is not read.
fn fault_of_load(alloc: Global, fault: LoadFault, name: &str) -> Result<Fault, Fault> {
    let name = Name::from_string(String::from_str(alloc, name)?);
    Ok(match fault {
        LoadFault::Failed => Fault::Read { name },
        LoadFault::TooLong => Fault::TooLong {
            name,
            limit: MODULE,
        },
        LoadFault::Memory => Fault::Memory,
    })
}
