//! The program r3: its commands over the files of the system and the standard streams.
#![tactic(auto)]

use program_words::words_of_call;
use r3_core::{Fault, r3};
use r3_outside::{DiskFiles, StdSink};
use std::process::ExitCode;

fn main(rt: HostRuntime) -> ExitCode {
    let mut out = StdSink::new(rt.stdout());
    let mut err = StdSink::new(rt.stderr());
    let Ok(words) = words_of_call(&rt) else {
        let _ = Fault::Memory.put_line(&mut err);
        return ExitCode::from(Fault::Memory.status());
    };
    let alloc = rt.alloc();
    let mut files = DiskFiles::new(rt);
    ExitCode::from(r3(alloc, &words, &mut files, &mut out, &mut err))
}
