//! The words that a program is called with.
#![tactic(auto)]

ghost use Rattle.std.specs.Prelude.{◌≡◌, drop};

use base::NoMemory;
use std::io::ErrorKind;
use std::rt::Env;
use std::{env, io};

/// The words after the program's name; an empty list, which is no form of a call, if a word is not text.
///
/// # Errors
///
/// When memory runs out.
pub fn words_of_call<R: Env + AllocGlobal>(rt: &R) -> Result<Vec<String>, NoMemory> {
    match words(rt) {
        Ok(words) => Ok(words),
        Err(fault) if fault.kind() == ErrorKind::OutOfMemory => Err(NoMemory),
        Err(_) => Ok(Vec::new(rt.alloc())),
    }
}

/// The words after the program's name, each a text.
fn words<R: Env + AllocGlobal>(rt: &R) -> io::Result<Vec<String>> {
    Ok(after_name(env::args(rt)?.collect(rt.alloc())?))
}

/// All words but the first, which is the program's name. Takes no memory.
fn after_name(mut all: Vec<String>) -> Vec<String>
    ensures { result.items ≡ drop 1 all.items }
{
    if !all.is_empty() {
        all.remove(0);
    }
    all
}
