// The paths of faults: each enclosing value puts its key or index in front.

ghost use Rattle.std.specs.Prelude.{◌≡◌, [], ◌++◌, decimal, OnOk, IfOk};
ghost use Rattle.script_text.specs.Walk.{part};
ghost use Rattle.decl_text.specs.Walk.{Gives, fault_below as fault_under, below as result_below};
ghost use Rattle.decl_text.specs.declared.faults.DeclFault.TheVariants.{Shape, Memory};

use crate::faults::DeclFault;
use base::NoMemory;
use itoa::Buffer;
use std::alloc::Global;
use wasm_syntax::Name;

/// The fault of a value's own form, with an empty path. Takes no memory.
pub(crate) fn shape(alloc: Global) -> DeclFault
    ensures { result ≡ Shape [] }
{
    let path = Name::from_string(String::new(alloc));
    DeclFault::Shape { path }
}

/// Appends a key or an index as a part of a JSON Pointer.
fn push_part(path: &mut Vec<u8>, step: &str) -> Result<(), NoMemory>
    ensures { OnOk result (path.new.items ≡ path.old.items ++ part step.now) }
{
    path.push(b'/')?;
    'bytes: for byte in step.as_bytes() {
        match *byte {
            b'~' => path.extend_from_slice(b"~0")?,
            b'/' => path.extend_from_slice(b"~1")?,
            byte => path.push(byte)?,
        }
    }
    Ok(())
}

/// A path below a key or an index.
fn path_below(alloc: Global, step: &str, path: &Name) -> Result<Name, NoMemory>
    ensures { IfOk result (λ name. name ≡ part step.now ++ path.now) }
{
    let mut longer = Vec::new(alloc);
    push_part(&mut longer, step)?;
    longer.extend_from_slice(path.as_str().as_bytes())?;
    match String::from_utf8(longer) {
        Ok(text) => Ok(Name::from_string(text)),
        Err(_) => Err(NoMemory),
    }
}

/// The fault that was found under a key or an index.
fn fault_below(alloc: Global, step: &str, fault: DeclFault) -> DeclFault
    ensures { (result ≡ Memory → ⊥) → result ≡ fault_under step.now fault }
{
    match fault {
        DeclFault::Shape { path } => match path_below(alloc, step, &path) {
            Ok(path) => DeclFault::Shape { path },
            Err(_) => DeclFault::Memory,
        },
        fault => fault,
    }
}

/// What was read under a key or an index.
pub(crate) fn below<T: Drop>(
    alloc: Global,
    step: &str,
    read: Result<T, DeclFault>,
) -> Result<T, DeclFault>
    ensures { Gives result (result_below step.now read) }
{
    match read {
        Ok(read) => Ok(read),
        Err(fault) => Err(fault_below(alloc, step, fault)),
    }
}

/// What was read at an index of a list.
pub(crate) fn below_index<T: Drop>(
    alloc: Global,
    index: usize,
    read: Result<T, DeclFault>,
) -> Result<T, DeclFault>
    ensures { Gives result (result_below (decimal index) read) }
{
    match read {
        Ok(read) => Ok(read),
        Err(fault) => {
            let mut buffer = Buffer::new();
            Err(fault_below(alloc, buffer.format(index), fault))
        }
    }
}
