// Files that are instrumented, or refused. The bytes of the first were worked out by hand.

use r3_instrument::{Fault, instrument_bytes};
use sample_inputs::examples::TWO_ANSWERS;
use std::alloc::Global;
use std::test::Fail;
use wasm_syntax::limits::MAX_FILE_BYTES;

/// The instrumented module of `TWO_ANSWERS`:
/// `hooked_modules::TWO_ANSWERS`, except that the section has the SHA-256 digest of the original's bytes.
const INSTRUMENTED: &str =
    "0061736d01000000011e066000017f60027f7e0060017f0060000060037f7f7f0060047f7f7f7e00029f0110016801660000\
     02723303617267000102723305656e7465720002027233056c65617665000202723303707265000202723304706f73740002\
     027233046970726500020272330569706f73740003027233046c6f616400040272330573746f726500050272330473697a65\
     00030272330467726f770002027233046767657400010272330467736574000102723304636f707900040272330466696c6c\
     000403020100070501016700100a44014204027f017e017d017c41011002027f410010041000210141ff002001ad10014100\
     10052001410010041000210141ff002001ad10014100100520016a0b410110030b002c0972332e686f6f6b6564b2538ff913\
     99e7d320488dc89f451e77f282ba4c55a7d9c9187b9918b441ef840101";

/// A file that is refused: what the row tests, its bytes in hexadecimal, and the status of the fault.
type Row = (&'static str, &'static str, u8);

const ROWS: &[Row] = &[
    ("no bytes", "", 5),
    (
        "a section that is cut short",
        // malformed: two of the five bytes of a section
        "0061736d0100000001050160",
        5,
    ),
    (
        "a body that leaves nothing",
        // (module (func (result i32)))
        "0061736d010000000105016000017f030201000a040102000b",
        6,
    ),
    (
        "a sum of floats",
        // (module (func (result f32) f32.const 0 f32.const 0 f32.add))
        "0061736d010000000105016000017d030201000a0f010d0043000000004300000000920b",
        7,
    ),
    (
        "a memory of 4,097 pages",
        // (module (memory 4097))
        "0061736d01000000050401008120",
        8,
    ),
    (
        "an import from the module of the hooks",
        // (module (import "r3" "enter" (func)))
        "0061736d01000000010401600000020c0102723305656e7465720000",
        8,
    ),
    ("an instrumented module", INSTRUMENTED, 8),
];

/// The instrumented file of bytes in hexadecimal.
fn hooked_file(alloc: Global, text: &str) -> Result<Result<Vec<u8>, Fault>, Fail> {
    let bytes = hex::decode(alloc, text)?;
    if bytes.len() > MAX_FILE_BYTES as usize {
        return Err(Fail::from("a long text"));
    }
    Ok(instrument_bytes(alloc, bytes.as_slice()))
}

/// Whether a file is instrumented to another.
fn is_hooked_to(alloc: Global, text: &str, want: &[u8]) -> Result<bool, Fail> {
    match hooked_file(alloc, text)? {
        Ok(bytes) => Ok(bytes.as_slice() == want),
        Err(_fault) => Err(Fail::from("a refused module")),
    }
}

/// The status that a file is refused with, 0 if it is instrumented.
fn status_of_file(alloc: Global, text: &str) -> Result<u8, Fail> {
    match hooked_file(alloc, text)? {
        Ok(_bytes) => Ok(0),
        Err(fault) => Ok(fault.status()),
    }
}

#[test]
fn a_file_is_instrumented(rt: HostRuntime) -> Result<(), Fail> {
    let want = hex::decode(rt.alloc(), INSTRUMENTED)?;
    assert!(rt; is_hooked_to(rt.alloc(), TWO_ANSWERS, want.as_slice())?);
    Ok(())
}

#[test]
fn files_are_refused(rt: HostRuntime) -> Result<(), Fail> {
    for &(name, text, want) in ROWS {
        if status_of_file(rt.alloc(), text)? != want {
            return Err(Fail::new(format_args!("{name}")));
        }
    }
    Ok(())
}
