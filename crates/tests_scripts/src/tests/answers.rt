// The lines of error for scripts.

use r3_faults::Fault;
use r3_inputs::{module_of, script_of};
use r3_outside::MemSink;
use std::alloc::Global;
use std::test::Fail;
use wasm_syntax::limits::MAX_FILE_BYTES;
use wasm_validate::Checked;

/// Imports a function `h.f` of type `[i64] -> []`, has a memory and a table of its own, and exports only a
/// function `go` of type `[] -> []`.
pub const CLOSED: &str =
    // (module (import "h" "f" (func (param i64))) (table 1 funcref) (memory 1) (func (export "go")))
    "0061736d0100000001080260017e0060000002070101680166000003020101040401700001050301000107060102676f00010a040102000b";

/// Imports a table `h.t` of 2 to 4 entries, a memory `h.m` of 1 to 3 pages and the globals `h.g`
/// (i32) and `h.k` (i64), in this order, and exports a function `go` of type `[] -> []`.
pub const IMPORTED: &str =
    // (module (import "h" "t" (table 2 4 funcref)) (import "h" "m" (memory 1 3)) (import "h" "g" (global i32))
    //   (import "h" "k" (global i64)) (func (export "go")))
    "0061736d010000000104016000000220040168017401700102040168016d0201010301680167037f000168016b037e00\
     0302010007060102676f00000a040102000b";

/// The module that hexadecimal digits encode.
///
/// # Errors
///
/// An error if memory runs out, the text is not hexadecimal, or its bytes are not an accepted module.
pub fn module(alloc: Global, text: &str) -> Result<Checked, Fail> {
    let bytes = hex::decode(alloc, text)?;
    if bytes.len() as u64 > MAX_FILE_BYTES {
        return Err(Fail::from("too many bytes"));
    }
    match module_of(alloc, bytes.as_slice()) {
        Ok(checked) => Ok(checked),
        Err(_fault) => Err(Fail::from("a module that is not taken")),
    }
}

/// The line of a fault, without its line feed.
fn line_of(alloc: Global, fault: &Fault) -> Result<String, Fail> {
    let mut err = MemSink::new(alloc, 1000, Vec::new(alloc));
    if fault.put_line(&mut err).is_err() {
        return Err(Fail::from("a sink that fails"));
    }
    let line = String::from_utf8_lossy(alloc, err.bytes())?;
    match line.strip_suffix('\n') {
        Some(line) => Ok(String::from_str(alloc, line)?),
        None => Err(Fail::from("a line without its end")),
    }
}

/// The line of error for a script, or `taken`.
///
/// # Errors
///
/// An error if memory runs out.
pub fn answer_to(alloc: Global, checked: &Checked, script: &[u8]) -> Result<String, Fail> {
    match script_of(alloc, script, checked) {
        Ok(_script) => Ok(String::from_str(alloc, "taken")?),
        Err(fault) => line_of(alloc, &fault),
    }
}

/// Compares the result for a script with the expected one.
fn check_row(
    alloc: Global,
    checked: &Checked,
    name: &str,
    script: &str,
    want: &str,
) -> Result<(), Fail> {
    let line = answer_to(alloc, checked, script.as_bytes())?;
    if line.as_str() == want {
        return Ok(());
    }
    Err(Fail::new(format_args!("{name}: {line}")))
}

/// Compares the results for scripts of a module: rows have a name, a script, and its result.
///
/// # Errors
///
/// An error for the first result that differs, and the errors of `module`.
pub fn check_rows(alloc: Global, text: &str, rows: &[(&str, &str, &str)]) -> Result<(), Fail> {
    let checked = module(alloc, text)?;
    check_rows_in(alloc, &checked, rows)
}

fn check_rows_in(
    alloc: Global,
    checked: &Checked,
    rows: &[(&str, &str, &str)],
) -> Result<(), Fail> {
    for &(name, script, want) in rows {
        check_row(alloc, checked, name, script, want)?;
    }
    Ok(())
}

/// Compares the result for a row of a table with the one that the row has.
fn check_text(alloc: Global, checked: &Checked, row: &str) -> Result<(), Fail> {
    let Some((name, rest)) = row.split_once(" |") else {
        return Err(Fail::from("a row without a name"));
    };
    let Some((script, want)) = rest.split_once("=>") else {
        return Err(Fail::from("a row without an answer"));
    };
    check_row(alloc, checked, name, script.trim(), want.trim())
}

fn check_table_in(alloc: Global, checked: &Checked, table: &str) -> Result<u64, Fail> {
    let mut count = 0u64;
    for row in table.split("\n- ").skip(1) {
        check_text(alloc, checked, row)?;
        count = count.saturating_add(1);
    }
    Ok(count)
}

/// Compares the results for the rows of a table, and returns their number. Each row begins with `- ` on a line
/// of its own, and is `NAME | SCRIPT => ANSWER`; white space around a script and an answer is left out.
///
/// # Errors
///
/// An error for the first result that differs or a row of another form, and the errors of `module`.
pub fn check_table(alloc: Global, text: &str, table: &str) -> Result<u64, Fail> {
    let checked = module(alloc, text)?;
    check_table_in(alloc, &checked, table)
}
