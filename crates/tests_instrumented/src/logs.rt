// Logs of runs of instrumented modules, worked out by hand, and the lines of error of runs that have none.

use r3_outside::SureSink;
use r3_record::log_run;
use sample_inputs::examples;
use sample_inputs::hooked_modules::TWO_ANSWERS;
use sample_inputs::scripts::ANSWERS;
use std::alloc::Global;
use std::test::Fail;
use wasm_syntax::limits::MAX_INSTRUMENTED_BYTES;

/// What a row tests; the bytes of a module in hexadecimal, a script for it, a number of turns; and the bytes of
/// the log file in hexadecimal, or the line of error.
type Row = (
    &'static str,
    &'static str,
    &'static str,
    u64,
    Result<&'static str, &'static str>,
);

/// `hooked_modules::TWO_ANSWERS`, except that the exit of the function is reported as an entry.
const ENTERED_AGAIN: &str =
    "0061736d01000000011e066000017f60027f7e0060017f0060000060037f7f7f0060047f7f7f7e00029f011001680166\
     000002723303617267000102723305656e7465720002027233056c65617665000202723303707265000202723304706f\
     73740002027233046970726500020272330569706f73740003027233046c6f616400040272330573746f726500050272\
     330473697a6500030272330467726f770002027233046767657400010272330467736574000102723304636f70790004\
     0272330466696c6c000403020100070501016700100a44014204027f017e017d017c41011002027f4100100410002101\
     41ff002001ad1001410010052001410010041000210141ff002001ad10014100100520016a0b410110020b002c097233\
     2e686f6f6b656407070707070707070707070707070707070707070707070707070707070707070101";

/// `hooked_modules::TWO_ANSWERS`, except that the first answer is passed with a byte that encodes no type.
const NO_TYPE: &str =
    "0061736d01000000011e066000017f60027f7e0060017f0060000060037f7f7f0060047f7f7f7e00029f011001680166\
     000002723303617267000102723305656e7465720002027233056c65617665000202723303707265000202723304706f\
     73740002027233046970726500020272330569706f73740003027233046c6f616400040272330573746f726500050272\
     330473697a6500030272330467726f770002027233046767657400010272330467736574000102723304636f70790004\
     0272330466696c6c000403020100070501016700100a44014204027f017e017d017c41011002027f4100100410002101\
     41ef002001ad1001410010052001410010041000210141ff002001ad10014100100520016a0b410110030b002c097233\
     2e686f6f6b656407070707070707070707070707070707070707070707070707070707070707070101";

/// A function that stores two bytes and loads four, two of them written by the host, instrumented.
const OVERWRITE: &str =
    // (module (type (func)) (type (func (result i32))) (type (func (param i32 i64))) (type (func (param i32)))
    //   (type (func (param i32 i32 i32))) (type (func (param i32 i32 i32 i64)))
    //   (import "h" "f" (func (type 0))) (import "r3" "arg" (func (type 2))) (import "r3" "enter" (func (type 3)))
    //   (import "r3" "leave" (func (type 3))) (import "r3" "pre" (func (type 3))) (import "r3" "post" (func (type 3)))
    //   (import "r3" "ipre" (func (type 3))) (import "r3" "ipost" (func (type 0))) (import "r3" "load" (func (type 4)))
    //   (import "r3" "store" (func (type 5))) (import "r3" "size" (func (type 0))) (import "r3" "grow" (func (type 3)))
    //   (import "r3" "gget" (func (type 2))) (import "r3" "gset" (func (type 2))) (import "r3" "copy" (func (type 4)))
    //   (import "r3" "fill" (func (type 4)))
    //   (func (type 1) (local i32 i32 i64 f32 f64)
    //     i32.const 1 call 2 block (result i32)
    //     i32.const 0 call 4 call 0 i32.const 0 call 5
    //     i32.const 8 i32.const 1 local.set 1 local.tee 0
    //     i32.const 0 i32.const 2 local.get 1 i64.extend_i32_u call 9 local.get 0 local.get 1 i32.store16
    //     i32.const 8 local.tee 0 i32.const 0 i32.const 4 call 8 local.get 0 i32.load
    //     end i32.const 1 call 3)
    //   (memory 1) (export "g" (func 16)) (export "m" (memory 0))), with a section `r3.hooked`
    "0061736d01000000011e066000006000017f60027f7e0060017f0060037f7f7f0060047f7f7f7e00029f011001680166\
     000002723303617267000202723305656e7465720003027233056c65617665000302723303707265000302723304706f\
     73740003027233046970726500030272330569706f73740000027233046c6f616400040272330573746f726500050272\
     330473697a6500000272330467726f770003027233046767657400020272330467736574000202723304636f70790004\
     0272330466696c6c000403020101050301000107090201670010016d02000a48014604027f017e017d017c4101100202\
     7f410010041000410010054108410121012200410041022001ad1009200020013b010041082200410041041008200028\
     02000b410110030b002c0972332e686f6f6b656407070707070707070707070707070707070707070707070707070707\
     070707070101";

/// `OVERWRITE`, except that the hook call reports a load of two bytes.
const TWO_BYTES_REPORTED: &str =
    "0061736d01000000011e066000006000017f60027f7e0060017f0060037f7f7f0060047f7f7f7e00029f011001680166\
     000002723303617267000202723305656e7465720003027233056c65617665000302723303707265000302723304706f\
     73740003027233046970726500030272330569706f73740000027233046c6f616400040272330573746f726500050272\
     330473697a6500000272330467726f770003027233046767657400020272330467736574000202723304636f70790004\
     0272330466696c6c000403020101050301000107090201670010016d02000a48014604027f017e017d017c4101100202\
     7f410010041000410010054108410121012200410041022001ad1009200020013b010041082200410041021008200028\
     02000b410110030b002c0972332e686f6f6b656407070707070707070707070707070707070707070707070707070707\
     070707070101";

/// The host writes four bytes.
const WRITES: &str =
    r#"{"imports":{"h":{"f":{"calls":[{"do":[{"write":8,"bytes":"aabbccdd"}]}]}}},"main":[{"call":"g"}]}"#;

const ROWS: &[Row] = &[
    (
        "two answers",
        TWO_ANSWERS,
        ANSWERS,
        29,
        Ok(
            "72336c670207070707070707070707070707070707070707070707070707070707070707070101010003010004017f05\
             00000003010004017f07000000020110",
        ),
    ),
    (
        "two answers with a turn too few",
        TWO_ANSWERS,
        ANSWERS,
        28,
        Err("turns spent: 28\n"),
    ),
    (
        "bytes that the host wrote",
        OVERWRITE,
        WRITES,
        1000,
        Ok(
            "72336c67020707070707070707070707070707070707070707070707070707070707070707010101000301000400070a\
             02ccdd020110",
        ),
    ),
    (
        "bytes that are not told",
        TWO_BYTES_REPORTED,
        WRITES,
        1000,
        Ok(
            "72336c670207070707070707070707070707070707070707070707070707070707070707070101010003010004000201\
             10",
        ),
    ),
    (
        "a function is entered within itself",
        ENTERED_AGAIN,
        ANSWERS,
        29,
        Err("hook order: call 7\n"),
    ),
    (
        "a value of no type",
        NO_TYPE,
        ANSWERS,
        29,
        Err("hook order: call 2\n"),
    ),
    (
        "a module that is not instrumented",
        examples::TWO_ANSWERS,
        ANSWERS,
        29,
        Err("not hooked\n"),
    ),
    (
        "not instrumented, before the script is read",
        examples::TWO_ANSWERS,
        "{",
        29,
        Err("not hooked\n"),
    ),
    (
        "a script that is no text",
        TWO_ANSWERS,
        "{",
        29,
        Err("script: not json\n"),
    ),
    (
        "no answer is left",
        TWO_ANSWERS,
        r#"{"imports":{"h":{"f":{"calls":[{"return":{"i32":5}}]}}},"main":[{"call":"g"}]}"#,
        29,
        Err("script fault: turn 18 no response\n"),
    ),
    (
        "no module",
        // malformed: no version
        "0061736d",
        ANSWERS,
        29,
        Err("malformed: at 0\n"),
    ),
];

/// The result of a call: the bytes in hexadecimal, or the line of error.
fn answer_to(
    alloc: Global,
    module: &str,
    script: &str,
    turns: u64,
) -> Result<Result<String, Vec<u8>>, Fail> {
    let bytes = hex::decode(alloc, module)?;
    if bytes.len() as u64 > MAX_INSTRUMENTED_BYTES {
        return Err(Fail::from("too many bytes"));
    }
    let fault = match log_run(alloc, bytes.as_slice(), script.as_bytes(), turns) {
        Ok(file) => return Ok(Ok(hex::encode(alloc, file.as_slice())?)),
        Err(fault) => fault,
    };
    let mut sink = SureSink::new(alloc);
    fault.put_line(&mut sink)?;
    match sink.bytes() {
        Some(line) => Ok(Err(Vec::from_slice(alloc, line)?)),
        None => Err(Fail::from("out of memory")),
    }
}

/// Whether the result of a call is what a row has.
fn is_answered(
    alloc: Global,
    module: &str,
    script: &str,
    turns: u64,
    want: Result<&str, &str>,
) -> Result<bool, Fail> {
    let answer = answer_to(alloc, module, script, turns)?;
    Ok(match (&answer, want) {
        (Ok(file), Ok(want)) => file.as_str() == want,
        (Err(line), Err(want)) => line.as_slice() == want.as_bytes(),
        _ => false,
    })
}

#[test]
fn runs_of_instrumented_modules_have_these_logs(rt: HostRuntime) -> Result<(), Fail> {
    for &(name, module, script, turns, want) in ROWS {
        assert!(rt;
            is_answered(rt.alloc(), module, script, turns, want)?,
            "{name}"
        );
    }
    Ok(())
}
