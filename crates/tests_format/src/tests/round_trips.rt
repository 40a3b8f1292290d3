//! The example modules and others whose numbers are all in their fewest bytes, and some that are not.

use sample_inputs::examples::{
    C_BUFFERS, EMPTY, FLOAT_BODY, FLOAT_GLOBAL, GROW_ACCESS, GROW_FAILED, IMPORTED_OFFSET,
    NESTED_CALL, NESTED_TRAP, OVERWRITE, REPLAY_TWO_ANSWERS, TABLE_ENTRY, TABLE_ENTRY_IMPORT,
    TWO_ANSWERS,
};
use std::alloc::Global;
use std::test::Fail;
use wasm_decode::decode;
use wasm_encode::encode;
use wasm_syntax::{Form, shortest_encoding};

/// Whether a module, decoded in the form of replay binaries and encoded again, has these bytes; both in hexadecimal.
fn is_again(alloc: Global, text: &str, again: &str) -> Result<bool, Fail> {
    shortest_encoding();
    let module = decode(alloc, &hex::decode(alloc, text)?, Form::Replay)?;
    let encoded = encode(alloc, &module, u32::MAX)?;
    Ok(encoded.as_slice() == hex::decode(alloc, again)?.as_slice())
}

const EXAMPLES: &[(&str, &str)] = &[
    ("c_buffers", C_BUFFERS),
    ("empty", EMPTY),
    ("float_body", FLOAT_BODY),
    ("float_global", FLOAT_GLOBAL),
    ("grow_access", GROW_ACCESS),
    ("grow_failed", GROW_FAILED),
    ("imported_offset", IMPORTED_OFFSET),
    ("nested_call", NESTED_CALL),
    ("nested_trap", NESTED_TRAP),
    ("overwrite", OVERWRITE),
    ("replay_two_answers", REPLAY_TWO_ANSWERS),
    ("table_entry", TABLE_ENTRY),
    ("table_entry_import", TABLE_ENTRY_IMPORT),
    ("two_answers", TWO_ANSWERS),
];

#[test]
fn examples_give_their_own_bytes(rt: HostRuntime) -> Result<(), Fail> {
    for &(name, text) in EXAMPLES {
        assert!(rt; is_again(rt.alloc(), text, text)?, "{name}");
    }
    Ok(())
}

#[test]
fn long_numbers_are_cut(rt: HostRuntime) -> Result<(), Fail> {
    let rows = [
        // (module (import "h" "f" (func (result i32))) (func (result i32) call 0 call 0 i32.add)
        // (export "g" (func 1))), with the index of the function's type in five bytes
        "0061736d010000000105016000017f0207010168016600000306018080808000070501016700010a09010700100010006a0b",
        // (module (import "h" "f" (func (result i32))) (func (result i32) call 0 call 0 i32.add)
        // (export "g" (func 1))), with the size of the code section in two bytes and an empty section of globals
        "0061736d010000000105016000017f02070101680166000003020100060100070501016700010a8900010700100010006a0b",
    ];
    for text in rows {
        assert!(rt; is_again(rt.alloc(), text, TWO_ANSWERS)?, "{text}");
    }
    Ok(())
}

#[test]
fn instructions_of_the_prefix_are_cut(rt: HostRuntime) -> Result<(), Fail> {
    // each module with its numbers longer, and in their fewest bytes
    let rows = [
        (
            // (module (memory 1) (func i32.const 8 i32.const 16 i32.const 4 memory.copy
            //   i32.const 8 i32.extend8_s i32.const 1 i32.const 4 memory.fill)), with the number of `memory.copy` in
            // two bytes and that of `memory.fill` in five
            "0061736d01000000010401600000030201000503010001\
             0a1d011b00410841104104fc8a0000004108c041014104fc8b80808000000b",
            // (module (memory 1) (func i32.const 8 i32.const 16 i32.const 4 memory.copy
            //   i32.const 8 i32.extend8_s i32.const 1 i32.const 4 memory.fill))
            "0061736d01000000010401600000030201000503010001\
             0a18011600410841104104fc0a00004108c041014104fc0b000b",
        ),
        (
            // (module (table 1 funcref) (func ref.null func i32.const 1 table.grow 0 drop table.size 0 drop)), with the
            // number of `table.grow` and the table of `table.size` in two bytes
            "0061736d010000000104016000000302010004040170000\
             10a12011000d0704101fc8f00001afc1080001a0b",
            // (module (table 1 funcref) (func ref.null func i32.const 1 table.grow 0 drop table.size 0 drop))
            "0061736d010000000104016000000302010004040170000\
             10a10010e00d0704101fc0f001afc10001a0b",
        ),
    ];
    for (long, short) in rows {
        assert!(rt; is_again(rt.alloc(), long, short)?, "{long}");
        assert!(rt; is_again(rt.alloc(), short, short)?, "{short}");
    }
    Ok(())
}
