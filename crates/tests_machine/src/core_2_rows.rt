//! Rows for instructions of Core 2.0: `memory.copy`, `memory.fill` and the sign extensions.

use crate::both_ways::Case;
use crate::rows::{NOTHING, Row, first_other};
use std::test::Fail;
use wasm_interp::Pause;
use wasm_syntax::ValType;

/// A page that begins with 01 to 08. Functions on a target, a source or value, and a count: bytes are
/// copied, and are filled; then the first eight bytes are given.
const BULK: &str =
    // (module (memory 1)
    //   (func (param i32 i32 i32) (result i64) local.get 0 local.get 1 local.get 2 memory.copy i32.const 0 i64.load)
    //   (func (param i32 i32 i32) (result i64) local.get 0 local.get 1 local.get 2 memory.fill i32.const 0 i64.load)
    //   (data (i32.const 0) "\01\02\03\04\05\06\07\08"))
    "0061736d0100000001080160037f7f7f017e030302000005030100010a24021100200020012002fc0a0000410029\
     03000b1000200020012002fc0b0041002903000b0b0e010041000b080102030405060708";

/// `i32.extend8_s`, `i32.extend16_s`; `i64.extend8_s`, `i64.extend16_s`, `i64.extend32_s`.
const EXTENSIONS: &str =
    // (module (func (param i32) (result i32) local.get 0 i32.extend8_s)
    //   (func (param i32) (result i32) local.get 0 i32.extend16_s)
    //   (func (param i64) (result i64) local.get 0 i64.extend8_s)
    //   (func (param i64) (result i64) local.get 0 i64.extend16_s)
    //   (func (param i64) (result i64) local.get 0 i64.extend32_s))
    "0061736d01000000010b0260017f017f60017e017e03060500000101010a1f0505002000c00b05002000c10b0500\
     2000c20b05002000c30b05002000c40b";

const BULK_CASE: Case = Case {
    module: BULK,
    script: NOTHING,
    func: 0,
    ty: ValType::I32,
    args: &[],
};

const EXTENSION_CASE: Case = Case {
    module: EXTENSIONS,
    ..BULK_CASE
};

const BULK_ROWS: &[Row] = &[
    // copies that overlap, to greater and to lower addresses; copies at the end of the memory and past it, and whose
    // ends are past 2^32
    (
        0,
        &[2, 0, 4],
        Pause::Returned,
        6,
        "host-return 0 i64:0807040302010201\n",
    ),
    (
        0,
        &[0, 2, 4],
        Pause::Returned,
        6,
        "host-return 0 i64:0807060506050403\n",
    ),
    (
        0,
        &[65_535, 0, 1],
        Pause::Returned,
        6,
        "host-return 0 i64:0807060504030201\n",
    ),
    (
        0,
        &[0x1_0000, 0, 0],
        Pause::Returned,
        6,
        "host-return 0 i64:0807060504030201\n",
    ),
    (
        0,
        &[0, 0x1_0000, 0],
        Pause::Returned,
        6,
        "host-return 0 i64:0807060504030201\n",
    ),
    (
        0,
        &[0x1_0001, 0, 0],
        Pause::Trapped,
        4,
        "trap 0 3 memory i32:00010001 i32:00000000 i32:00000000 found 1\n",
    ),
    (
        0,
        &[0, 0x1_0001, 0],
        Pause::Trapped,
        4,
        "trap 0 3 memory i32:00000000 i32:00010001 i32:00000000 found 1\n",
    ),
    (
        0,
        &[65_535, 0, 2],
        Pause::Trapped,
        4,
        "trap 0 3 memory i32:0000ffff i32:00000000 i32:00000002 found 1\n",
    ),
    (
        0,
        &[0, 65_535, 2],
        Pause::Trapped,
        4,
        "trap 0 3 memory i32:00000000 i32:0000ffff i32:00000002 found 1\n",
    ),
    (
        0,
        &[0xFFFF_FFFF, 0, 2],
        Pause::Trapped,
        4,
        "trap 0 3 memory i32:ffffffff i32:00000000 i32:00000002 found 1\n",
    ),
    (
        0,
        &[0, 0xFFFF_FFFF, 2],
        Pause::Trapped,
        4,
        "trap 0 3 memory i32:00000000 i32:ffffffff i32:00000002 found 1\n",
    ),
    (
        0,
        &[1, 1, 0xFFFF_FFFF],
        Pause::Trapped,
        4,
        "trap 0 3 memory i32:00000001 i32:00000001 i32:ffffffff found 1\n",
    ),
    // fills with a value past 255; at the end of the memory and past it, and whose ends are past 2^32
    (
        1,
        &[2, 0x1FF, 3],
        Pause::Returned,
        6,
        "host-return 1 i64:080706ffffff0201\n",
    ),
    (
        1,
        &[0, 0x100, 8],
        Pause::Returned,
        6,
        "host-return 1 i64:0000000000000000\n",
    ),
    (
        1,
        &[65_535, 1, 1],
        Pause::Returned,
        6,
        "host-return 1 i64:0807060504030201\n",
    ),
    (
        1,
        &[0x1_0000, 1, 0],
        Pause::Returned,
        6,
        "host-return 1 i64:0807060504030201\n",
    ),
    (
        1,
        &[0x1_0001, 1, 0],
        Pause::Trapped,
        4,
        "trap 1 3 memory i32:00010001 i32:00000001 i32:00000000 found 1\n",
    ),
    (
        1,
        &[65_535, 1, 2],
        Pause::Trapped,
        4,
        "trap 1 3 memory i32:0000ffff i32:00000001 i32:00000002 found 1\n",
    ),
    (
        1,
        &[0xFFFF_FFFF, 1, 2],
        Pause::Trapped,
        4,
        "trap 1 3 memory i32:ffffffff i32:00000001 i32:00000002 found 1\n",
    ),
    (
        1,
        &[1, 1, 0xFFFF_FFFF],
        Pause::Trapped,
        4,
        "trap 1 3 memory i32:00000001 i32:00000001 i32:ffffffff found 1\n",
    ),
];

const NARROW_EXTENSION_ROWS: &[Row] = &[
    (
        0,
        &[0x7F],
        Pause::Returned,
        2,
        "host-return 0 i32:0000007f\n",
    ),
    (
        0,
        &[0x80],
        Pause::Returned,
        2,
        "host-return 0 i32:ffffff80\n",
    ),
    (
        0,
        &[0x1234_567F],
        Pause::Returned,
        2,
        "host-return 0 i32:0000007f\n",
    ),
    (
        1,
        &[0x7FFF],
        Pause::Returned,
        2,
        "host-return 1 i32:00007fff\n",
    ),
    (
        1,
        &[0x8000],
        Pause::Returned,
        2,
        "host-return 1 i32:ffff8000\n",
    ),
    (
        1,
        &[0xFFFF_7FFF],
        Pause::Returned,
        2,
        "host-return 1 i32:00007fff\n",
    ),
];

const BROAD_EXTENSION_ROWS: &[Row] = &[
    (
        2,
        &[0x7F],
        Pause::Returned,
        2,
        "host-return 2 i64:000000000000007f\n",
    ),
    (
        2,
        &[0x80],
        Pause::Returned,
        2,
        "host-return 2 i64:ffffffffffffff80\n",
    ),
    (
        2,
        &[0xFFFF_FFFF_FFFF_FF7F],
        Pause::Returned,
        2,
        "host-return 2 i64:000000000000007f\n",
    ),
    (
        3,
        &[0x7FFF],
        Pause::Returned,
        2,
        "host-return 3 i64:0000000000007fff\n",
    ),
    (
        3,
        &[0x8000],
        Pause::Returned,
        2,
        "host-return 3 i64:ffffffffffff8000\n",
    ),
    (
        3,
        &[0xFFFF_FFFF_FFFF_7FFF],
        Pause::Returned,
        2,
        "host-return 3 i64:0000000000007fff\n",
    ),
    (
        4,
        &[0x7FFF_FFFF],
        Pause::Returned,
        2,
        "host-return 4 i64:000000007fffffff\n",
    ),
    (
        4,
        &[0x8000_0000],
        Pause::Returned,
        2,
        "host-return 4 i64:ffffffff80000000\n",
    ),
    (
        4,
        &[0xFFFF_FFFF_7FFF_FFFF],
        Pause::Returned,
        2,
        "host-return 4 i64:000000007fffffff\n",
    ),
];

const TABLES: &[(Case, &[Row])] = &[
    (BULK_CASE, BULK_ROWS),
    (EXTENSION_CASE, NARROW_EXTENSION_ROWS),
    (
        Case {
            ty: ValType::I64,
            ..EXTENSION_CASE
        },
        BROAD_EXTENSION_ROWS,
    ),
];

#[test]
fn instructions_of_core_2_come_to_the_same_in_both_ways(rt: HostRuntime) -> Result<(), Fail> {
    assert_eq!(rt; first_other(rt.alloc(), TABLES)?, None);
    Ok(())
}
