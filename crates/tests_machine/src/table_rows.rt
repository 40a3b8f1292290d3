//! Rows for branches by a table and for calls through the table.

use crate::both_ways::Case;
use crate::rows::{NOTHING, Row, first_other};
use std::test::Fail;
use wasm_interp::Pause;
use wasm_syntax::ValType;

/// Function 0 takes 4 along to the inner block, beside 2 and 1, to the outer one, beside 1, or returns it. 1 branches
/// by a table of the default alone. 2 counts up to its argument in a loop that goes on by a `br_table`.
const SWITCHES: &str =
    // (module (func (param i32) (result i32) i32.const 1 block (result i32) i32.const 2 block (result i32)
    //     i32.const 3 i32.const 4 local.get 0 br_table 0 1 2 end i32.add end i32.add)
    //   (func (param i32) (result i32) block local.get 0 br_table 0 end i32.const 9)
    //   (func (param i32) (result i32) (local i32) block loop local.get 1 i32.const 1 i32.add local.tee 1
    //     local.get 0 i32.ge_u br_table 0 1 end end local.get 1))
    "0061736d0100000001060160017f017f0304030000000a430319004101027f4102027f4103410420000e020001020b6a0b\
     6a0b0c00024020000e00000b41090b1a01017f02400340200141016a220120004f0e0100010b0b20010b";

/// The entries of the table: 0 a function whose type has the index of the call's; 1 one whose type is equal to
/// that; 2 one of another type; 3 an import; 4 empty; 5 function 6. Function 4 calls an entry with an argument; 5
/// calls entry 2 with two; 6 calls itself through the table as often as its argument says.
const INDIRECT: &str =
    // (module (type (func (param i32) (result i32))) (type (func (param i32 i32) (result i32)))
    //   (type (func (param i32) (result i32))) (import "h" "f" (func (type 0))) (table 6 funcref)
    //   (func (type 0) local.get 0 i32.const 1 i32.add) (func (type 2) local.get 0 i32.const 2 i32.mul)
    //   (func (type 1) local.get 0 local.get 1 i32.sub)
    //   (func (type 1) local.get 0 local.get 1 call_indirect (type 0))
    //   (func (type 1) local.get 0 local.get 1 i32.const 2 call_indirect (type 1))
    //   (func (type 0) local.get 0 if (result i32) local.get 0 i32.const 1 i32.sub i32.const 5 call_indirect (type 0)
    //     i32.const 1 i32.add else i32.const 0 end)
    //   (elem (i32.const 0) 1 2 3 0) (elem (i32.const 5) 6))
    "0061736d0100000001110360017f017f60027f7f017f60017f017f02070101680166000003070600020101010004040170\
     00060910020041000b04010203000041050b01060a47060700200041016a0b0700200041026c0b0700200020016b0b0900\
     200020011100000b0b002000200141021101000b17002000047f200041016b410511000041016a0541000b0b";

const SWITCH: Case = Case {
    module: SWITCHES,
    script: NOTHING,
    func: 0,
    ty: ValType::I32,
    args: &[],
};

const CALL: Case = Case {
    module: INDIRECT,
    script: r#"{"imports":{"h":{"f":{"calls":[]}}},"main":[]}"#,
    ..SWITCH
};

/// Each label, and the default past the end of the table.
const SWITCH_ROWS: &[Row] = &[
    (0, &[0], Pause::Returned, 10, "host-return 0 i32:00000007\n"),
    (0, &[1], Pause::Returned, 9, "host-return 0 i32:00000005\n"),
    (0, &[2], Pause::Returned, 8, "host-return 0 i32:00000004\n"),
    (0, &[3], Pause::Returned, 8, "host-return 0 i32:00000004\n"),
    (
        0,
        &[0xFFFFFFFF],
        Pause::Returned,
        8,
        "host-return 0 i32:00000004\n",
    ),
    (1, &[0], Pause::Returned, 4, "host-return 1 i32:00000009\n"),
    (
        1,
        &[0xFFFFFFFF],
        Pause::Returned,
        4,
        "host-return 1 i32:00000009\n",
    ),
    (2, &[0], Pause::Returned, 10, "host-return 2 i32:00000001\n"),
    (
        2,
        &[1000],
        Pause::Returned,
        8_002,
        "host-return 2 i32:000003e8\n",
    ),
];

/// Each entry, and indices past the end of the table.
const CALL_ROWS: &[Row] = &[
    (
        4,
        &[10, 0],
        Pause::Returned,
        6,
        "host-return 4 i32:0000000b\n",
    ),
    (
        4,
        &[10, 1],
        Pause::Returned,
        6,
        "host-return 4 i32:00000014\n",
    ),
    (
        4,
        &[10, 2],
        Pause::Trapped,
        3,
        "trap 4 2 signature i32:0000000a i32:00000002 found 3\n",
    ),
    (
        4,
        &[10, 3],
        Pause::Import { index: 0 },
        3,
        "import-call 0 i32:0000000a\n",
    ),
    (
        4,
        &[10, 4],
        Pause::Trapped,
        3,
        "trap 4 2 empty i32:0000000a i32:00000004\n",
    ),
    (
        4,
        &[10, 6],
        Pause::Trapped,
        3,
        "trap 4 2 table i32:0000000a i32:00000006 found 6\n",
    ),
    (
        4,
        &[10, 0xFFFFFFFF],
        Pause::Trapped,
        3,
        "trap 4 2 table i32:0000000a i32:ffffffff found 6\n",
    ),
    (
        5,
        &[50, 8],
        Pause::Returned,
        7,
        "host-return 5 i32:0000002a\n",
    ),
    (
        6,
        &[1000],
        Pause::Returned,
        9_003,
        "host-return 6 i32:000003e8\n",
    ),
];

const TABLES: &[(Case, &[Row])] = &[(SWITCH, SWITCH_ROWS), (CALL, CALL_ROWS)];

#[test]
fn tables_come_to_the_same_in_both_ways(rt: HostRuntime) -> Result<(), Fail> {
    assert_eq!(rt; first_other(rt.alloc(), TABLES)?, None);
    Ok(())
}
