//! Calls with their results, worked out by hand from the standard, in both ways.

ghost use Rattle.bench_machine.specs.Positions.{IsRunning};

use crate::both_ways::{Case, outcome_by_advance, outcome_by_turns, running_instance};
use bench_machine::Instance;
use sample_inputs::examples::C_BUFFERS;
use std::alloc::Global;
use std::test::Fail;
use wasm_flat::Meter;
use wasm_interp::Pause;
use wasm_syntax::ValType;

/// The script of a host that does nothing.
pub(crate) const NOTHING: &str = r#"{"main":[]}"#;

/// A page, at most three, that ends with 01 02 03 84. Functions on an address: an i32 is loaded; -2 is
/// stored as an i32; a byte is loaded, and one stored, 2^32 - 1 further on. On a count: the memory is
/// grown, and its size given; it is grown.
const ACCESSES: &str =
    // (module (memory 1 3) (func (param i32) (result i32) local.get 0 i32.load)
    //   (func (param i32) local.get 0 i32.const -2 i32.store)
    //   (func (param i32) (result i32) local.get 0 i32.load8_u offset=4294967295)
    //   (func (param i32) local.get 0 i32.const 1 i32.store8 offset=4294967295)
    //   (func (param i32) (result i32) local.get 0 memory.grow drop memory.size)
    //   (func (param i32) (result i32) local.get 0 memory.grow) (data (i32.const 65532) "\01\02\03\84"))
    "0061736d01000000010a0260017f017f60017f00030706000100010000050401010103\
     0a3e06070020002802000b09002000417e3602000b0b0020002d00ffffffff0f0b0d00200041013a00ffffffff0f0b090020\
     0040001a3f000b0600200040000b0b0c010041fcff030b0401020384";

/// A page without a maximum, which a function grows.
// (module (memory 1) (func (param i32) (result i32) local.get 0 memory.grow))
const WIDE: &str = "0061736d0100000001060160017f017f0302010005030100010a08010600200040000b";

/// Types 0 and 2 are `[] -> [i32]`, 1 is `[] -> [i64]`. Functions 0, 1, 2 of these types give 7, 7, 8.
/// A table of three entries has 0 and 1; function 3 calls the entry of its argument by type 2.
const CALLS: &str =
    // (module (type (func (result i32))) (type (func (result i64))) (type (func (result i32)))
    //   (type (func (param i32) (result i32))) (table 3 funcref) (func (type 0) i32.const 7)
    //   (func (type 1) i64.const 7) (func (type 2) i32.const 8) (func (type 3) local.get 0 call_indirect (type 2))
    //   (elem (i32.const 0) 0 1))
    "0061736d010000000112046000017f6000017e6000017f60017f017f03050400010203040401700003\
     0908010041000b0200010a1804040041070b040042070b040041080b070020001102000b";

/// `div_s`, `div_u`, `rem_s`, `rem_u` of two i32, and the same of two i64.
const DIVISIONS: &str =
    // (module (func (param i32 i32) (result i32) local.get 0 local.get 1 i32.div_s)
    //   (func (param i32 i32) (result i32) local.get 0 local.get 1 i32.div_u)
    //   (func (param i32 i32) (result i32) local.get 0 local.get 1 i32.rem_s)
    //   (func (param i32 i32) (result i32) local.get 0 local.get 1 i32.rem_u)
    //   (func (param i64 i64) (result i64) local.get 0 local.get 1 i64.div_s)
    //   (func (param i64 i64) (result i64) local.get 0 local.get 1 i64.div_u)
    //   (func (param i64 i64) (result i64) local.get 0 local.get 1 i64.rem_s)
    //   (func (param i64 i64) (result i64) local.get 0 local.get 1 i64.rem_u))
    "0061736d01000000010d0260027f7f017f60027e7e017e0309080000000001010101\
     0a41080700200020016d0b0700200020016e0b0700200020016f0b070020002001700b0700200020017f0b07002000200180\
     0b070020002001810b070020002001820b";

/// Imports a function of `[i32, i64] -> []`. Function 1 is a `br_table` of two labels and a third by
/// default, after which it gives 10, 11 and 12; 2 calls itself as often as its argument says; 3 is
/// empty; 4 calls the import with 5 and -1.
const CONTROLS: &str =
    // (module (import "h" "f" (func (param i32 i64)))
    //   (func (param i32) (result i32) block block block local.get 0 br_table 0 1 2 end i32.const 10 return end
    //     i32.const 11 return end i32.const 12)
    //   (func (param i32) (result i32) local.get 0 if (result i32) local.get 0 i32.const 1 i32.sub call 2
    //     i32.const 1 i32.add else i32.const 0 end) (func) (func i32.const 5 i64.const -1 call 0))
    "0061736d01000000010e0360027f7e0060017f017f60000002070101680166000003050401010202\
     0a3d041a0002400240024020000e020001020b410a0f0b410b0f0b410c0b14002000047f200041016b100241016a0541000b\
     0b02000b08004105427f10000b";

const UNANSWERED: &str = r#"{"imports":{"h":{"f":{"calls":[]}}},"main":[]}"#;

const ACCESS: Case = Case {
    module: ACCESSES,
    script: NOTHING,
    func: 0,
    ty: ValType::I32,
    args: &[],
};

const CONTROL: Case = Case {
    module: CONTROLS,
    script: UNANSWERED,
    func: 0,
    ty: ValType::I32,
    args: &[],
};

/// A function, its arguments, where the machine pauses, the turns that it takes, and the last line.
pub(crate) type Row = (u32, &'static [u64], Pause, u64, &'static str);

const ACCESS_ROWS: &[Row] = &[
    (
        0,
        &[65_532],
        Pause::Returned,
        2,
        "host-return 0 i32:84030201\n",
    ),
    (
        0,
        &[65_533],
        Pause::Trapped,
        2,
        "trap 0 1 memory i32:0000fffd found 1\n",
    ),
    (1, &[65_532], Pause::Returned, 3, "host-return 1\n"),
    (
        1,
        &[65_533],
        Pause::Trapped,
        3,
        "trap 1 2 memory i32:0000fffd i32:fffffffe found 1\n",
    ),
    (
        2,
        &[1],
        Pause::Trapped,
        2,
        "trap 2 1 memory i32:00000001 found 1\n",
    ),
    (
        3,
        &[1],
        Pause::Trapped,
        3,
        "trap 3 2 memory i32:00000001 i32:00000001 found 1\n",
    ),
    (4, &[2], Pause::Returned, 4, "host-return 4 i32:00000003\n"),
    (4, &[3], Pause::Returned, 4, "host-return 4 i32:00000001\n"),
    (5, &[2], Pause::Returned, 2, "host-return 5 i32:00000001\n"),
    (5, &[3], Pause::Returned, 2, "host-return 5 i32:ffffffff\n"),
];

const WIDE_ROWS: &[Row] = &[(
    0,
    &[4_096],
    Pause::Returned,
    2,
    "host-return 0 i32:ffffffff\n",
)];

const CALL_ROWS: &[Row] = &[
    (3, &[0], Pause::Returned, 3, "host-return 3 i32:00000007\n"),
    (
        3,
        &[1],
        Pause::Trapped,
        2,
        "trap 3 1 signature i32:00000001 found 1\n",
    ),
    (3, &[2], Pause::Trapped, 2, "trap 3 1 empty i32:00000002\n"),
    (
        3,
        &[3],
        Pause::Trapped,
        2,
        "trap 3 1 table i32:00000003 found 3\n",
    ),
];

const NARROW_ROWS: &[Row] = &[
    (
        0,
        &[1, 0],
        Pause::Trapped,
        3,
        "trap 0 2 divide i32:00000001 i32:00000000\n",
    ),
    (
        1,
        &[1, 0],
        Pause::Trapped,
        3,
        "trap 1 2 divide i32:00000001 i32:00000000\n",
    ),
    (
        2,
        &[1, 0],
        Pause::Trapped,
        3,
        "trap 2 2 divide i32:00000001 i32:00000000\n",
    ),
    (
        3,
        &[1, 0],
        Pause::Trapped,
        3,
        "trap 3 2 divide i32:00000001 i32:00000000\n",
    ),
    (
        0,
        &[0x8000_0000, 0xFFFF_FFFF],
        Pause::Trapped,
        3,
        "trap 0 2 overflow i32:80000000 i32:ffffffff\n",
    ),
    (
        2,
        &[0x8000_0000, 0xFFFF_FFFF],
        Pause::Returned,
        3,
        "host-return 2 i32:00000000\n",
    ),
];

const BROAD_ROWS: &[Row] = &[
    (
        4,
        &[1, 0],
        Pause::Trapped,
        3,
        "trap 4 2 divide i64:0000000000000001 i64:0000000000000000\n",
    ),
    (
        5,
        &[1, 0],
        Pause::Trapped,
        3,
        "trap 5 2 divide i64:0000000000000001 i64:0000000000000000\n",
    ),
    (
        6,
        &[1, 0],
        Pause::Trapped,
        3,
        "trap 6 2 divide i64:0000000000000001 i64:0000000000000000\n",
    ),
    (
        7,
        &[1, 0],
        Pause::Trapped,
        3,
        "trap 7 2 divide i64:0000000000000001 i64:0000000000000000\n",
    ),
    (
        4,
        &[0x8000_0000_0000_0000, 0xFFFF_FFFF_FFFF_FFFF],
        Pause::Trapped,
        3,
        "trap 4 2 overflow i64:8000000000000000 i64:ffffffffffffffff\n",
    ),
    (
        6,
        &[0x8000_0000_0000_0000, 0xFFFF_FFFF_FFFF_FFFF],
        Pause::Returned,
        3,
        "host-return 6 i64:0000000000000000\n",
    ),
];

const CONTROL_ROWS: &[Row] = &[
    (1, &[0], Pause::Returned, 7, "host-return 1 i32:0000000a\n"),
    (1, &[1], Pause::Returned, 7, "host-return 1 i32:0000000b\n"),
    (1, &[2], Pause::Returned, 6, "host-return 1 i32:0000000c\n"),
    (
        1,
        &[0xFFFF_FFFF],
        Pause::Returned,
        6,
        "host-return 1 i32:0000000c\n",
    ),
    (3, &[], Pause::Returned, 0, "host-return 3\n"),
    (
        4,
        &[],
        Pause::Import { index: 0 },
        3,
        "import-call 0 i32:00000005 i64:ffffffffffffffff\n",
    ),
];

const BUFFER_ROWS: &[Row] = &[(
    2,
    &[0xA_696B],
    Pause::Returned,
    3,
    "host-return 2 i32:0014d2d6\n",
)];

const TABLES: &[(Case, &[Row])] = &[
    (ACCESS, ACCESS_ROWS),
    (
        Case {
            module: WIDE,
            ..ACCESS
        },
        WIDE_ROWS,
    ),
    (
        Case {
            module: CALLS,
            ..ACCESS
        },
        CALL_ROWS,
    ),
    (
        Case {
            module: DIVISIONS,
            ..ACCESS
        },
        NARROW_ROWS,
    ),
    (
        Case {
            module: DIVISIONS,
            ty: ValType::I64,
            ..ACCESS
        },
        BROAD_ROWS,
    ),
    (
        Case {
            module: C_BUFFERS,
            ..ACCESS
        },
        BUFFER_ROWS,
    ),
    (CONTROL, CONTROL_ROWS),
];

/// Whether a call comes to the end of a row turn by turn, with these bytes in the memory.
fn comes_by_turns(
    alloc: Global,
    case: Case,
    row: Row,
    given: u64,
    bytes: &[u8],
) -> Result<bool, Fail> {
    let (_, _, pause, turns, line) = row;
    let end = outcome_by_turns(alloc, case, given)?;
    let is_there = end.pause == pause && end.turns == turns;
    Ok(is_there && end.bytes.as_slice() == bytes && end.line.as_slice() == line.as_bytes())
}

/// Whether a row holds in both ways within a given number of turns.
fn holds(alloc: Global, case: Case, row: Row, given: u64) -> Result<bool, Fail> {
    let (_, _, pause, turns, _) = row;
    let end = outcome_by_advance(alloc, case, given)?;
    let is_there = end.pause == pause && end.turns == turns;
    Ok(is_there && comes_by_turns(alloc, case, row, given, end.bytes.as_slice())?)
}

/// Whether a given number of turns is spent turn by turn, with these bytes in the memory.
fn are_spent_by_turns(alloc: Global, case: Case, given: u64, bytes: &[u8]) -> Result<bool, Fail> {
    let end = outcome_by_turns(alloc, case, given)?;
    Ok(end.pause == Pause::Spent && end.turns == given && end.bytes.as_slice() == bytes)
}

/// Whether a given number of turns is spent in both ways.
fn are_spent(alloc: Global, case: Case, given: u64) -> Result<bool, Fail> {
    let end = outcome_by_advance(alloc, case, given)?;
    let is_spent = end.pause == Pause::Spent && end.turns == given;
    Ok(is_spent && are_spent_by_turns(alloc, case, given, end.bytes.as_slice())?)
}

/// Whether a row holds within just the turns that it takes and within one more, and all turns are
/// spent with one turn less.
fn takes_its_turns(alloc: Global, case: Case, row: Row) -> Result<bool, Fail> {
    let turns = row.3;
    let just = holds(alloc, case, row, turns)?;
    let more = holds(alloc, case, row, turns.saturating_add(1))?;
    let fewer = match turns.checked_sub(1) {
        Some(fewer) => are_spent(alloc, case, fewer)?,
        None => true,
    };
    Ok(just && more && fewer)
}

/// The line of the first row that does not hold.
pub(crate) fn first_other(
    alloc: Global,
    tables: &[(Case, &'static [Row])],
) -> Result<Option<&'static str>, Fail> {
    for &(table, rows) in tables {
        for &row in rows {
            let case = table.call(row.0, row.1);
            if !takes_its_turns(alloc, case, row)? {
                return Ok(Some(row.4));
            }
        }
    }
    Ok(None)
}

#[test]
fn calls_come_to_the_same_in_both_ways(rt: HostRuntime) -> Result<(), Fail> {
    assert_eq!(rt; first_other(rt.alloc(), TABLES)?, None);
    Ok(())
}

/// A function that calls itself 100,000 times, one within the other, and returns as often.
#[test]
fn a_deep_recursion(rt: HostRuntime) -> Result<(), Fail> {
    let case = CONTROL.call(2, &[100_000]);
    let row = (
        2,
        case.args,
        Pause::Returned,
        800_003,
        "host-return 2 i32:000186a0\n",
    );
    assert!(rt; takes_its_turns(rt.alloc(), case, row)?);
    Ok(())
}

/// -2 in the last word of the memory.
#[test]
fn a_store_leaves_its_bytes(rt: HostRuntime) -> Result<(), Fail> {
    let case = ACCESS.call(1, &[65_532]);
    let at_once = outcome_by_advance(rt.alloc(), case, 3)?;
    assert!(rt;
        at_once
            .bytes
            .as_slice()
            .ends_with(b"\0\0\xFE\xFF\xFF\xFF".as_slice())
    );
    Ok(())
}

/// Whether the turns of a call are spent after a first few, and it returns after more of ten.
fn goes_on(instance: &mut Instance, first: u64) -> Result<bool, Fail>
    requires { IsRunning instance.old.«module» instance.old.machine }
{
    let meter = Meter::all_one();
    match instance.advance(&meter, first)? {
        (Pause::Spent, left) => {
            let (pause, rest) = instance.advance(&meter, 10)?;
            Ok(left == 0 && pause == Pause::Returned && rest == first.saturating_add(3))
        }
        _ => Ok(false),
    }
}

/// Seven turns are spent after any fewer, and going on makes the rest.
#[test]
fn a_spent_budget_can_be_added_to(rt: HostRuntime) -> Result<(), Fail> {
    for first in 0..7u64 {
        let mut instance = running_instance(rt.alloc(), CONTROL.call(1, &[1]))?;
        assert!(rt; goes_on(&mut instance, first)?);
    }
    Ok(())
}
