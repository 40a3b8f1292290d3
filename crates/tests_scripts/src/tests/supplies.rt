//! What scripts supply for imports, and the first import that the supply does not match.

use crate::tests::answers::{IMPORTED, module};
use host_script::LinkFault::{self, Mismatch, Missing};
use host_script::Supply;
use host_supply::supply_of;
use r3_inputs::script_of;
use std::alloc::Global;
use std::test::Fail;
use wasm_syntax::{Limits, Val, ValType};
use wasm_validate::Checked;

/// Supplies that match the imports: a table of 2 to 4 entries, a memory of 1 to 3 pages and two globals.
const TABLE: &str = r#""table":{"size":2,"max":4},"#;

const MEMORY: &str = r#""memory":{"pages":1,"max":2},"#;

const GLOBALS: &str = r#""globals":{"h":{"g":{"i32":7},"k":{"i64":-1}}}"#;

/// What a script supplies for the table, the memory and the two globals of a module.
fn supply_by(
    alloc: Global,
    table: &str,
    memory: &str,
    globals: &str,
) -> Result<Result<Supply, LinkFault>, Fail> {
    let text = format!(in alloc; "{{{table}{memory}{globals}}}")?;
    let checked = module(alloc, IMPORTED)?;
    supply_in(alloc, &checked, text.as_bytes())
}

/// What a script supplies for a module.
fn supply_in(
    alloc: Global,
    checked: &Checked,
    text: &[u8],
) -> Result<Result<Supply, LinkFault>, Fail> {
    match script_of(alloc, text, checked) {
        Ok(script) => Ok(supply_of(alloc, checked.module(), &script)),
        Err(_fault) => Err(Fail::from("a script that is not taken")),
    }
}

/// A table that is full.
const FULL_TABLE: &str = r#""table":{"size":3,"max":3},"#;

/// The first global with a value of another type, and with its own.
const OF_I64: &str = r#""globals":{"h":{"g":{"i64":7}}}"#;

const OF_I32: &str = r#""globals":{"h":{"g":{"i32":7}}}"#;

/// A table, a memory, globals, and the fault of their supply.
const ROWS: &[(&str, &str, &str, LinkFault)] = &[
    ("", "", GLOBALS, Missing { import: 0 }),
    (FULL_TABLE, "", GLOBALS, Missing { import: 1 }),
    (TABLE, "", GLOBALS, Missing { import: 1 }),
    (TABLE, MEMORY, r#""main":[]"#, Missing { import: 2 }),
    (TABLE, MEMORY, OF_I64, Mismatch { import: 2 }),
    (TABLE, MEMORY, OF_I32, Missing { import: 3 }),
    // Tables that do not match the imported one.
    (
        r#""table":{"size":1,"max":4},"#,
        "",
        GLOBALS,
        Mismatch { import: 0 },
    ),
    (
        r#""table":{"size":2},"#,
        "",
        GLOBALS,
        Mismatch { import: 0 },
    ),
    (
        r#""table":{"size":2,"max":5},"#,
        "",
        GLOBALS,
        Mismatch { import: 0 },
    ),
    (
        r#""table":{"size":3,"max":2},"#,
        "",
        GLOBALS,
        Mismatch { import: 0 },
    ),
    (
        r#""table":{"size":4,"max":3},"#,
        "",
        GLOBALS,
        Mismatch { import: 0 },
    ),
    // Memories that do not match the imported one.
    (
        TABLE,
        r#""memory":{"pages":0,"max":3},"#,
        GLOBALS,
        Mismatch { import: 1 },
    ),
    (
        TABLE,
        r#""memory":{"pages":1,"max":4},"#,
        GLOBALS,
        Mismatch { import: 1 },
    ),
];

/// The fault of a supply, if there is one.
fn fault_of(
    alloc: Global,
    table: &str,
    memory: &str,
    globals: &str,
) -> Result<Option<LinkFault>, Fail> {
    Ok(supply_by(alloc, table, memory, globals)?.err())
}

#[test]
fn first_import_that_is_not_matched(rt: HostRuntime) -> Result<(), Fail> {
    for &(table, memory, globals, want) in ROWS {
        let fault = fault_of(rt.alloc(), table, memory, globals)?;
        assert!(rt; fault == Some(want), "{table}{memory}{globals}");
    }
    Ok(())
}

/// Whether a supply has a table of 3 to 4 entries, a memory of two pages, and the two globals.
fn is_whole(supply: &Supply) -> bool {
    let table = Limits {
        min: 3,
        max: Some(4),
    };
    let memory = Limits {
        min: 2,
        max: Some(2),
    };
    let globals = [
        Val {
            ty: ValType::I32,
            bits: 7,
        },
        Val {
            ty: ValType::I64,
            bits: u64::MAX,
        },
    ];
    supply.table == Some(table)
        && supply.memory == Some(memory)
        && supply.globals.as_slice() == globals.as_slice()
}

#[test]
fn all_imports_supplied(rt: HostRuntime) -> Result<(), Fail> {
    let table = r#""table":{"size":3,"max":4},"#;
    let memory = r#""memory":{"pages":2,"max":2},"#;
    match supply_by(rt.alloc(), table, memory, GLOBALS)? {
        Ok(supply) => {
            assert!(rt; is_whole(&supply));
            Ok(())
        }
        Err(_fault) => Err(Fail::from("not supplied")),
    }
}
