//! Tapes that fit a module and their weights, and the first segment that does not fit.

use crate::tests::files::file;
use sample_inputs::module_without_parts;
use sample_inputs::traces::{TAPE, TAPE_OF_TWO_ANSWERS};
use std::alloc::Global;
use std::test::Fail;
use trace_format::read_tape;
use trace_model::{Tape, TapeFault, fits};
use wasm_syntax::{
    Func, FuncType, FuncTypes, Funcs, Import, ImportKind, Imports, Instr, Limits, List, Module,
    Name, NoMemory, ValType,
};

/// The first segment of tapes that does not fit, `None` if they fit; the name of each, and the bytes after its
/// digest.
type Rows = (Option<u64>, &'static [(&'static str, &'static str)]);

const TWO_ANSWERS_ROWS: &[Rows] = &[
    (
        None,
        &[
            ("two answers", TAPE_OF_TWO_ANSWERS),
            ("a trap within an import", "0000200100010000232f"),
        ],
    ),
    (
        Some(0),
        &[
            ("no segments", "2f"),
            ("a beginning by an import", "01000021017f050000002f"),
            ("a call of an import", "00002000002f"),
            ("a call of no function", "00002002002f"),
            ("an argument too many", "00002001017f000000002f"),
            ("a return without an import", "000021002f"),
            ("a trap without one", "0000232f"),
            ("a segment after the end", "0000220200222f"),
            ("bytes without a memory", "0001070001ff222f"),
            ("a growth without a memory", "00010501222f"),
            ("a table that is not there", "00010a05222f"),
            ("an entry without a table", "0001080000222f"),
            ("a global that is not there", "000109007f00000000222f"),
        ],
    ),
    (
        Some(1),
        &[
            ("a second beginning", "00002001000000222f"),
            (
                "an import that is not there",
                "000020010001010021017f050000002f",
            ),
            (
                "a result of another type",
                "000020010001000021017e05000000000000002f",
            ),
            ("no result", "000020010001000021002f"),
            ("an end within an import", "0000200100010000222f"),
            ("a segment after a trap", "0000200100010000230200222f"),
        ],
    ),
];

const OVERWRITE_ROWS: &[Rows] = &[
    (
        None,
        &[
            ("bytes", "0001070a02ccdd222f"),
            ("bytes apart", "0002070a01cc070c01dd222f"),
            ("a growth before bytes", "00020502070a01cc222f"),
            ("the greatest memory", "0001058020222f"),
            (
                "the last byte of the greatest memory",
                "000107ffffff7f01aa222f",
            ),
        ],
    ),
    (
        Some(0),
        &[
            ("bytes that touch", "0002070a01cc070b01dd222f"),
            ("bytes in another order", "0002070c01dd070a01cc222f"),
            ("bytes twice", "0002070a01cc070a01dd222f"),
            ("a growth after bytes", "0002070a01cc0502222f"),
            ("two growths", "000205020503222f"),
            ("a page more", "0001058120222f"),
            ("a byte more", "000107ffffff7f02aabb222f"),
        ],
    ),
];

/// Rows for a memory of at most two pages.
const MAXIMUM_ROWS: &[Rows] = &[
    (None, &[("a growth to the maximum", "00010502222f")]),
    (Some(0), &[("a page more", "00010503222f")]),
];

#[test]
fn of_two_answers(rt: HostRuntime) -> Result<(), Fail> {
    let alloc = rt.alloc();
    check_rows(
        alloc,
        &module_of(alloc, &[ValType::I32], &[])?,
        TWO_ANSWERS_ROWS,
    )
}

#[test]
fn of_a_memory(rt: HostRuntime) -> Result<(), Fail> {
    let alloc = rt.alloc();
    let page = Limits { min: 1, max: None };
    check_rows(alloc, &module_of(alloc, &[], &[page])?, OVERWRITE_ROWS)
}

#[test]
fn of_a_memory_with_a_maximum(rt: HostRuntime) -> Result<(), Fail> {
    let alloc = rt.alloc();
    let pages = Limits {
        min: 1,
        max: Some(2),
    };
    check_rows(alloc, &module_of(alloc, &[], &[pages])?, MAXIMUM_ROWS)
}

/// Tests which tapes fit a module.
fn check_rows(alloc: Global, module: &Module, groups: &[Rows]) -> Result<(), Fail> {
    for &(unfit, rows) in groups {
        let want = match unfit {
            None => Ok(()),
            Some(segment) => Err(TapeFault::Unfit { segment }),
        };
        for &(name, body) in rows {
            if fit_of(alloc, body, module)? != want {
                return Err(Fail::new(format_args!("{name}")));
            }
        }
    }
    Ok(())
}

/// Whether a tape fits a module, or the first segment that does not fit.
fn fit_of(alloc: Global, body: &str, module: &Module) -> Result<Result<(), TapeFault>, Fail> {
    let tape = tape_of(alloc, body)?;
    Ok(fits(alloc, &tape, module))
}

/// A module with an imported function of these results, a function that returns an i32, and memories.
fn module_of(alloc: Global, given: &[ValType], memories: &[Limits]) -> Result<Module, NoMemory> {
    let mut module = module_without_parts(alloc);
    add_parts(alloc, &mut module, given, memories)?;
    Ok(module)
}

fn add_parts(
    alloc: Global,
    module: &mut Module,
    given: &[ValType],
    memories: &[Limits],
) -> Result<(), NoMemory> {
    module.types = types_of(alloc, given)?;
    module.imports = imports_of(alloc)?;
    module.funcs = funcs_of(alloc)?;
    module.memories = List::from_vec(Vec::from_slice(alloc, memories)?);
    Ok(())
}

/// The type of the imported function and that of the other.
fn types_of(alloc: Global, given: &[ValType]) -> Result<FuncTypes, NoMemory> {
    let mut types = Vec::new(alloc);
    types.push(type_of(alloc, given)?)?;
    types.push(type_of(alloc, &[ValType::I32])?)?;
    Ok(List::from_vec(types))
}

fn imports_of(alloc: Global) -> Result<Imports, NoMemory> {
    let module = name_of(alloc, "h")?;
    let name = name_of(alloc, "f")?;
    let kind = ImportKind::Func(0);
    let import = Import { module, name, kind };
    Ok(List::from_vec(vec![in alloc; import]?))
}

fn funcs_of(alloc: Global) -> Result<Funcs, NoMemory> {
    let mut body = Vec::new(alloc);
    body.push(Instr::Unreachable)?;
    body.push(Instr::End)?;
    let func = Func {
        ty: 1,
        locals: List::new(alloc),
        body: List::from_vec(body),
    };
    Ok(List::from_vec(vec![in alloc; func]?))
}

/// The type of functions without parameters that have these results.
fn type_of(alloc: Global, results: &[ValType]) -> Result<FuncType, NoMemory> {
    Ok(FuncType {
        params: List::new(alloc),
        results: List::from_vec(Vec::from_slice(alloc, results)?),
    })
}

/// A name.
fn name_of(alloc: Global, text: &str) -> Result<Name, NoMemory> {
    Ok(Name::from_string(String::from_str(alloc, text)?))
}

/// A tape.
fn tape_of(alloc: Global, body: &str) -> Result<Tape, Fail> {
    let bytes = file(alloc, TAPE, "02", body)?;
    match read_tape(alloc, bytes.as_slice()) {
        Ok((_, tape)) => Ok(tape),
        Err(_) => Err(Fail::from("no tape")),
    }
}

fn weight_of(alloc: Global, body: &str) -> Result<u64, Fail> {
    Ok(tape_of(alloc, body)?.weight())
}

/// Two bytes, a size of each kind, an entry, a global; two arguments; three times control leaves.
const OF_WEIGHT_11: &str =
    "000505020a05070a02ccdd0800010309027f070000002003027f010000007e0200000000000000\
    01000021000200222f";

#[test]
fn tapes_weigh(rt: HostRuntime) -> Result<(), Fail> {
    assert!(rt; weight_of(rt.alloc(), TAPE_OF_TWO_ANSWERS)? == 6);
    assert!(rt; weight_of(rt.alloc(), OF_WEIGHT_11)? == 11);
    assert!(rt; weight_of(rt.alloc(), "2f")? == 0);
    Ok(())
}
