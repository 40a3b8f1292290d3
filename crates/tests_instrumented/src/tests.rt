use crate::buffers::with_hooks;
use hook_insert::InstrumentedModule;
use sample_inputs::examples::{
    C_BUFFERS, COLLATZ, COPY_LOAD, FILL_PAST, FLOAT_GLOBAL, NESTED_CALL, TABLE_ENTRY, TWO_ANSWERS,
};
use std::alloc::Global;
use std::test::Fail;

/// A module: its name, its bytes in hexadecimal; and for its instrumented module the number of instructions in
/// its bodies, ends of blocks among them, of those that take a turn, of types, and of imports.
type Row = (&'static str, &'static str, [usize; 4]);

const ROWS: &[Row] = &[
    (
        "a function that calls an import twice",
        TWO_ANSWERS,
        [30, 3, 6, 16],
    ),
    ("buffers on a stack in memory", C_BUFFERS, [92, 26, 8, 16]),
    ("two functions and a memory", NESTED_CALL, [44, 5, 6, 16]),
    ("a table", TABLE_ENTRY, [39, 4, 7, 16]),
    ("a copy", COPY_LOAD, [37, 8, 7, 16]),
    ("a fill", FILL_PAST, [29, 5, 6, 16]),
    ("a mutable global", FLOAT_GLOBAL, [20, 2, 7, 16]),
    ("loops", COLLATZ, [89, 67, 6, 16]),
];

/// The body of the first row's function, instrumented.
const BODY: &str = "[Const(Val { ty: I32, bits: 1 }), Call(2), Block(Some(I32)), \
    Const(Val { ty: I32, bits: 0 }), Call(4), Call(0), LocalSet(1), Const(Val { ty: I32, bits: 127 }), LocalGet(1), \
    Numeric(173), Call(1), Const(Val { ty: I32, bits: 0 }), Call(5), LocalGet(1), \
    Const(Val { ty: I32, bits: 0 }), Call(4), Call(0), LocalSet(1), Const(Val { ty: I32, bits: 127 }), LocalGet(1), \
    Numeric(173), Call(1), Const(Val { ty: I32, bits: 0 }), Call(5), LocalGet(1), \
    Numeric(106), End, Const(Val { ty: I32, bits: 1 }), Call(3), End]";

/// The figures of an instrumented module, as a row has them.
fn figures(hooked: &InstrumentedModule) -> [usize; 4] {
    let mut instructions = 0;
    let mut turns = 0;
    let mut place: u32 = 0;
    let module = hooked.module.module();
    'funcs: for func in module.funcs.as_slice() {
        instructions = func.body.as_slice().len().wrapping_add(instructions);
        'weights: for weight in hooked.meter.at(place).unwrap_or(&[]) {
            turns = (*weight as usize).wrapping_add(turns);
        }
        place = place.wrapping_add(1);
    }
    let types = module.types.as_slice().len();
    let imports = module.imports.as_slice().len();
    [instructions, turns, types, imports]
}

/// The figures of the instrumented module of bytes in hexadecimal.
fn figures_of(alloc: Global, text: &str) -> Result<[usize; 4], Fail> {
    let hooked = with_hooks(alloc, text)?;
    Ok(figures(&hooked))
}

#[test]
fn instrumented_modules_have_these_figures(rt: HostRuntime) -> Result<(), Fail> {
    for &(name, text, want) in ROWS {
        if figures_of(rt.alloc(), text)? != want {
            return Err(Fail::new(format_args!("{name}")));
        }
    }
    Ok(())
}

#[test]
fn the_instrumented_body_of_two_answers(rt: HostRuntime) -> Result<(), Fail> {
    let hooked = with_hooks(rt.alloc(), TWO_ANSWERS)?;
    let mut text = String::new(rt.alloc());
    for func in hooked.module.module().funcs.as_slice() {
        write!(text, "{:?}", func.body.as_slice())?;
    }
    assert!(rt; text.as_str() == BODY);
    Ok(())
}
